//! Pages of points, read in place.
ghost use Rattle.std.specs.Prelude.{◌≡◌, ◌<◌, ◌↔◌, IsTrue, length, get_or};
ghost use Rattle.bw_types.specs.declared.point.Point.{Point};
ghost use Rattle.page_layout.specs.PointLeaf.{IsPointLeaf, point_leaf_in, point_leaf_page};

use crate::counted::{entry_in, is_counted, read_count, read_double};
use crate::entry::Own;
use crate::point_leaf::PointLeaf;
use crate::view::View;
use bw_types::Point;
use ports::Page;

const KIND: u8 = 5;

const MOST: usize = 64;

impl<'a> View<'a, PointLeaf> {
    /// The next page of a list, or 0.
    pub fn next(&self) -> u64
        ensures { result ≡ self.now.next }
    {
        read_double(self.page)
    }

    /// How many points there are.
    pub fn len(&self) -> usize
        ensures { result ≡ length self.now.points.items }
    {
        usize::from(read_count(self.page)).min(MOST)
    }

    /// The point at this place.
    pub fn point(&self, place: usize) -> Point
        requires { place < length self.now.points.items }
        ensures { (d : Point) → result ≡ get_or self.now.points.items place d }
    {
        entry_in::<Own, Point>(self.page, place)
    }
}

/// Whether the page spells points.
pub(crate) fn is_leaf(page: &Page) -> bool
    ensures { IsTrue result ↔ (IsPointLeaf (point_leaf_in page.now) × (page.now ≡ point_leaf_page (point_leaf_in page.now))) }
{
    let level = page[1];
    let count = usize::from(read_count(page)).min(MOST);
    let next = read_double(page);
    if level != 1 {
        return false;
    }
    if count < 1 {
        return false;
    }
    is_counted::<Own, Point>(page, KIND, 0, next, MOST)
}

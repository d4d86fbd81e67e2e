//! Nodes of the multiversion trees, read in place.
ghost use Rattle.std.specs.Prelude.{◌≡◌, ◌<◌, ◌↔◌, IsTrue, length, get_or};
ghost use Rattle.page_layout.specs.MvNode.{IsMvNode, mv_node_in, mv_node_page};
ghost use Rattle.page_layout.specs.declared.mv_node.MvEntry.{MvEntry};

use crate::counted::{entry_in, is_counted, read_body, read_count, read_double, read_word};
use crate::entry::{Own, stand_in_order};
use crate::mv_node::{MvEntry, MvNode, before_fits};
use crate::view::View;
use ports::Page;

const KIND: u8 = 3;

const MOST: usize = 96;

impl<'a> View<'a, MvNode> {
    /// The node's place.
    pub fn place(&self) -> u32
        ensures { result ≡ self.now.place }
    {
        read_word(self.page)
    }

    /// The page of the node before this one, or 0.
    pub fn before(&self) -> u64
        ensures { result ≡ self.now.before }
    {
        read_double(self.page)
    }

    /// How many entries there are.
    pub fn len(&self) -> usize
        ensures { result ≡ length self.now.entries.items }
    {
        usize::from(read_count(self.page)).min(MOST)
    }

    /// The entry at this place.
    pub fn entry(&self, place: usize) -> MvEntry
        requires { place < length self.now.entries.items }
        ensures { (d : MvEntry) → result ≡ get_or self.now.entries.items place d }
    {
        entry_in::<Own, MvEntry>(self.page, place)
    }
}

/// Whether the page spells a node.
pub(crate) fn is_node(page: &Page) -> bool
    ensures { IsTrue result ↔ (IsMvNode (mv_node_in page.now) × (page.now ≡ mv_node_page (mv_node_in page.now))) }
{
    let level = page[1];
    let count = usize::from(read_count(page)).min(MOST);
    let place = read_word(page);
    let before = read_double(page);
    if level < 1 || level > 16 {
        return false;
    }
    if count < 1 {
        return false;
    }
    if place < 1 {
        return false;
    }
    if !before_fits(place, before) {
        return false;
    }
    if !is_counted::<Own, MvEntry>(page, KIND, place, before, MOST) {
        return false;
    }
    stand_in_order::<Own, MvEntry>(level, count, read_body(page))
}

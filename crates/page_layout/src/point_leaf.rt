//! Pages of points.
ghost use Rattle.std.specs.Prelude.{refl};
ghost use Rattle.page_layout.specs.Counted.{not_free};
ghost use Rattle.page_layout.specs.PointLeaf.{IsPointLeaf, IsTyped, point_bytes, point_at, IsPointTyped, length-point, point-back, point_leaf_in, point_leaf_page};
ghost use Rattle.page_layout.specs.PointLeafLaws.{point_leaf_in-page};

use crate::counted::{read_double, read_entries, write_counted};
use crate::entry::{Entry, Own};
use crate::front::{put_u32, put_u128};
use crate::number::{bytes_of, number_u32, number_u128, skip};
use crate::point_view::is_leaf;
use crate::spelled::{Spelled, TreePage};
use crate::three::{put_three_u64, three_u64};
use arrayvec::ArrayVec;
use bw_types::Point;
use ports::Page;

const KIND: u8 = 5;

/// A page of points: a leaf of a tree, or a part of a list of them.
///
/// A page spells 1 to 64 points, in any order. `next` is the next page of a list, and 0 where there is
/// none and in trees.
#[derive(Debug, PartialEq, Drop)]
pub struct PointLeaf {
    pub next: u64,
    pub points: ArrayVec<Point, 64>,
}

impl Entry<Own> for Point {
    const SIZE: usize = 44;

    ghost SIZE = { 44 };

    ghost spelling = { point_bytes };

    ghost value_at = { point_at };

    ghost is_typed = { IsPointTyped };

    // Points follow one another in any order, and keep no rule.
    ghost keeps = { λ _ _. Unit {0} };

    ghost precedes = { λ _ _. Unit {0} };

    fn put(&self, page: &mut Page, place: usize) {
        put_three_u64(page, place, &self.keys);
        put_u32(page, place + 24, self.version);
        put_u128(page, place + 28, self.weight);
    }

    fn get(bytes: &[u8]) -> Point {
        Point {
            keys: three_u64(bytes),
            version: number_u32(skip(bytes, 24)),
            weight: number_u128(skip(bytes, 28)),
        }
    }

    fn keeps(&self, _level: u8) -> bool {
        true
    }

    fn precedes(&self, _next: &Point) -> bool {
        true
    }

    ghost has_size = { λ x _. length-point x };

    ghost reads_back = { λ _ x rest typed _. point-back x rest typed };
}

impl Spelled for PointLeaf {
    ghost keeps = { IsPointLeaf };

    ghost is_typed = { IsTyped };

    ghost spelling = { point_leaf_page };

    ghost value_in = { point_leaf_in };

    fn write(&self, page: &mut Page) {
        write_counted(page, KIND, 1, 0, self.next, self.points.as_slice());
    }

    fn guess(page: &Page) -> PointLeaf {
        PointLeaf {
            next: read_double(page),
            points: read_entries(page, 64),
        }
    }

    fn keeps_rules(&self) -> bool {
        let count = self.points.len();
        1 <= count && count <= 64
    }

    fn is_spelled(page: &Page) -> bool {
        let _bytes = bytes_of(page);
        is_leaf(page)
    }

    ghost reads_back = { point_leaf_in-page };
}

impl TreePage for PointLeaf {
    ghost level_in = { λ _. 1 };

    fn level(&self) -> u8 {
        1
    }

    fn level_on(_page: &Page) -> u8 {
        1
    }

    ghost in_use = { λ _. not_free _ refl };
}

//! Pages that several of the tests use.
ghost use Rattle.page_layout.specs.Meta.{IsMeta};
ghost use Rattle.page_space.specs.MetaSet.{FitsBesideCounts};

use arrayvec::ArrayVec;
use bw_types::Tree;
use page_layout::Meta;
use ports::Page;

pub(crate) const SEVENS: Page = [7; 4096];

// A page of which each byte is this one.
pub(crate) fn full(byte: u8) -> Page {
    [byte; 4096]
}

// The meta page of a space of three pages, with no tree and no free page.
pub(crate) fn first_meta() -> Meta
    ensures rules { IsMeta result }
    ensures fits { FitsBesideCounts result }
{
    Meta {
        lives: 1,
        version: 0,
        events: 0,
        rows: 0,
        allotted: 3,
        free: 0,
        mass: 0,
        table: Tree::default(),
        roots: ArrayVec::new(),
    }
}

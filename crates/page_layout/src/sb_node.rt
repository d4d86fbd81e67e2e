//! Nodes of the trees over versions.
ghost use Rattle.std.specs.Prelude.{refl, ◌<◌, IsTrue};
ghost use Rattle.page_layout.specs.Children.{child_fits};
ghost use Rattle.page_layout.specs.Counted.{not_free};
ghost use Rattle.page_layout.specs.SbNode.{IsSbNode, IsTyped, raised_entry, sb_entry_bytes, sb_entry_at, IsSbEntryTyped, length-sb_entry, sb_entry-back, sb_node_in, sb_node_page};
ghost use Rattle.page_layout.specs.SbNodeLaws.{sb_node_in-page};

use crate::children::child_fits;
use crate::counted::{read_entries, write_counted};
use crate::entry::{Entry, Own, are_in_order};
use crate::front::{put_u32, put_u64, put_u128};
use crate::number::{bytes_of, number_u32, number_u64, number_u128, skip};
use crate::sb_view::is_node;
use crate::spelled::{Spelled, TreePage};
use crate::summed::Summed;
use arrayvec::ArrayVec;
use ports::Page;

const KIND: u8 = 2;

/// An entry of a node: the version from which it holds, its value, and its child or 0 in a leaf.
#[derive(Clone, Copy, Debug, Default, PartialEq, Eq)]
pub struct SbEntry {
    pub low: u32,
    pub value: u128,
    pub child: u64,
}

/// A node of a tree over versions; a leaf has level 1.
///
/// A page spells a node of a level of 1 to 16 with 1 to 64 entries, whose lows ascend strictly. A
/// leaf's children are 0, and an index node's at least 3. In memory there is room for one more.
#[derive(Debug, PartialEq, Drop)]
pub struct SbNode {
    pub level: u8,
    pub entries: ArrayVec<SbEntry, 65>,
}

impl Entry<Own> for SbEntry {
    const SIZE: usize = 28;

    ghost SIZE = { 28 };

    ghost spelling = { sb_entry_bytes };

    ghost value_at = { sb_entry_at };

    ghost is_typed = { IsSbEntryTyped };

    ghost keeps = { λ level e. IsTrue (child_fits level e.child) };

    ghost precedes = { λ e next. e.low < next.low };

    fn put(&self, page: &mut Page, place: usize) {
        put_u32(page, place, self.low);
        put_u128(page, place + 4, self.value);
        put_u64(page, place + 20, self.child);
    }

    fn get(bytes: &[u8]) -> SbEntry {
        SbEntry {
            low: number_u32(bytes),
            value: number_u128(skip(bytes, 4)),
            child: number_u64(skip(bytes, 20)),
        }
    }

    fn keeps(&self, level: u8) -> bool {
        child_fits(level, self.child)
    }

    fn precedes(&self, next: &SbEntry) -> bool {
        self.low < next.low
    }

    ghost has_size = { λ x _. length-sb_entry x };

    ghost reads_back = { λ _ x rest typed _. sb_entry-back x rest typed };
}

impl Summed for SbEntry {
    ghost value_of = { λ e. e.value };

    ghost raised = { raised_entry };

    fn value(&self) -> u128 {
        self.value
    }

    fn raise(&mut self, more: u128) {
        self.value = self.value.wrapping_add(more);
    }
}

impl Spelled for SbNode {
    ghost keeps = { IsSbNode };

    ghost is_typed = { IsTyped };

    ghost spelling = { sb_node_page };

    ghost value_in = { sb_node_in };

    fn write(&self, page: &mut Page) {
        write_counted(page, KIND, self.level, 0, 0, self.entries.as_slice());
    }

    fn guess(page: &Page) -> SbNode {
        SbNode {
            level: page[1],
            entries: read_entries(page, 64),
        }
    }

    fn keeps_rules(&self) -> bool {
        let count = self.entries.len();
        (1 <= self.level && self.level <= 16)
            && (1 <= count && count <= 64)
            && are_in_order(self.level, self.entries.as_slice())
    }

    fn is_spelled(page: &Page) -> bool {
        let _bytes = bytes_of(page);
        is_node(page)
    }

    ghost reads_back = { sb_node_in-page };
}

impl TreePage for SbNode {
    ghost level_in = { λ node. node.level };

    fn level(&self) -> u8 {
        self.level
    }

    fn level_on(page: &Page) -> u8 {
        page[1]
    }

    ghost in_use = { λ _. not_free _ refl };
}

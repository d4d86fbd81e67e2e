//! Nodes of the multiversion trees.
ghost use Rattle.std.specs.Prelude.{refl, ◌≡◌, ◌+◌, ◌*◌, ◌^◌, ◌<◌, IsTrue};
ghost use Rattle.page_layout.specs.Counted.{not_free};
ghost use Rattle.page_layout.specs.MvNode.{IsMvNode, IsTyped, raised_entry, mv_entry_bytes, mv_entry_at, IsMvEntryTyped, mv_keeps, mv_precedes, before_fits, length-mv_entry, mv_entry-back, mv_node_in, mv_node_page};
ghost use Rattle.page_layout.specs.MvNodeLaws.{mv_node_in-page};

use crate::children::child_fits;
use crate::counted::{read_double, read_entries, read_word, write_counted};
use crate::entry::{Entry, Own, are_in_order};
use crate::front::{put_u32, put_u64, put_u128};
use crate::mv_view::is_node;
use crate::number::{bytes_of, number_u32, number_u64, number_u128, skip};
use crate::spelled::{Spelled, TreePage};
use crate::summed::Summed;
use arrayvec::ArrayVec;
use ports::Page;

const KIND: u8 = 3;

/// An entry of a node: its lowest key, the versions from `start` to before `end`, its value, and its
/// child or 0 in a leaf. `end` is 4294967295 where the entry is not closed.
#[derive(Clone, Copy, Debug, Default, PartialEq, Eq)]
pub struct MvEntry {
    pub low: u64,
    pub start: u32,
    pub end: u32,
    pub value: u128,
    pub child: u64,
}

/// A node of a multiversion tree; a leaf has level 1.
///
/// A page spells a node of a level of 1 to 16 with 1 to 96 entries, which ascend strictly by low and
/// then start, and each of which starts before it ends. A leaf's children are 0, and an index node's
/// at least 3. The place is at least 1, and `before` is 0 exactly where it is 1. In memory there is
/// room for 100 entries.
#[derive(Debug, PartialEq, Drop)]
pub struct MvNode {
    pub level: u8,
    pub place: u32,
    pub before: u64,
    pub entries: ArrayVec<MvEntry, 100>,
}

impl Entry<Own> for MvEntry {
    const SIZE: usize = 40;

    ghost SIZE = { 40 };

    ghost spelling = { mv_entry_bytes };

    ghost value_at = { mv_entry_at };

    ghost is_typed = { IsMvEntryTyped };

    ghost keeps = { λ level e. IsTrue (mv_keeps level e) };

    ghost precedes = { λ e next. IsTrue (mv_precedes e next) };

    fn put(&self, page: &mut Page, place: usize) {
        put_u64(page, place, self.low);
        put_u32(page, place + 8, self.start);
        put_u32(page, place + 12, self.end);
        put_u128(page, place + 16, self.value);
        put_u64(page, place + 32, self.child);
    }

    fn get(bytes: &[u8]) -> MvEntry {
        MvEntry {
            low: number_u64(bytes),
            start: number_u32(skip(bytes, 8)),
            end: number_u32(skip(bytes, 12)),
            value: number_u128(skip(bytes, 16)),
            child: number_u64(skip(bytes, 32)),
        }
    }

    fn keeps(&self, level: u8) -> bool {
        self.start < self.end && child_fits(level, self.child)
    }

    fn precedes(&self, next: &MvEntry) -> bool {
        // One comparison: which of the two numbers decides differs from entry to entry, so no branch could be foreseen.
        order(self) < order(next)
    }

    ghost has_size = { λ x _. length-mv_entry x };

    ghost reads_back = { λ _ x rest typed _. mv_entry-back x rest typed };
}

// The low and the start as one number, by which entries ascend.
fn order(entry: &MvEntry) -> u128
    ensures value { result ≡ entry.now.low * 2 ^ 64 + entry.now.start }
    ensures start_fits { entry.now.start < 2 ^ 64 }
{
    (u128::from(entry.low) << 64) + u128::from(entry.start)
}

pub(crate) fn before_fits(place: u32, before: u64) -> bool
    ensures { result ≡ before_fits place before }
{
    if place == 1 { before == 0 } else { before >= 1 }
}

impl Summed for MvEntry {
    ghost value_of = { λ e. e.value };

    ghost raised = { raised_entry };

    fn value(&self) -> u128 {
        self.value
    }

    fn raise(&mut self, more: u128) {
        self.value = self.value.wrapping_add(more);
    }
}

impl Spelled for MvNode {
    ghost keeps = { IsMvNode };

    ghost is_typed = { IsTyped };

    ghost spelling = { mv_node_page };

    ghost value_in = { mv_node_in };

    fn write(&self, page: &mut Page) {
        write_counted(
            page,
            KIND,
            self.level,
            self.place,
            self.before,
            self.entries.as_slice(),
        );
    }

    fn guess(page: &Page) -> MvNode {
        MvNode {
            level: page[1],
            place: read_word(page),
            before: read_double(page),
            entries: read_entries(page, 96),
        }
    }

    fn keeps_rules(&self) -> bool {
        let count = self.entries.len();
        (1 <= self.level && self.level <= 16)
            && (1 <= self.place && before_fits(self.place, self.before))
            && (1 <= count && count <= 96)
            && are_in_order(self.level, self.entries.as_slice())
    }

    fn is_spelled(page: &Page) -> bool {
        let _bytes = bytes_of(page);
        is_node(page)
    }

    ghost reads_back = { mv_node_in-page };
}

impl TreePage for MvNode {
    ghost level_in = { λ node. node.level };

    fn level(&self) -> u8 {
        self.level
    }

    fn level_on(page: &Page) -> u8 {
        page[1]
    }

    ghost in_use = { λ _. not_free _ refl };
}

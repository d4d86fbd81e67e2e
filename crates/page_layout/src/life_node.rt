//! Nodes of object tables by id and life.
ghost use Rattle.std.specs.Prelude.{◌≡◌, ◌≤◌, ◌↔◌, IsTrue};
ghost use Rattle.page_layout.specs.LifeNode.{life_level, IsLifeNode, IsTyped, life_entry_bytes, life_entry_at, IsLifeEntryTyped, IsLifeLeaf, IsLifeIndex, length-life_entry, life_entry-back, life_leaf_in, life_index_in, life_node_in, life_node_page};
ghost use Rattle.page_layout.specs.LifeNodeLaws.{life_node_in_use, life_node_in-page};
ghost use Rattle.page_layout.specs.Dated.{life_precedes};

use crate::counted::{read_entries, write_counted};
use crate::dated::{ByLife, life_precedes};
use crate::entry::{Entry, Own, are_in_order};
use crate::front::{put_u32, put_u64};
use crate::life_view::is_node;
use crate::number::{bytes_of, number_u32, number_u64, skip};
use crate::spelled::{Spelled, TreePage};
use arrayvec::ArrayVec;
use bw_types::Dated;
use ports::Page;

const KIND: u8 = 10;

/// An entry of an index node: the lowest id and life that may stand under it, and its child.
#[derive(Clone, Copy, Debug, Default, PartialEq, Eq)]
pub struct LifeEntry {
    pub low_id: u64,
    pub low_life: u32,
    pub child: u64,
}

/// A node of an object table by id and life; a leaf has level 1.
///
/// A page spells a leaf of 1 to 14 objects, which ascend strictly by id and then life, or an index node
/// of a level of 2 to 16 with 1 to 200 entries, whose lows ascend so too and whose children are at least
/// 3. Of an object each low end is at most the high one, and that at most 4294967294; its life and the
/// version of its add are at least 1; where it is not withdrawn the withdrawal is all 0, and else it was
/// withdrawn in a later version than it was added in. In memory there is room for one more of each.
#[derive(Debug, PartialEq, Drop)]
pub enum LifeNode {
    /// The objects themselves.
    Leaf {
        objects: ArrayVec<Dated, 15>,
    },
    /// Where they stand.
    Index {
        level: u8,
        entries: ArrayVec<LifeEntry, 201>,
    },
}

impl Entry<Own> for LifeEntry {
    const SIZE: usize = 20;

    ghost SIZE = { 20 };

    ghost spelling = { life_entry_bytes };

    ghost value_at = { life_entry_at };

    ghost is_typed = { IsLifeEntryTyped };

    ghost keeps = { λ _ e. 3 ≤ e.child };

    ghost precedes = { λ e next. IsTrue (life_precedes e.low_id e.low_life next.low_id next.low_life) };

    fn put(&self, page: &mut Page, place: usize) {
        put_u64(page, place, self.low_id);
        put_u32(page, place + 8, self.low_life);
        put_u64(page, place + 12, self.child);
    }

    fn get(bytes: &[u8]) -> LifeEntry {
        LifeEntry {
            low_id: number_u64(bytes),
            low_life: number_u32(skip(bytes, 8)),
            child: number_u64(skip(bytes, 12)),
        }
    }

    fn keeps(&self, _level: u8) -> bool {
        self.child >= 3
    }

    fn precedes(&self, next: &LifeEntry) -> bool {
        life_precedes(self.low_id, self.low_life, next.low_id, next.low_life)
    }

    ghost has_size = { λ x _. length-life_entry x };

    ghost reads_back = { λ _ x rest typed _. life_entry-back x rest typed };
}

fn is_leaf(objects: &[Dated]) -> bool
    ensures { IsTrue result ↔ IsLifeLeaf 14 objects.now }
{
    let count = objects.len();
    1 <= count && count <= 14 && are_in_order::<ByLife, Dated>(1, objects)
}

fn is_index(level: u8, entries: &[LifeEntry]) -> bool
    ensures { IsTrue result ↔ IsLifeIndex 200 level entries.now }
{
    let count = entries.len();
    (2 <= level && level <= 16)
        && (1 <= count && count <= 200)
        && are_in_order::<Own, LifeEntry>(level, entries)
}

fn guess_leaf(page: &Page) -> LifeNode
    ensures value { result ≡ life_leaf_in page.now }
    ensures typed { IsTyped result }
{
    LifeNode::Leaf {
        objects: read_entries::<ByLife, Dated, 15>(page, 14),
    }
}

fn guess_index(page: &Page) -> LifeNode
    ensures value { result ≡ life_index_in page.now }
    ensures typed { IsTyped result }
{
    LifeNode::Index {
        level: page[1],
        entries: read_entries::<Own, LifeEntry, 201>(page, 200),
    }
}

impl Spelled for LifeNode {
    ghost keeps = { IsLifeNode };

    ghost is_typed = { IsTyped };

    ghost spelling = { life_node_page };

    ghost value_in = { life_node_in };

    fn write(&self, page: &mut Page) {
        match self {
            LifeNode::Leaf { objects } => {
                write_counted::<ByLife, Dated>(page, KIND, 1, 0, 0, objects.as_slice());
            }
            LifeNode::Index { level, entries } => {
                write_counted::<Own, LifeEntry>(page, KIND, *level, 0, 0, entries.as_slice());
            }
        }
    }

    fn guess(page: &Page) -> LifeNode {
        if page[1] == 1 {
            guess_leaf(page)
        } else {
            guess_index(page)
        }
    }

    fn keeps_rules(&self) -> bool {
        match self {
            LifeNode::Leaf { objects } => is_leaf(objects.as_slice()),
            LifeNode::Index { level, entries } => is_index(*level, entries.as_slice()),
        }
    }

    fn is_spelled(page: &Page) -> bool {
        let _bytes = bytes_of(page);
        is_node(page)
    }

    ghost reads_back = { life_node_in-page };
}

impl TreePage for LifeNode {
    ghost level_in = { life_level };

    fn level(&self) -> u8 {
        match self {
            LifeNode::Leaf { objects: _ } => 1,
            LifeNode::Index { level, entries: _ } => *level,
        }
    }

    fn level_on(page: &Page) -> u8 {
        page[1]
    }

    ghost in_use = { life_node_in_use };
}

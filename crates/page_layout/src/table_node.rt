//! Nodes of object tables by id alone.
ghost use Rattle.std.specs.Prelude.{◌≡◌, ◌<◌, ◌≤◌, ◌↔◌, IsTrue};
ghost use Rattle.page_layout.specs.TableNode.{table_level, IsTableNode, IsTyped, table_entry_bytes, table_entry_at, IsTableEntryTyped, IsTableLeaf, IsTableIndex, length-table_entry, table_entry-back, table_leaf_in, table_index_in, table_node_in, table_node_page};
ghost use Rattle.page_layout.specs.TableNodeLaws.{table_node_in_use, table_node_in-page};

use crate::counted::{read_entries, write_counted};
use crate::dated::ById;
use crate::entry::{Entry, Own, are_in_order};
use crate::front::put_u64;
use crate::number::{bytes_of, number_u64, skip};
use crate::spelled::{Spelled, TreePage};
use crate::table_view::is_node;
use arrayvec::ArrayVec;
use bw_types::Dated;
use ports::Page;

const KIND: u8 = 6;

/// An entry of an index node: the lowest id that may stand under it, and its child.
#[derive(Clone, Copy, Debug, Default, PartialEq, Eq)]
pub struct TableEntry {
    pub low: u64,
    pub child: u64,
}

/// A node of an object table by id alone, the earlier form, in which each id has one life; a leaf has
/// level 1.
///
/// A page spells a leaf of 1 to 15 objects, whose ids ascend strictly, or an index node of a level of 2
/// to 16 with 1 to 200 entries, whose lows ascend so too and whose children are at least 3. Of an object
/// each low end is at most the high one, and that at most 4294967294; its life is 1 and the version of
/// its add at least 1; where it is not withdrawn the withdrawal is all 0, and else it was withdrawn in a
/// later version than it was added in. In memory there is room for one more of each.
#[derive(Debug, PartialEq, Drop)]
pub enum TableNode {
    /// The objects themselves.
    Leaf {
        objects: ArrayVec<Dated, 16>,
    },
    /// Where they stand.
    Index {
        level: u8,
        entries: ArrayVec<TableEntry, 201>,
    },
}

impl Entry<Own> for TableEntry {
    const SIZE: usize = 16;

    ghost SIZE = { 16 };

    ghost spelling = { table_entry_bytes };

    ghost value_at = { table_entry_at };

    ghost is_typed = { IsTableEntryTyped };

    ghost keeps = { λ _ e. 3 ≤ e.child };

    ghost precedes = { λ e next. e.low < next.low };

    fn put(&self, page: &mut Page, place: usize) {
        put_u64(page, place, self.low);
        put_u64(page, place + 8, self.child);
    }

    fn get(bytes: &[u8]) -> TableEntry {
        TableEntry {
            low: number_u64(bytes),
            child: number_u64(skip(bytes, 8)),
        }
    }

    fn keeps(&self, _level: u8) -> bool {
        self.child >= 3
    }

    fn precedes(&self, next: &TableEntry) -> bool {
        self.low < next.low
    }

    ghost has_size = { λ x _. length-table_entry x };

    ghost reads_back = { λ _ x rest typed _. table_entry-back x rest typed };
}

fn is_leaf(objects: &[Dated]) -> bool
    ensures { IsTrue result ↔ IsTableLeaf 15 objects.now }
{
    let count = objects.len();
    1 <= count && count <= 15 && are_in_order::<ById, Dated>(1, objects)
}

fn is_index(level: u8, entries: &[TableEntry]) -> bool
    ensures { IsTrue result ↔ IsTableIndex 200 level entries.now }
{
    let count = entries.len();
    (2 <= level && level <= 16)
        && (1 <= count && count <= 200)
        && are_in_order::<Own, TableEntry>(level, entries)
}

fn guess_leaf(page: &Page) -> TableNode
    ensures value { result ≡ table_leaf_in page.now }
    ensures typed { IsTyped result }
{
    TableNode::Leaf {
        objects: read_entries::<ById, Dated, 16>(page, 15),
    }
}

fn guess_index(page: &Page) -> TableNode
    ensures value { result ≡ table_index_in page.now }
    ensures typed { IsTyped result }
{
    TableNode::Index {
        level: page[1],
        entries: read_entries::<Own, TableEntry, 201>(page, 200),
    }
}

impl Spelled for TableNode {
    ghost keeps = { IsTableNode };

    ghost is_typed = { IsTyped };

    ghost spelling = { table_node_page };

    ghost value_in = { table_node_in };

    fn write(&self, page: &mut Page) {
        match self {
            TableNode::Leaf { objects } => {
                write_counted::<ById, Dated>(page, KIND, 1, 0, 0, objects.as_slice());
            }
            TableNode::Index { level, entries } => {
                write_counted::<Own, TableEntry>(page, KIND, *level, 0, 0, entries.as_slice());
            }
        }
    }

    fn guess(page: &Page) -> TableNode {
        if page[1] == 1 {
            guess_leaf(page)
        } else {
            guess_index(page)
        }
    }

    fn keeps_rules(&self) -> bool {
        match self {
            TableNode::Leaf { objects } => is_leaf(objects.as_slice()),
            TableNode::Index { level, entries } => is_index(*level, entries.as_slice()),
        }
    }

    fn is_spelled(page: &Page) -> bool {
        let _bytes = bytes_of(page);
        is_node(page)
    }

    ghost reads_back = { table_node_in-page };
}

impl TreePage for TableNode {
    ghost level_in = { table_level };

    fn level(&self) -> u8 {
        match self {
            TableNode::Leaf { objects: _ } => 1,
            TableNode::Index { level, entries: _ } => *level,
        }
    }

    fn level_on(page: &Page) -> u8 {
        page[1]
    }

    ghost in_use = { table_node_in_use };
}

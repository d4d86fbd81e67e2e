//! Nodes of object tables by id alone, read in place.
ghost use Rattle.std.specs.Prelude.{◌≡◌, ◌<◌, ◌↔◌, IsTrue, length, get_or};
ghost use Rattle.bw_types.specs.declared.dated.Dated.{Dated};
ghost use Rattle.page_layout.specs.TableNode.{IsTableNode, index_entries, leaf_objects, table_node_in, table_node_page};
ghost use Rattle.page_layout.specs.declared.table_node.TableEntry.{TableEntry};

use crate::counted::{entry_in, read_count, spells_row};
use crate::dated::ById;
use crate::entry::Own;
use crate::number::{after, number_u64};
use crate::table_node::{TableEntry, TableNode};
use crate::view::View;
use bw_types::Dated;
use ports::Page;

const KIND: u8 = 6;

const MOST_OBJECTS: usize = 15;

const MOST_ENTRIES: usize = 200;

impl<'a> View<'a, TableNode> {
    /// How many objects there are; an index node has none.
    pub fn object_count(&self) -> usize
        ensures { result ≡ length (leaf_objects self.now) }
    {
        if self.page[1] != 1 {
            return 0;
        }
        usize::from(read_count(self.page)).min(MOST_OBJECTS)
    }

    /// The object at this place of a leaf.
    pub fn object(&self, place: usize) -> Dated
        requires { place < length (leaf_objects self.now) }
        ensures { (d : Dated) → result ≡ get_or (leaf_objects self.now) place d }
    {
        entry_in::<ById, Dated>(self.page, place)
    }

    /// The id of the object at this place of a leaf.
    pub fn object_id(&self, place: usize) -> u64
        requires { place < length (leaf_objects self.now) }
        ensures { (d : Dated) → result ≡ (get_or (leaf_objects self.now) place d).object.id }
    {
        number_u64(after(self.page, 16 + place * 272))
    }

    /// How many entries there are; a leaf has none.
    pub fn entry_count(&self) -> usize
        ensures { result ≡ length (index_entries self.now) }
    {
        if self.page[1] == 1 {
            return 0;
        }
        usize::from(read_count(self.page)).min(MOST_ENTRIES)
    }

    /// The entry at this place of an index node.
    pub fn entry(&self, place: usize) -> TableEntry
        requires { place < length (index_entries self.now) }
        ensures { (d : TableEntry) → result ≡ get_or (index_entries self.now) place d }
    {
        entry_in::<Own, TableEntry>(self.page, place)
    }
}

/// Whether the page spells a node.
pub(crate) fn is_node(page: &Page) -> bool
    ensures { IsTrue result ↔ (IsTableNode (table_node_in page.now) × (page.now ≡ table_node_page (table_node_in page.now))) }
{
    if page[1] == 1 {
        return spells_row::<ById, Dated>(page, KIND, 1, 1, MOST_OBJECTS);
    }
    spells_row::<Own, TableEntry>(page, KIND, 2, 16, MOST_ENTRIES)
}

//! Nodes of object tables by id and life, read in place.
ghost use Rattle.std.specs.Prelude.{◌≡◌, ◌<◌, ◌↔◌, IsTrue, length, get_or};
ghost use Rattle.bw_types.specs.declared.dated.Dated.{Dated};
ghost use Rattle.page_layout.specs.LifeNode.{IsLifeNode, index_entries, leaf_objects, life_node_in, life_node_page};
ghost use Rattle.page_layout.specs.declared.life_node.LifeEntry.{LifeEntry};

use crate::counted::{entry_in, read_count, spells_row};
use crate::dated::ByLife;
use crate::entry::Own;
use crate::life_node::{LifeEntry, LifeNode};
use crate::number::{after, number_u32, number_u64};
use crate::view::View;
use bw_types::Dated;
use ports::Page;

const KIND: u8 = 10;

const MOST_OBJECTS: usize = 14;

const MOST_ENTRIES: usize = 200;

impl<'a> View<'a, LifeNode> {
    /// How many objects there are; an index node has none.
    pub fn object_count(&self) -> usize
        ensures { result ≡ length (leaf_objects self.now) }
    {
        if self.page[1] != 1 {
            return 0;
        }
        usize::from(read_count(self.page)).min(MOST_OBJECTS)
    }

    /// The object at this place of a leaf.
    pub fn object(&self, place: usize) -> Dated
        requires { place < length (leaf_objects self.now) }
        ensures { (d : Dated) → result ≡ get_or (leaf_objects self.now) place d }
    {
        entry_in::<ByLife, Dated>(self.page, place)
    }

    /// The id of the object at this place of a leaf.
    pub fn object_id(&self, place: usize) -> u64
        requires { place < length (leaf_objects self.now) }
        ensures { (d : Dated) → result ≡ (get_or (leaf_objects self.now) place d).object.id }
    {
        number_u64(after(self.page, 16 + place * 276))
    }

    /// The life of the object at this place of a leaf.
    pub fn object_life(&self, place: usize) -> u32
        requires { place < length (leaf_objects self.now) }
        ensures { (d : Dated) → result ≡ (get_or (leaf_objects self.now) place d).life }
    {
        number_u32(after(self.page, 16 + place * 276 + 272))
    }

    /// How many entries there are; a leaf has none.
    pub fn entry_count(&self) -> usize
        ensures { result ≡ length (index_entries self.now) }
    {
        if self.page[1] == 1 {
            return 0;
        }
        usize::from(read_count(self.page)).min(MOST_ENTRIES)
    }

    /// The entry at this place of an index node.
    pub fn entry(&self, place: usize) -> LifeEntry
        requires { place < length (index_entries self.now) }
        ensures { (d : LifeEntry) → result ≡ get_or (index_entries self.now) place d }
    {
        entry_in::<Own, LifeEntry>(self.page, place)
    }
}

/// Whether the page spells a node.
pub(crate) fn is_node(page: &Page) -> bool
    ensures { IsTrue result ↔ (IsLifeNode (life_node_in page.now) × (page.now ≡ life_node_page (life_node_in page.now))) }
{
    if page[1] == 1 {
        return spells_row::<ByLife, Dated>(page, KIND, 1, 1, MOST_OBJECTS);
    }
    spells_row::<Own, LifeEntry>(page, KIND, 2, 16, MOST_ENTRIES)
}

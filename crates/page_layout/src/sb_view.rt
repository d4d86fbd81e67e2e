//! Nodes of the trees over versions, read in place.
ghost use Rattle.std.specs.Prelude.{◌≡◌, ◌<◌, ◌↔◌, IsTrue, length, get_or};
ghost use Rattle.page_layout.specs.SbNode.{IsSbNode, sb_node_in, sb_node_page};
ghost use Rattle.page_layout.specs.declared.sb_node.SbEntry.{SbEntry};

use crate::counted::{entry_in, read_count, spells_row};
use crate::entry::Own;
use crate::sb_node::{SbEntry, SbNode};
use crate::view::View;
use ports::Page;

const KIND: u8 = 2;

const MOST: usize = 64;

impl<'a> View<'a, SbNode> {
    /// How many entries there are.
    pub fn len(&self) -> usize
        ensures { result ≡ length self.now.entries.items }
    {
        usize::from(read_count(self.page)).min(MOST)
    }

    /// The entry at this place.
    pub fn entry(&self, place: usize) -> SbEntry
        requires { place < length self.now.entries.items }
        ensures { (d : SbEntry) → result ≡ get_or self.now.entries.items place d }
    {
        entry_in::<Own, SbEntry>(self.page, place)
    }
}

/// Whether the page spells a node.
pub(crate) fn is_node(page: &Page) -> bool
    ensures { IsTrue result ↔ (IsSbNode (sb_node_in page.now) × (page.now ≡ sb_node_page (sb_node_in page.now))) }
{
    spells_row::<Own, SbEntry>(page, KIND, 1, 16, MOST)
}

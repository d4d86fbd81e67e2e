//! How a node that is full is closed.
ghost use Rattle.std.specs.Prelude.{◌≡◌, ◌≤◌, ◌<◌, length};
ghost use Rattle.std.specs.List.{All};
ghost use Rattle.page_layout.specs.MvNode.{IsMvEntryTyped};
ghost use Rattle.mv_pages.specs.Alive.{AreEntriesOf, IsChangeable};
ghost use Rattle.mv_pages.specs.Copies.{AreTyped, IsCopied, copies, first_half, second_half, with_entries};

use crate::edit::{Entries, new_entry};
use crate::find::is_alive;
use arrayvec::ArrayVec;
use page_layout::{MvEntry, MvNode, split_off};

// How many entries go to one node alone.
const MOST_IN_ONE: usize = 48;

/// What takes a node's part from a version on: one node, or one below a cut and one from there on.
#[derive(Drop)]
pub enum Copied {
    One(MvNode),
    Two(MvNode, u64, MvNode),
}

/// Copies what is alive in a node at a version, so that the node may stay as it is for the past.
///
/// One copy has all of it where that is at most 48 entries; else the first half of the entries, rounded
/// down, is for the keys below the cut, and the rest for those from there on. The level, the place and
/// the page before are the node's.
pub fn close_and_copy(node: &MvNode, version: u32) -> Copied
    requires entries { AreEntriesOf node.now.level node.now.entries.items }
    requires changeable { IsChangeable version node.now.entries.items }
    ensures copied { IsCopied node.now version result }
    ensures typed { All IsMvEntryTyped node.now.entries.items → AreTyped result }
{
    let mut copies = copies(node.entries.as_slice(), version);
    if copies.len() <= MOST_IN_ONE {
        return Copied::One(with_entries(node, copies));
    }
    let second = halve(&mut copies);
    let cut = second.as_slice()[0].low;
    Copied::Two(with_entries(node, copies), cut, with_entries(node, second))
}

// The entries that are alive at the version, anew from it on.
fn copies(entries: &[MvEntry], version: u32) -> Entries
    requires { length entries.now ≤ 100 }
    ensures items { result.items ≡ copies entries.now version }
    ensures few { length result.items ≤ 100 }
{
    let mut copies = ArrayVec::new();
    for e in entries {
        if is_alive(e, version) {
            copies.push(new_entry(e.low, version, e.value, e.child));
        }
    }
    copies
}

fn with_entries(node: &MvNode, entries: Entries) -> MvNode
    ensures { result ≡ with_entries node.now entries.items }
{
    MvNode {
        level: node.level,
        place: node.place,
        before: node.before,
        entries,
    }
}

// Takes the second half out of the entries, with the values of the first half on top of its first one.
fn halve(entries: &mut Entries) -> Entries
    requires { (48 < length entries.old.items) × (length entries.old.items ≤ 100) }
    ensures first { entries.new.items ≡ first_half entries.old.items }
    ensures second { result.items ≡ second_half entries.old.items }
    ensures some { 0 < length result.items }
{
    let half = entries.len() / 2;
    split_off(entries, half)
}

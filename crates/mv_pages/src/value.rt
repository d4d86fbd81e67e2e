//! What a node says at a key and a version.
ghost use Rattle.std.specs.Prelude.{◌≡◌};
ghost use Rattle.mv_pages.specs.Alive.{node_value, child_of, path_child};

use crate::find::reaches;
use page_layout::{MvEntry, MvNode};

/// The value of a node at a key and a version, without what stands below it: the total of its entries
/// that are alive at the version and begin at or below the key, modulo `2^128`.
pub fn value_at(node: &MvNode, key: u64, version: u32) -> u128
    ensures { result ≡ node_value node.now key version }
{
    let mut total: u128 = 0;
    for e in node.entries.as_slice() {
        if reaches(e, key, version) {
            total = total.wrapping_add(e.value);
        }
    }
    total
}

/// The child to which a node leads at a key and a version: that of the last entry that is alive at the
/// version and begins at or below the key. It is `None` exactly where there is no such entry, or the
/// node is a leaf.
pub fn child_at(node: &MvNode, key: u64, version: u32) -> Option<u64>
    ensures { result ≡ child_of node.now key version }
{
    if node.level == 1 {
        return None;
    }
    path_child(node.entries.as_slice(), key, version)
}

// The child of the last entry that reaches the key at the version.
fn path_child(entries: &[MvEntry], key: u64, version: u32) -> Option<u64>
    ensures { result ≡ path_child entries.now key version }
{
    let mut child = None;
    for e in entries {
        if reaches(e, key, version) {
            child = Some(e.child);
        }
    }
    child
}

//! Whether bytes are the spelling of what they may spell: those that no field names are 0.
ghost use Rattle.std.specs.Prelude.{◌≡◌, ◌+◌, ◌*◌, ◌≤◌, ◌↔◌, IsTrue, length, take, drop};
ghost use Rattle.page_layout.specs.Exact.{AreZerosAt, EachExact, IsExact};
ghost use Rattle.page_layout.specs.TreeValue.{tree_at, tree_bytes};

use crate::number::{are_bytes, skip};
use crate::zero_bytes::are_zeros;

// The bytes at a place.
fn part(bytes: &[u8], place: usize, many: usize) -> &[u8]
    requires { place + many ≤ length bytes.now }
    ensures value { result.now ≡ take many (drop place bytes.now) }
    ensures len { length result.now ≡ many }
{
    let (first, _) = skip(bytes, place).split_at(many);
    first
}

fn are_zeros_at(bytes: &[u8], place: usize, many: usize) -> bool
    requires { place + many ≤ length bytes.now }
    ensures { IsTrue result ↔ AreZerosAt place many bytes.now }
{
    are_zeros(part(bytes, place, many))
}

/// Whether a tree is the spelling of what it may spell.
pub(crate) fn is_tree_exact(bytes: &[u8]) -> bool
    requires { 28 ≤ length bytes.now }
    ensures { IsTrue result ↔ IsExact tree_bytes tree_at 28 bytes.now }
{
    are_bytes(bytes);
    are_zeros_at(bytes, 9, 3)
}

/// Whether so many trees in a row are the spelling of what they may spell.
pub(crate) fn are_roots_exact(count: usize, bytes: &[u8]) -> bool
    requires { count * 28 ≤ length bytes.now }
    ensures { IsTrue result ↔ EachExact tree_bytes tree_at 28 count bytes.now }
{
    if count == 0 {
        return true;
    }
    if !is_tree_exact(bytes) {
        return false;
    }
    are_roots_exact(count - 1, skip(bytes, 28))
}

//! Entries of one size, and rows of them.
ghost use Rattle.std.specs.Prelude.{◌≡◌, ℕ, ◌+◌, ◌*◌, ◌<◌, ◌≤◌, ◌^◌, ◌++◌, ◌↔◌, List, length, take, IsTrue};
ghost use Rattle.std.specs.List.{flat_map, All, AllAdjacentBelow};
ghost use Rattle.arrayvec.specs.ArrayVec.{array_vec_len};
ghost use Rattle.page_layout.specs.Numbers.{spelled, number_in, length-spelled, number_in-spelled};
ghost use Rattle.page_layout.specs.Entries.{entries_at, AreInOrder};

use crate::front::put_u64;
use crate::number::{number_u64, skip};
use arrayvec::ArrayVec;
use ports::Page;

/// The form of entries that are spelled in one way alone.
pub(crate) struct Own;

/// A value that fills `SIZE` bytes of a page.
pub(crate) trait Entry<F>: Copy + Default {
    const SIZE: usize;

    ghost SIZE: { ℕ };

    ghost spelling: { Self → List ℕ };

    ghost value_at: { List ℕ → Self };

    // The numbers are those of their types.
    ghost is_typed: { Self → Type 0 };

    // The rule of one entry in a node of this level.
    ghost keeps: { ℕ → Self → Type 0 };

    // The rule of an entry and the next one.
    ghost precedes: { Self → Self → Type 0 };

    /// Writes the value's bytes into a page at a place. What stands before it stays.
    fn put(&self, page: &mut Page, place: usize)
        requires { place + SIZE ≤ 4096 }
        ensures { take (place + SIZE) page.new ≡ take place page.old ++ spelling self.now };

    /// The value that the first bytes may spell.
    fn get(bytes: &[u8]) -> Self
        requires { SIZE ≤ length bytes.now }
        ensures value { result ≡ value_at bytes.now }
        ensures typed { is_typed result };

    /// Whether the entry keeps its rule in a node of this level.
    fn keeps(&self, level: u8) -> bool
        ensures { IsTrue result ↔ keeps level self.now };

    /// Whether the entry may stand before the next one.
    fn precedes(&self, next: &Self) -> bool
        ensures { IsTrue result ↔ precedes self.now next.now };

    ghost has_size: { (x : Self) → is_typed x → length (spelling x) ≡ SIZE };

    ghost reads_back: { (level : ℕ) (x : Self) (rest : List ℕ) → is_typed x → keeps level x → value_at (spelling x ++ rest) ≡ x };
}

/// Writes the entries in a row into a page, from a place on.
pub(crate) fn put_all<F, T: Entry<F>>(page: &mut Page, place: usize, entries: &[T])
    requires { place + length entries.now * T.SIZE ≤ 4096 }
    ensures { take (place + length entries.now * T.SIZE) page.new ≡ take place page.old ++ flat_map T.spelling entries.now }
{
    let mut next = place;
    for entry in entries {
        entry.put(page, next);
        next += T::SIZE;
    }
}

/// As many entries as the count says.
pub(crate) fn get_all<F, T: Entry<F>, const MOST: usize>(
    count: usize,
    bytes: &[u8],
) -> ArrayVec<T, MOST>
    requires few { count ≤ MOST }
    requires room { count * T.SIZE ≤ length bytes.now }
    ensures items { result.items ≡ entries_at T.value_at T.SIZE count bytes.now }
    ensures typed { All T.is_typed result.items }
    ensures len { array_vec_len result ≡ count }
{
    let mut entries = ArrayVec::new();
    let mut rest = bytes;
    for _ in 0..count {
        entries.push(T::get(rest));
        rest = skip(rest, T::SIZE);
    }
    entries
}

/// Whether each entry keeps its rule in a node of this level.
pub(crate) fn each_keeps<F, T: Entry<F>>(level: u8, entries: &[T]) -> bool
    ensures { IsTrue result ↔ All (T.keeps level) entries.now }
{
    for entry in entries {
        if !entry.keeps(level) {
            return false;
        }
    }
    true
}

fn each_precedes<F, T: Entry<F>>(entries: &[T]) -> bool
    ensures { IsTrue result ↔ AllAdjacentBelow T.precedes entries.now (length entries.now) }
{
    for i in 1..entries.len() {
        if !entries[i - 1].precedes(&entries[i]) {
            return false;
        }
    }
    true
}

/// Whether each entry keeps its rule in a node of this level, and precedes the next one.
pub(crate) fn are_in_order<F, T: Entry<F>>(level: u8, entries: &[T]) -> bool
    ensures { IsTrue result ↔ AreInOrder (T.keeps level) T.precedes entries.now }
{
    each_keeps(level, entries) && each_precedes(entries)
}

/// Whether each of the first `count` entries of these bytes keeps its rule in a node of this level, and
/// precedes the next one.
pub(crate) fn stand_in_order<F, T: Entry<F>>(level: u8, count: usize, bytes: &[u8]) -> bool
    requires room { count * T.SIZE ≤ length bytes.now }
    ensures { IsTrue result ↔ AreInOrder (T.keeps level) T.precedes (entries_at T.value_at T.SIZE count bytes.now) }
{
    if count == 0 {
        return true;
    }
    let mut last = T::get(bytes);
    if !last.keeps(level) {
        return false;
    }
    let mut rest = skip(bytes, T::SIZE);
    for _ in 1..count {
        let next = T::get(rest);
        if !last.precedes(&next) {
            return false;
        }
        if !next.keeps(level) {
            return false;
        }
        last = next;
        rest = skip(rest, T::SIZE);
    }
    true
}

impl Entry<Own> for u64 {
    const SIZE: usize = 8;

    ghost SIZE = { 8 };

    ghost spelling = { spelled 8 };

    ghost value_at = { number_in 8 };

    ghost is_typed = { λ home. home < 2 ^ 64 };

    ghost keeps = { λ _ home. 1 ≤ home };

    ghost precedes = { λ home next. home < next };

    fn put(&self, page: &mut Page, place: usize) {
        put_u64(page, place, *self);
    }

    fn get(bytes: &[u8]) -> u64 {
        number_u64(bytes)
    }

    fn keeps(&self, _level: u8) -> bool {
        *self >= 1
    }

    fn precedes(&self, next: &u64) -> bool {
        *self < *next
    }

    ghost has_size = { λ x _. length-spelled 8 x };

    ghost reads_back = { λ _ x rest typed _. number_in-spelled 8 x rest typed };
}

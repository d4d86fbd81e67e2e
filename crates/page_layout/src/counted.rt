//! Pages of a kind with a level, a count, a word, a double word and as many entries.
ghost use Rattle.std.specs.Prelude.{◌≡◌, ◌+◌, ◌*◌, ◌<◌, ◌≤◌, ◌^◌, ◌↔◌, IsTrue, length, take, drop, slice_index};
ghost use Rattle.std.specs.List.{All};
ghost use Rattle.page_layout.specs.Numbers.{number_in};
ghost use Rattle.page_layout.specs.Respelled.{Respells};
ghost use Rattle.page_layout.specs.TestedRow.{SpellsRow};
ghost use Rattle.page_layout.specs.Counted.{front, counted_page, body_of, word_of, double_of, entries_of};

use crate::entry::{Entry, Own, get_all, put_all, stand_in_order};
use crate::front::{finish, put_u8, put_u16, put_u32, put_u64};
use crate::number::{after, bytes_of, number_u16, number_u32, number_u64};
use crate::zero_bytes::are_zeros;
use arrayvec::ArrayVec;
use ports::Page;

/// Writes the common front of 16 bytes: what bytes 0, 1, 2 to 3, 4 to 7 and 8 to 15 spell.
pub(crate) fn start(page: &mut Page, kind: u8, level: u8, count: u16, word: u32, double: u64)
    ensures { take 16 page.new ≡ front kind level count word double }
{
    put_u8(page, 0, kind);
    put_u8(page, 1, level);
    put_u16(page, 2, count);
    put_u32(page, 4, word);
    put_u64(page, 8, double);
}

/// Makes the page the one of this front and these entries.
pub(crate) fn write_counted<F, T: Entry<F>>(
    page: &mut Page,
    kind: u8,
    level: u8,
    word: u32,
    double: u64,
    entries: &[T],
)
    requires count { length entries.now < 2 ^ 16 }
    requires room { 16 + length entries.now * T.SIZE ≤ 4096 }
    ensures { page.new ≡ counted_page T.spelling kind level word double entries.now }
{
    start(page, kind, level, entries.len() as u16, word, double);
    put_all(page, 16, entries);
    finish(page, 16 + entries.len() * T::SIZE);
}

/// The entries that a page may spell, at most this many.
pub(crate) fn read_entries<F, T: Entry<F>, const CAP: usize>(
    page: &Page,
    most: usize,
) -> ArrayVec<T, CAP>
    requires few { most ≤ CAP }
    requires room { 16 + most * T.SIZE ≤ 4096 }
    ensures items { result.items ≡ entries_of T.value_at T.SIZE most page.now }
    ensures typed { All T.is_typed result.items }
{
    let count = usize::from(read_count(page));
    get_all(count.min(most), read_body(page))
}

/// The number in bytes 2 to 3.
pub(crate) fn read_count(page: &Page) -> u16
    ensures { result ≡ number_in 2 (drop 2 page.now) }
{
    number_u16(after(page, 2))
}

/// The bytes that follow the front.
pub(crate) fn read_body(page: &Page) -> &[u8]
    ensures value { result.now ≡ body_of page.now }
    ensures len { length result.now ≡ 4080 }
{
    after(page, 16)
}

/// The number in bytes 4 to 7.
pub(crate) fn read_word(page: &Page) -> u32
    ensures { result ≡ word_of page.now }
{
    number_u32(after(page, 4))
}

/// The number in bytes 8 to 15.
pub(crate) fn read_double(page: &Page) -> u64
    ensures { result ≡ double_of page.now }
{
    number_u64(after(page, 8))
}

/// Whether the page is the one of this kind, word and double word, and of the level and entries that are
/// read of it: no more than this many, of a type that has no unnamed bytes.
pub(crate) fn is_counted<F, T: Entry<F>>(
    page: &Page,
    kind: u8,
    word: u32,
    double: u64,
    most: usize,
) -> bool
    requires respells { Respells T.spelling T.value_at T.SIZE }
    requires count { most < 2 ^ 16 }
    requires room { 16 + most * T.SIZE ≤ 4096 }
    ensures { IsTrue result ↔ (page.now ≡ counted_page T.spelling kind (slice_index page.now 1) word double (entries_of T.value_at T.SIZE most page.now)) }
{
    let _bytes = bytes_of(page);
    let count = usize::from(read_count(page));
    if count > most {
        return false;
    }
    if page[0] != kind {
        return false;
    }
    if read_word(page) != word {
        return false;
    }
    if read_double(page) != double {
        return false;
    }
    are_zeros(after(page, 16 + count * T::SIZE))
}

/// Whether the page spells some entries and at most so many at a level within these bounds, and nothing
/// else: each keeps its rule, and they are in order.
pub(crate) fn spells_row<F, T: Entry<F>>(
    page: &Page,
    kind: u8,
    low: u8,
    high: u8,
    most: usize,
) -> bool
    requires respells { Respells T.spelling T.value_at T.SIZE }
    requires count { most < 2 ^ 16 }
    requires room { 16 + most * T.SIZE ≤ 4096 }
    ensures { IsTrue result ↔ SpellsRow T.spelling T.value_at T.SIZE T.keeps T.precedes kind low high most page.now }
{
    let level = page[1];
    let count = usize::from(read_count(page)).min(most);
    if level < low || level > high {
        return false;
    }
    if count < 1 {
        return false;
    }
    if !is_counted::<F, T>(page, kind, 0, 0, most) {
        return false;
    }
    stand_in_order::<F, T>(level, count, read_body(page))
}

/// The entry at this place among those of a page.
pub(crate) fn entry_in<F, T: Entry<F>>(page: &Page, place: usize) -> T
    requires { 16 + (place * T.SIZE + T.SIZE) ≤ 4096 }
    ensures { result ≡ T.value_at (drop (place * T.SIZE) (body_of page.now)) }
{
    T::get(after(page, 16 + place * T::SIZE))
}

//! Numbers and bytes written into a page, one after another from its beginning on.
ghost use Rattle.std.specs.Prelude.{◌≡◌, ◌+◌, ◌≤◌, ◌++◌, ◌∷◌, [], length, take};
ghost use Rattle.page_layout.specs.Numbers.{spelled, padded};

use byteorder::{BigEndian, ByteOrder};
use ports::Page;

/// Writes these bytes at a place. What stands before it stays.
pub(crate) fn put(page: &mut Page, place: usize, bytes: &[u8])
    requires { place + length bytes.now ≤ 4096 }
    ensures { take (place + length bytes.now) page.new ≡ take place page.old ++ bytes.now }
{
    page[place..place + bytes.len()].copy_from_slice(bytes);
}

/// Writes a byte.
pub(crate) fn put_u8(page: &mut Page, place: usize, number: u8)
    requires { place + 1 ≤ 4096 }
    ensures { take (place + 1) page.new ≡ take place page.old ++ number ∷ [] }
{
    page[place] = number;
}

/// Writes two bytes.
#[tactic(auto, unfolding(crate::specs::Numbers::spelled))]
pub(crate) fn put_u16(page: &mut Page, place: usize, number: u16)
    requires { place + 2 ≤ 4096 }
    ensures { take (place + 2) page.new ≡ take place page.old ++ spelled 2 number }
{
    let mut bytes = [0; 2];
    BigEndian::write_u16(&mut bytes, number);
    put(page, place, &bytes);
}

/// Writes four bytes.
#[tactic(auto, unfolding(crate::specs::Numbers::spelled))]
pub(crate) fn put_u32(page: &mut Page, place: usize, number: u32)
    requires { place + 4 ≤ 4096 }
    ensures { take (place + 4) page.new ≡ take place page.old ++ spelled 4 number }
{
    let mut bytes = [0; 4];
    BigEndian::write_u32(&mut bytes, number);
    put(page, place, &bytes);
}

/// Writes eight bytes.
#[tactic(auto, unfolding(crate::specs::Numbers::spelled))]
pub(crate) fn put_u64(page: &mut Page, place: usize, number: u64)
    requires { place + 8 ≤ 4096 }
    ensures { take (place + 8) page.new ≡ take place page.old ++ spelled 8 number }
{
    let mut bytes = [0; 8];
    BigEndian::write_u64(&mut bytes, number);
    put(page, place, &bytes);
}

/// Writes sixteen bytes.
#[tactic(auto, unfolding(crate::specs::Numbers::spelled))]
pub(crate) fn put_u128(page: &mut Page, place: usize, number: u128)
    requires { place + 16 ≤ 4096 }
    ensures { take (place + 16) page.new ≡ take place page.old ++ spelled 16 number }
{
    put_u64(page, place, (number >> 64) as u64);
    put_u64(page, place + 8, (number % (1 << 64)) as u64);
}

/// Writes zeros from a place on.
pub(crate) fn finish(page: &mut Page, place: usize)
    requires { place ≤ 4096 }
    ensures { page.new ≡ padded (take place page.old) }
{
    for at in place..4096 {
        put_u8(page, at, 0);
    }
}

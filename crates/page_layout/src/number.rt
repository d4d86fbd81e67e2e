//! The numbers at the front of some bytes.
ghost use Rattle.std.specs.Prelude.{◌≡◌, ◌+◌, ◌≤◌, length, drop};
ghost use Rattle.page_layout.specs.Numbers.{number_in};
ghost use Rattle.page_layout.specs.Bytes.{AreBytes};

use byteorder::{BigEndian, ByteOrder};
use ports::Page;

/// The bytes after the first `count`.
pub(crate) fn skip(bytes: &[u8], count: usize) -> &[u8]
    requires { count ≤ length bytes.now }
    ensures value { result.now ≡ drop count bytes.now }
    ensures len { length result.now + count ≡ length bytes.now }
{
    let (_, rest) = bytes.split_at(count);
    rest
}

/// The bytes of a page from this place on.
pub(crate) fn after(page: &Page, place: usize) -> &[u8]
    requires { place ≤ 4096 }
    ensures value { result.now ≡ drop place page.now }
    ensures len { length result.now + place ≡ 4096 }
{
    let (_, rest) = page.as_slice().split_at(place);
    rest
}

/// What the type says of bytes.
pub(crate) fn are_bytes(bytes: &[u8])
    ensures { AreBytes bytes.now }
{
    let _ = bytes;
}

/// The bytes of a page.
pub(crate) fn bytes_of(page: &Page) -> &[u8]
    ensures value { result.now ≡ page.now }
    ensures len { length page.now ≡ 4096 }
    ensures bytes { AreBytes page.now }
{
    let bytes = page.as_slice();
    are_bytes(bytes);
    bytes
}

/// The number in the first two bytes.
#[tactic(auto, unfolding(crate::specs::Numbers::number_in))]
pub(crate) fn number_u16(bytes: &[u8]) -> u16
    requires { 2 ≤ length bytes.now }
    ensures { result ≡ number_in 2 bytes.now }
{
    BigEndian::read_u16(bytes)
}

/// The number in the first four bytes.
#[tactic(auto, unfolding(crate::specs::Numbers::number_in))]
pub(crate) fn number_u32(bytes: &[u8]) -> u32
    requires { 4 ≤ length bytes.now }
    ensures { result ≡ number_in 4 bytes.now }
{
    BigEndian::read_u32(bytes)
}

/// The number in the first eight bytes.
#[tactic(auto, unfolding(crate::specs::Numbers::number_in))]
pub(crate) fn number_u64(bytes: &[u8]) -> u64
    requires { 8 ≤ length bytes.now }
    ensures { result ≡ number_in 8 bytes.now }
{
    BigEndian::read_u64(bytes)
}

/// The number in the first sixteen bytes.
#[tactic(auto, unfolding(crate::specs::Numbers::number_in))]
pub(crate) fn number_u128(bytes: &[u8]) -> u128
    requires { 16 ≤ length bytes.now }
    ensures { result ≡ number_in 16 bytes.now }
{
    BigEndian::read_u128(bytes)
}

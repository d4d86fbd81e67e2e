//! Three numbers of one size in a row.
ghost use Rattle.std.specs.Prelude.{◌≡◌, ◌+◌, ◌≤◌, ◌++◌, length, take};
ghost use Rattle.page_layout.specs.Three.{three_bytes, three_in};

use crate::front::{put_u32, put_u64};
use crate::number::{number_u32, number_u64, skip};
use ports::Page;

/// Writes three numbers of four bytes each.
pub(crate) fn put_three_u32(page: &mut Page, place: usize, numbers: &[u32; 3])
    requires { place + 12 ≤ 4096 }
    ensures { take (place + 12) page.new ≡ take place page.old ++ three_bytes 4 numbers.now }
{
    put_u32(page, place, numbers[0]);
    put_u32(page, place + 4, numbers[1]);
    put_u32(page, place + 8, numbers[2]);
}

/// Writes three numbers of eight bytes each.
pub(crate) fn put_three_u64(page: &mut Page, place: usize, numbers: &[u64; 3])
    requires { place + 24 ≤ 4096 }
    ensures { take (place + 24) page.new ≡ take place page.old ++ three_bytes 8 numbers.now }
{
    put_u64(page, place, numbers[0]);
    put_u64(page, place + 8, numbers[1]);
    put_u64(page, place + 16, numbers[2]);
}

/// The three numbers in the first twelve bytes.
pub(crate) fn three_u32(bytes: &[u8]) -> [u32; 3]
    requires { 12 ≤ length bytes.now }
    ensures { result ≡ three_in 4 bytes.now }
{
    [
        number_u32(bytes),
        number_u32(skip(bytes, 4)),
        number_u32(skip(bytes, 8)),
    ]
}

/// The three numbers in the first 24 bytes.
pub(crate) fn three_u64(bytes: &[u8]) -> [u64; 3]
    requires { 24 ≤ length bytes.now }
    ensures { result ≡ three_in 8 bytes.now }
{
    [
        number_u64(bytes),
        number_u64(skip(bytes, 8)),
        number_u64(skip(bytes, 16)),
    ]
}

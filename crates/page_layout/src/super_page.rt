//! The superblock: page 1, which says what the warehouse was made for.
ghost use Rattle.std.specs.Prelude.{◌≡◌, ◌≤◌, IfSome, Some, ◌↔◌, IsTrue, take};
ghost use Rattle.bw_types.specs.Fits.{IsInRange};
ghost use Rattle.page_layout.specs.Super.{IsSuper, IsTyped, magic, super_in, format_of, degree_byte, degree_in, super_page};
ghost use Rattle.page_layout.specs.SuperLaws.{super_in-page};

use crate::front::{finish, put, put_u8, put_u32, put_u64};
use crate::number::{after, bytes_of, number_u32, number_u64};
use crate::spelled::Spelled;
use crate::zero_bytes::are_zeros;
use bw_types::Params;
use ports::Page;

const MAGIC: &[u8; 8] = b"BOXSUMWH";

const PLAIN: u8 = 3;

const SIGNED: u8 = 4;

const NO_DEGREE: u8 = 255;

/// The superblock. Its params are in their ranges; the origin is one of the two that there are.
#[derive(Clone, Copy, Debug, PartialEq, Eq)]
pub struct Super {
    pub params: Params,
}

fn format_of(origin: u32) -> u8
    ensures { result ≡ format_of origin }
{
    if origin == 0 { PLAIN } else { SIGNED }
}

fn degree_byte(degree: Option<u8>) -> u8
    ensures { result ≡ degree_byte degree }
{
    match degree {
        None => NO_DEGREE,
        Some(degree) => degree,
    }
}

fn degree_in(byte: u8) -> Option<u8>
    ensures { result ≡ degree_in byte }
{
    if byte == NO_DEGREE { None } else { Some(byte) }
}

fn degree_fits(degree: Option<u8>) -> bool
    ensures { IsTrue result ↔ IfSome degree (λ g. g ≤ 2) }
{
    match degree {
        None => true,
        Some(degree) => degree <= Params::MOST_DEGREE,
    }
}

fn are_in_range(params: &Params) -> bool
    ensures { IsTrue result ↔ IsInRange params.now }
{
    (1 <= params.dims && params.dims <= Params::MOST_DIMS)
        && degree_fits(params.degree)
        && (1 <= params.events && params.events <= Params::MOST_EVENTS)
        && (Params::LEAST_PAGES <= params.pages && params.pages <= Params::MOST_PAGES)
        && (params.origin == 0 || params.origin == Params::SIGNED_ORIGIN)
}

// Whether the page begins with the text of a superblock.
fn has_magic(page: &Page) -> bool
    ensures { IsTrue result ↔ (take 8 page.now ≡ magic) }
{
    let (text, _) = page.as_slice().split_at(8);
    text == MAGIC.as_slice()
}

// Whether the page is the spelling of what it may spell.
fn is_exact(page: &Page) -> bool
    ensures { IsTrue result ↔ (page.now ≡ super_page (super_in page.now)) }
{
    let _bytes = bytes_of(page);
    if !has_magic(page) {
        return false;
    }
    if page[8] != format_of(number_u32(after(page, 24))) {
        return false;
    }
    if page[11] != 0 {
        return false;
    }
    are_zeros(after(page, 28))
}

impl Spelled for Super {
    ghost keeps = { IsSuper };

    ghost is_typed = { IsTyped };

    ghost spelling = { super_page };

    ghost value_in = { super_in };

    fn write(&self, page: &mut Page) {
        put(page, 0, MAGIC);
        put_u8(page, 8, format_of(self.params.origin));
        put_u8(page, 9, self.params.dims);
        put_u8(page, 10, degree_byte(self.params.degree));
        put_u8(page, 11, 0);
        put_u32(page, 12, self.params.events);
        put_u64(page, 16, self.params.pages);
        put_u32(page, 24, self.params.origin);
        finish(page, 28);
    }

    fn guess(page: &Page) -> Super {
        Super {
            params: Params {
                dims: page[9],
                degree: degree_in(page[10]),
                events: number_u32(after(page, 12)),
                pages: number_u64(after(page, 16)),
                origin: number_u32(after(page, 24)),
            },
        }
    }

    fn keeps_rules(&self) -> bool {
        are_in_range(&self.params)
    }

    fn is_spelled(page: &Page) -> bool {
        Self::guess(page).keeps_rules() && is_exact(page)
    }

    ghost reads_back = { super_in-page };
}

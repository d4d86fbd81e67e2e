//! The summary of a sample.
ghost use Rattle.std.specs.Prelude.{◌≡◌, ◌==◌, ◌<◌, ◌^◌, ◌%◌, IfOk, MatchOption, length, pos, position, ◌+ℤ◌};
ghost use Rattle.std.specs.Int.{int_wrap, w128};
ghost use lib.IntN.{neg_ℤ};
ghost use Rattle.sample_rows.specs.Summary.{answer_in, answers_in as answers_of, number_in, sample_params as params_of_sample, summary_with, value_after_comma, value_in};

use crate::rows::{NoMemory, commits};
use bw_types::Params;
use std::alloc::Global;

/// A warehouse of two dimensions without a degree, with the default limits.
pub fn sample_params() -> Params
    ensures { result ≡ params_of_sample }
{
    Params {
        dims: 2,
        degree: None,
        events: 1000000,
        pages: 1048576,
        origin: 0,
    }
}

// The number that digits spell, modulo `2^128`, and 0 where a byte is no digit.
fn residue_at(digits: &[u8]) -> u128
    ensures { result ≡ number_in digits.now % 2 ^ 128 }
{
    let mut value = 0_u128;
    for digit in digits {
        if !digit.is_ascii_digit() {
            return 0;
        }
        value = value
            .wrapping_mul(10)
            .wrapping_add(u128::from(*digit - b'0'));
    }
    value
}

// The number that digits spell, modulo `2^128`.
#[tactic(auto, using(crate::proofs::Wrapped::wrapped_number))]
fn number_at(digits: &[u8]) -> i128
    ensures { result ≡ int_wrap w128 (pos (number_in digits.now)) }
{
    residue_at(digits).cast_signed()
}

// The opposite of that number, modulo `2^128`.
fn opposite_at(digits: &[u8]) -> i128
    ensures { result ≡ int_wrap w128 (neg_ℤ (pos (number_in digits.now))) }
{
    number_at(digits).wrapping_neg()
}

// The signed number that bytes spell, modulo `2^128`.
fn value_at(bytes: &[u8]) -> i128
    ensures { result ≡ int_wrap w128 (value_in bytes.now) }
{
    match bytes {
        [b'-', digits @ ..] => opposite_at(digits),
        _ => number_at(bytes),
    }
}

// The place at which the byte first stands.
fn place_of(bytes: &[u8], byte: u8) -> Option<usize>
    ensures { result ≡ position (λ b. b == byte) bytes.now }
{
    bytes.iter().position(|b| *b == byte)
}

// The number that stands after the first comma, modulo `2^128`, and 0 where there is none.
fn value_after(bytes: &[u8]) -> i128
    ensures { result ≡ int_wrap w128 (value_after_comma bytes.now) }
{
    match place_of(bytes, b',') {
        Some(at) => value_at(&bytes[at + 1..]),
        None => 0,
    }
}

// The answer that a reply line gives to a sum, modulo `2^128`, and 0 where the line is another.
fn answer(line: &[u8]) -> i128
    ensures { result ≡ int_wrap w128 (answer_in line.now) }
{
    if line.starts_with(b"sum,") {
        value_after(&line[4..])
    } else {
        0
    }
}

// The first line and what stands after its line feed, where there is one.
#[tactic(auto, using(crate::proofs::Totals::cut_line, crate::proofs::Totals::last_line))]
fn cut(replies: &[u8]) -> Option<(&[u8], &[u8])>
    ensures { MatchOption result (answers_of replies.now ≡ answer_in replies.now +ℤ pos 0)
        (λ parts. (answers_of replies.now ≡ answer_in parts.0.now +ℤ answers_of parts.1.now) × (length parts.1.now < length replies.now)) }
{
    match place_of(replies, b'\n') {
        Some(end) => Some((&replies[..end], &replies[end + 1..])),
        None => None,
    }
}

/// The total of the answers to sums in a text of replies, modulo `2^128`.
pub fn answers_in(replies: &[u8]) -> i128
    ensures { result ≡ int_wrap w128 (answers_of replies.now) }
{
    let mut total = 0_i128;
    let mut rest = replies;
    while let Some((line, after)) = cut(rest) {
        total = total.wrapping_add(answer(line));
        rest = after;
    }
    total.wrapping_add(answer(rest))
}

/// The three lines that are printed of a sample of so many objects with this total.
pub fn sample_summary(alloc: Global, count: u32, total: i128) -> Result<String, NoMemory>
    ensures { IfOk result (λ text. text.bytes.items ≡ summary_with count total) }
{
    let versions = commits(count);
    Ok(format!(in alloc; "objects,{count}\nversions,{versions}\nsums,{total}\n")?)
}

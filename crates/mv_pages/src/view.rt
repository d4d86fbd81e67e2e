//! What a node says at a key and a version, where it is read in place.
ghost use Rattle.std.specs.Prelude.{◌≡◌, ◌≤◌, ℕ, cond, length, min};
ghost use Rattle.mv_pages.specs.Alive.{IsBegunCount, is_alive, next_entry, node_value};
ghost use Rattle.mv_pages.specs.Edits.{IsPathIndex};
ghost use Rattle.mv_pages.specs.Lows.{IsReached, low_of};

use crate::find::{OPEN, is_alive};
use crate::path::Reached;
use page_layout::{MvEntry, MvNode, View};

/// What a node says at a key and a version: its value, as `value_at`, and the child to which it leads,
/// as `reached_at`.
#[derive(Clone, Copy)]
pub struct Said {
    pub value: u128,
    pub reached: Option<Reached>,
}

/// What a node that is read in place says at a key and a version.
pub fn said_on(view: &View<MvNode>, key: u64, version: u32) -> Said
    ensures value { result.value ≡ node_value view.now key version }
    ensures reached { IsReached view.now key version result.reached }
{
    let begun = begun_on(view, key, version);
    Said {
        value: begun.value,
        reached: reached_on(view, begun.count, key, version),
    }
}

// The entries that begin at or below a key: how many there are, and the value of those that are alive at a version.
#[derive(Clone, Copy)]
struct Begun {
    count: usize,
    value: u128,
}

// Entries ascend by low: the walk ends at the first one above the key.
fn begun_on(view: &View<MvNode>, key: u64, version: u32) -> Begun
    ensures count { IsBegunCount view.now.entries.items key result.count }
    ensures few { result.count ≤ length view.now.entries.items }
    ensures value { result.value ≡ node_value view.now key version }
{
    view.keeps_rules();
    let closable = version.min(OPEN - 1);
    let mut value: u128 = 0;
    for index in 0..view.len() {
        let e = view.entry(index);
        if key < e.low {
            return Begun {
                count: index,
                value,
            };
        }
        // Chosen without a branch: which entries are alive cannot be foreseen.
        value = value.wrapping_add(worth(&e, lives(&e, version, closable)));
    }
    Begun {
        count: view.len(),
        value,
    }
}

// Whether the entry is alive at a version. No entry is closed past `closable`, so one that is open needs no test of its own.
fn lives(e: &MvEntry, version: u32, closable: u32) -> bool
    requires { closable ≡ min version 4294967294 }
    ensures { result ≡ is_alive version e.now }
{
    (e.start <= version) & (closable < e.end)
}

// What the entry adds, if it is alive.
fn worth(e: &MvEntry, alive: bool) -> u128
    ensures { result ≡ cond alive e.now.value 0 }
{
    e.value.wrapping_mul(u128::from(alive))
}

// The child to which the node leads, with the keys that lead to it.
fn reached_on(view: &View<MvNode>, begun: usize, key: u64, version: u32) -> Option<Reached>
    requires count { IsBegunCount view.now.entries.items key begun }
    requires few { begun ≤ length view.now.entries.items }
    ensures { IsReached view.now key version result }
{
    if view.level() == 1 {
        return None;
    }
    match last_on(view, begun, version) {
        Some(index) => {
            let e = view.entry(index);
            Some(Reached {
                child: e.child,
                low: e.low,
                next: next_on(view, begun, version),
            })
        }
        None => None,
    }
}

// The index of the last alive one of the entries that begin at or below a key: so many do.
fn last_on(view: &View<MvNode>, begun: usize, version: u32) -> Option<usize>
    requires { begun ≤ length view.now.entries.items }
    ensures { (key : ℕ) → IsBegunCount view.now.entries.items key begun → IsPathIndex view.now.entries.items key version result }
{
    let mut rest = begun;
    while rest > 0 {
        rest -= 1;
        let e = view.entry(rest);
        if is_alive(&e, version) {
            return Some(rest);
        }
    }
    None
}

// The first alive low above a key at or below which so many entries begin.
fn next_on(view: &View<MvNode>, begun: usize, version: u32) -> Option<u64>
    ensures { (key : ℕ) → IsBegunCount view.now.entries.items key begun → result ≡ low_of (next_entry view.now.entries.items key version) }
{
    for index in begun..view.len() {
        let e = view.entry(index);
        if is_alive(&e, version) {
            return Some(e.low);
        }
    }
    None
}

//! The meta page: page 2, with the counts of the warehouse and the trees that it consists of.
ghost use Rattle.std.specs.Prelude.{◌≡◌, ◌+◌, ◌*◌, ◌++◌, ◌≤◌, ◌↔◌, IsTrue, length, take};
ghost use Rattle.std.specs.List.{All};
ghost use Rattle.page_layout.specs.TreeValue.{IsTreeTyped};
ghost use Rattle.page_layout.specs.Meta.{IsMeta, IsTyped, count_bytes, root_bytes, root_count, roots_of, meta_in, meta_page};
ghost use Rattle.page_layout.specs.MetaLaws.{meta_in-page};

use crate::entry::{Entry, Own, each_keeps, get_all, put_all, stand_in_order};
use crate::exact::{are_roots_exact, is_tree_exact};
use crate::free_page::next_fits;
use crate::front::{finish, put, put_u8, put_u32, put_u64, put_u128};
use crate::number::{after, bytes_of, number_u32, number_u64, number_u128};
use crate::spelled::Spelled;
use crate::tree_value::plain_tree_fits;
use crate::zero_bytes::are_zeros;
use arrayvec::ArrayVec;
use bw_types::Tree;
use ports::Page;

const KIND: u8 = 7;

/// The counts of a warehouse and its trees.
///
/// `lives` is 1 where the object table is kept by id and life, and 0 where it is kept by id alone, as
/// the earlier form was. `version` is the last version, `events` the number of events so far and `rows`
/// the number of adds and withdrawals. `allotted` is the number of pages that were ever given out, at
/// least 3, and `free` the first free page, or 0 where there is none. `mass` is the total mass.
///
/// A tree is all zeros, or has 1 to 16 levels, a root of at least 3 and a count of at least 1. The table
/// has no changes and no last page.
#[derive(Debug, PartialEq, Drop)]
pub struct Meta {
    pub lives: u8,
    pub version: u32,
    pub events: u32,
    pub rows: u32,
    pub allotted: u64,
    pub free: u64,
    pub mass: u128,
    pub table: Tree,
    pub roots: ArrayVec<Tree, 96>,
}

fn put_counts(page: &mut Page, meta: &Meta)
    ensures { take 48 page.new ≡ count_bytes meta.now }
{
    put_u8(page, 0, KIND);
    put_u8(page, 1, meta.lives);
    put(page, 2, &[0, 0]);
    put_u32(page, 4, meta.version);
    put_u32(page, 8, meta.events);
    put_u32(page, 12, meta.rows);
    put_u64(page, 16, meta.allotted);
    put_u64(page, 24, meta.free);
    put_u128(page, 32, meta.mass);
}

fn put_roots(page: &mut Page, meta: &Meta)
    requires few { length meta.now.roots.items ≤ 96 }
    ensures { take (80 + length meta.now.roots.items * 28) page.new ≡ take 48 page.old ++ root_bytes meta.now }
{
    meta.table.put(page, 48);
    put_u32(page, 76, meta.roots.len() as u32);
    put_all(page, 80, meta.roots.as_slice());
}

// How many roots a page may spell.
fn count_in(page: &Page) -> usize
    ensures value { result ≡ root_count page.now }
    ensures few { result ≤ 96 }
{
    number_u32(after(page, 76)).min(96) as usize
}

fn read_roots(page: &Page) -> ArrayVec<Tree, 96>
    ensures items { result.items ≡ roots_of page.now }
    ensures typed { All IsTreeTyped result.items }
{
    get_all(count_in(page), after(page, 80))
}

// Whether what the page may spell keeps its rules, which are tested where its bytes stand.
fn keeps_rules_at(page: &Page) -> bool
    ensures { IsTrue result ↔ IsMeta (meta_in page.now) }
{
    if page[1] > 1 {
        return false;
    }
    if number_u64(after(page, 16)) < 3 {
        return false;
    }
    if !next_fits(number_u64(after(page, 24))) {
        return false;
    }
    if !plain_tree_fits(&Tree::get(after(page, 48))) {
        return false;
    }
    stand_in_order::<Own, Tree>(0, count_in(page), after(page, 80))
}

// Whether the page is the spelling of what it may spell.
fn is_exact(page: &Page) -> bool
    ensures { IsTrue result ↔ (page.now ≡ meta_page (meta_in page.now)) }
{
    let _bytes = bytes_of(page);
    let count = count_in(page);
    if page[0] != KIND {
        return false;
    }
    if page[2] != 0 {
        return false;
    }
    if page[3] != 0 {
        return false;
    }
    if number_u32(after(page, 76)) as usize != count {
        return false;
    }
    if !is_tree_exact(after(page, 48)) {
        return false;
    }
    if !are_roots_exact(count, after(page, 80)) {
        return false;
    }
    are_zeros(after(page, 80 + count * 28))
}

impl Spelled for Meta {
    ghost keeps = { IsMeta };

    ghost is_typed = { IsTyped };

    ghost spelling = { meta_page };

    ghost value_in = { meta_in };

    fn write(&self, page: &mut Page) {
        put_counts(page, self);
        put_roots(page, self);
        finish(page, 80 + self.roots.len() * 28);
    }

    fn guess(page: &Page) -> Meta {
        Meta {
            lives: page[1],
            version: number_u32(after(page, 4)),
            events: number_u32(after(page, 8)),
            rows: number_u32(after(page, 12)),
            allotted: number_u64(after(page, 16)),
            free: number_u64(after(page, 24)),
            mass: number_u128(after(page, 32)),
            table: Tree::get(after(page, 48)),
            roots: read_roots(page),
        }
    }

    fn keeps_rules(&self) -> bool {
        (self.lives <= 1 && self.allotted >= 3)
            && (next_fits(self.free) && plain_tree_fits(&self.table))
            && (self.roots.len() <= 96 && each_keeps(0, self.roots.as_slice()))
    }

    fn is_spelled(page: &Page) -> bool {
        let _bytes = bytes_of(page);
        keeps_rules_at(page) && is_exact(page)
    }

    ghost reads_back = { meta_in-page };
}

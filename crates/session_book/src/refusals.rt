ghost use Rattle.std.specs.Prelude.{◌≡◌, ℕ, ◌+◌, ◌-◌, ◌^◌, ◌<◌, ◌≤◌, min, List, [], length, IsTrue, None, Err, IfOk};
ghost use Rattle.std.specs.List.{list_all};
ghost use Rattle.ports.specs.Count.{Rose};
ghost use Rattle.bw_types.specs.Fits.{IsInRange, row_fits};
ghost use Rattle.bw_types.specs.History.{History, flat, flat_row};
ghost use Rattle.bw_types.specs.Refusals.{first_refusal, first_refused_row, total_mass};
ghost use Rattle.bw_types.specs.declared.change.Change.{Change};
ghost use Rattle.session_book.specs.Batch.{row_id};
ghost use Rattle.session_book.specs.Told.{IsToldOf, TellsLives};

use crate::Seen;
use crate::batch::Batch;
use bw_types::{Params, Reason, Refusal, Row};
use std::alloc::Global;
use thiserror::Error;

/// Why a batch could not be judged.
#[derive(Clone, Copy, PartialEq, Eq, Debug, Error)]
pub enum BookFault {
    /// The device below the `Seen` failed. Comes only where its count of faults rose.
    #[error("the disk failed")]
    Disk,
    /// What the `Seen` reads is damaged at this page.
    #[error("page {0} is damaged")]
    Damaged(u64),
    /// There was no memory.
    #[error("no memory")]
    NoMemory,
}

/// The first refusal of a batch of rows on a history with this number of events and this total mass,
/// whose lives the `Seen` tells; `None` where the batch is accepted. Conditions: the params are in
/// range, each row fits, and the mass is below `2^126`.
///
/// It asks for the life of an id once for each row at most, and looks at none of the history's
/// changes. `Disk` comes only where the faults of the `Seen` rose; `Damaged` comes only for a page
/// that the `Seen` may blame, and where it tells its lives only where its faults rose.
pub fn first_refusal<V: Seen>(
    alloc: Global,
    seen: &mut V,
    params: &Params,
    events: u32,
    mass: u128,
    rows: &[Row],
) -> Result<Option<Refusal>, BookFault>
    requires in_range { IsInRange params.now }
    requires fit { IsTrue (list_all (row_fits params.now) rows.now) }
    requires mass { mass < 2 ^ 126 }
    ensures ok { IfOk result (λ refusal. V.tells seen.old → (h : History)
        → IsToldOf params.now (V.life_of seen.old) events mass h → refusal ≡ first_refusal params.now h rows.now) }
    // Whatever is told, a batch that is accepted keeps to the limits of events and mass.
    ensures room { IfOk result (λ refusal. refusal ≡ None → events + length (flat rows.now) + 1 ≤ params.now.events) }
    ensures light { IfOk result (λ refusal. refusal ≡ None → mass + total_mass params.now (flat rows.now) < 2 ^ 126) }
    ensures disk { result ≡ Err BookFault.Disk → Rose (V.faults seen.old) (V.faults seen.new) }
    ensures damaged { (page : ℕ) → result ≡ Err (BookFault.Damaged page) → V.may_blame seen.old page }
    ensures damaged_told { (page : ℕ) → result ≡ Err (BookFault.Damaged page)
        → V.tells seen.old → Rose (V.faults seen.old) (V.faults seen.new) }

    ensures faults { V.faults seen.old ≤ V.faults seen.new }
    ensures tells { V.tells seen.old → V.tells seen.new }
    ensures life_of { V.life_of seen.new ≡ V.life_of seen.old }
    ensures may_blame { (page : ℕ) → V.may_blame seen.new page → V.may_blame seen.old page }
    ensures stays { V.stays seen.old seen.new }
{
    let after = u64::from(events)
        .saturating_add(flat_len(rows))
        .saturating_add(1);
    if after > u64::from(params.events) {
        return Ok(Some(Refusal {
            place: 0,
            reason: Reason::Events,
        }));
    }
    first_refused_row(alloc, seen, params, mass, rows)
}

// The first of the rows that is refused, whatever their number.
fn first_refused_row<V: Seen>(
    alloc: Global,
    seen: &mut V,
    params: &Params,
    mass: u128,
    rows: &[Row],
) -> Result<Option<Refusal>, BookFault>
    requires in_range { IsInRange params.now }
    requires fit { IsTrue (list_all (row_fits params.now) rows.now) }
    requires mass { mass < 2 ^ 126 }
    requires few { length rows.now ≤ 2 ^ 28 }
    ensures ok { IfOk result (λ refusal. V.tells seen.old → (past : List Change)
        → TellsLives (V.life_of seen.old) past → mass ≡ total_mass params.now past
        → refusal ≡ first_refused_row params.now past [] 1 rows.now) }
    ensures light { IfOk result (λ refusal. refusal ≡ None → mass + total_mass params.now (flat rows.now) < 2 ^ 126) }
    ensures disk { result ≡ Err BookFault.Disk → Rose (V.faults seen.old) (V.faults seen.new) }
    ensures damaged { (page : ℕ) → result ≡ Err (BookFault.Damaged page) → V.may_blame seen.old page }
    ensures damaged_told { (page : ℕ) → result ≡ Err (BookFault.Damaged page)
        → V.tells seen.old → Rose (V.faults seen.old) (V.faults seen.new) }

    ensures faults { V.faults seen.old ≤ V.faults seen.new }
    ensures tells { V.tells seen.old → V.tells seen.new }
    ensures life_of { V.life_of seen.new ≡ V.life_of seen.old }
    ensures may_blame { (page : ℕ) → V.may_blame seen.new page → V.may_blame seen.old page }
    ensures stays { V.stays seen.old seen.new }
{
    let mut batch = Batch::new(alloc, mass);
    for (i, row) in rows.iter().enumerate() {
        let standing = batch.standing(seen, row_id(row))?;
        match batch.judge(params, row, standing) {
            Ok(None) => {}
            Ok(Some(reason)) => {
                return Ok(Some(Refusal {
                    place: i as u32 + 1,
                    reason,
                }));
            }
            Err(_) => return Err(BookFault::NoMemory),
        }
    }
    Ok(None)
}

// The adds and withdrawals that the rows stand for, a move being one of each.
fn flat_len(rows: &[Row]) -> u64
    ensures { result ≡ min (length (flat rows.now)) (2 ^ 64 - 1) }
{
    let mut len: u64 = 0;
    for row in rows {
        len = len.saturating_add(row_len(row));
    }
    len
}

fn row_len(row: &Row) -> u64
    ensures { result ≡ length (flat_row row.now) }
{
    match row {
        Row::Add(_) | Row::Withdraw(_) => 1,
        Row::Move(_) => 2,
    }
}

fn row_id(row: &Row) -> u64
    ensures { result ≡ row_id row.now }
{
    match row {
        Row::Add(object) | Row::Move(object) => object.id,
        Row::Withdraw(id) => *id,
    }
}

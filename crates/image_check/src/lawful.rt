//! Whether the history of events is lawful.
ghost use Rattle.std.specs.Prelude.{◌≡◌, ◌++◌, ◌∷◌, [], map, Ok, IfOk, OnOk, OnErr, true, false};
ghost use Rattle.bw_types.specs.Fits.{IsInRange};
ghost use Rattle.bw_types.specs.History.{History, last_version};
ghost use Rattle.bw_types.specs.Lawful.{IsLawful, IsLawfulBatch};
ghost use Rattle.page_warehouse.specs.Events.{AreEventsOf, change_in};

use crate::staging::{rows_fit, stage};
use bw_types::{Params, Row};
use history_laws::{accepted_batches_are_lawful, histories_grow_by_lawful_batches};
use page_warehouse::{Event, count_of};
use std::alloc::{AllocError, Global};
use warehouse::{ListFault, ListHouse};

/// Whether the history is lawful whose events these are, in order, up to its last version.
///
/// It takes memory for a warehouse that holds the history.
pub fn is_lawful(
    alloc: Global,
    params: &Params,
    events: &[Event],
    last: u32,
) -> Result<bool, AllocError>
    requires { IsInRange params.now }
    ensures yes { result ≡ Ok true → (h : History) → AreEventsOf events.now h → last_version h ≡ last → IsLawful params.now h }
    ensures no { result ≡ Ok false → (h : History) → AreEventsOf events.now h → last_version h ≡ last → IsLawful params.now h → ⊥ }
{
    histories_grow_by_lawful_batches();
    let mut house = ListHouse::new(alloc, params);
    let mut rows = Vec::new(alloc);
    let mut later = events;
    for version in 0..last {
        let count = count_of(version + 1, later);
        if !put_next(&mut house, params, &later[..count], &mut rows)? {
            return Ok(false);
        }
        later = &later[count..];
    }
    Ok(true)
}

// Puts a batch of these events last in the history, and says whether it is lawful there. The rows are room for those
// that stage it.
fn put_next(
    house: &mut ListHouse,
    params: &Params,
    events: &[Event],
    rows: &mut Vec<Row>,
) -> Result<bool, AllocError>
    requires range { IsInRange params.now }
    requires same { house.old.params ≡ params.now }
    ensures yes { result ≡ Ok true → IsLawfulBatch params.now house.old.history (map change_in events.now) }
    ensures put { result ≡ Ok true → house.new.history ≡ house.old.history ++ map change_in events.now ∷ [] }
    ensures no { result ≡ Ok false → IsLawfulBatch params.now house.old.history (map change_in events.now) → ⊥ }
    ensures params { house.new.params ≡ house.old.params }
{
    stage(events, rows)?;
    if rows.len() > 4096 || !rows_fit(params, rows.as_slice()) {
        return Ok(false);
    }
    match house.commit(rows.as_slice()) {
        Ok(_) => Ok(true),
        Err(ListFault::Refused(_)) => Ok(false),
        Err(ListFault::NoMemory) => Err(AllocError),
    }
}

//! Batches that are judged over a history kept as a list and over a device that fails, and what sessions keep.
ghost use Rattle.std.specs.Prelude.{◌≡◌, ◌≤◌};
ghost use Rattle.std.specs.List.{list_any};
ghost use Rattle.bw_types.specs.Fits.{IsInRange};
ghost use Rattle.bw_types.specs.History.{adds, withdraws};
ghost use Rattle.bw_types.specs.Refusals.{is_live, was_added};
ghost use Rattle.session_book.specs.Told.{life_in};

use crate::fitting::rows_fit;
use bw_types::{Change, Object, Params, Reason, Refusal, Row};
use ports::PageFault;
use session_book::{BookFault, Life, Seen, Sessions, StageRow, first_refusal};
use std::alloc::Global;
use std::test::Fail;

/// The plain `Seen`: it walks over all changes of a history.
#[derive(Drop)]
struct ListSeen<'a> {
    changes: &'a [Change],
}

impl Seen for ListSeen<'_> {
    ghost use Rattle.std.specs.Prelude.{true, refl};
    ghost use Rattle.std.proofs.Common.{◌∙◌};
    ghost use Rattle.session_book.specs.Told.{life_in};

    ghost tells = { λ _. Unit {0} };

    ghost life_of = { λ s. life_in s.changes.now };

    ghost faults = { λ _. 0 };

    ghost may_blame = { λ _ _. ⊥ };

    ghost stays = { λ s t. t.changes.now ≡ s.changes.now };

    ghost stays_alone = { λ s. refl };

    ghost stays_on = { λ s t u before after. after ∙ before };

    fn life(&mut self, id: u64) -> Result<Life, PageFault> {
        Ok(life_after(self.changes, id))
    }
}

// What the changes say of the id.
fn life_after(changes: &[Change], id: u64) -> Life
    ensures { result ≡ life_in changes.now id }
{
    if lives(changes, id) {
        return Life::Live;
    }
    if was_added(changes, id) {
        return Life::Withdrawn;
    }
    Life::Never
}

// Whether an object with the id was added, and not withdrawn afterwards.
fn lives(changes: &[Change], id: u64) -> bool
    ensures { result ≡ is_live id changes.now }
{
    match changes {
        [] => false,
        [Change::Withdraw(_), later @ ..] => lives(later, id),
        [Change::Add(object), later @ ..] => {
            if is_withdrawn(later, object.id) {
                return lives(later, id);
            }
            object.id == id || lives(later, id)
        }
    }
}

fn was_added(changes: &[Change], id: u64) -> bool
    ensures { result ≡ was_added id changes.now }
{
    changes.iter().any(|change| adds(change, id))
}

fn is_withdrawn(changes: &[Change], id: u64) -> bool
    ensures { result ≡ list_any (withdraws id) changes.now }
{
    changes.iter().any(|change| withdraws(change, id))
}

fn adds(change: &Change, id: u64) -> bool
    ensures { result ≡ adds id change.now }
{
    match change {
        Change::Add(object) => object.id == id,
        Change::Withdraw(_) => false,
    }
}

fn withdraws(change: &Change, id: u64) -> bool
    ensures { result ≡ withdraws id change.now }
{
    match change {
        Change::Add(_) => false,
        Change::Withdraw(withdrawn) => *withdrawn == id,
    }
}

/// A `Seen` over a device that fails.
#[derive(Drop)]
struct BrokenSeen {
    fault: PageFault,
    faults: u64,
}

impl Seen for BrokenSeen {
    ghost use Rattle.std.specs.Prelude.{false};
    ghost use Rattle.session_book.specs.declared.seen.Life.TheVariants.{Never};

    ghost tells = { λ _. ⊥ };

    ghost life_of = { λ _ _. Never };

    ghost faults = { λ s. s.faults };

    ghost may_blame = { λ _ _. Unit {0} };

    ghost stays = { λ _ _. Unit {0} };

    ghost stays_alone = { λ _. tt };

    ghost stays_on = { λ _ _ _ _ _. tt };

    fn life(&mut self, _id: u64) -> Result<Life, PageFault> {
        self.faults = self.faults.saturating_add(1);
        Err(self.fault)
    }
}

fn span(id: u64, low: u32, high: u32) -> Object {
    Object {
        id,
        low: [low, 0, 0],
        high: [high, 0, 0],
        weight: 5,
        coeffs: [0; 27],
    }
}

fn line(events: u32) -> Params
    requires some { 1 ≤ events }
    requires most { events ≤ 268435456 }
    ensures { IsInRange result }
{
    Params {
        dims: 1,
        degree: None,
        events,
        pages: Params::MOST_PAGES,
        origin: 0,
    }
}

fn refusal(
    alloc: Global,
    params: &Params,
    changes: &[Change],
    events: u32,
    rows: &[Row],
) -> Result<Option<Refusal>, BookFault>
    requires { IsInRange params.now }
{
    if !rows_fit(params, rows) {
        return Err(BookFault::Damaged(0));
    }
    first_refusal(alloc, &mut ListSeen { changes }, params, events, 0, rows)
}

fn at(place: u32, reason: Reason) -> Option<Refusal> {
    Some(Refusal { place, reason })
}

#[test]
fn ids_are_judged(rt: HostRuntime) -> Result<(), Fail> {
    let alloc = rt.alloc();
    let params = line(Params::MOST_EVENTS);
    let add = Row::Add(span(1, 0, 9));
    let added = Change::Add(span(1, 0, 9));
    let gone = [added, Change::Withdraw(1)];
    assert_eq!(rt; refusal(alloc, &params, &[], 0, &[add])?, None);
    let used = [Row::Add(span(2, 0, 9)), Row::Add(span(1, 3, 4))];
    assert_eq!(rt;
        refusal(alloc, &params, &[added], 2, &used)?,
        at(2, Reason::Used)
    );
    let fresh = [Row::Add(span(3, 0, 1)), Row::Withdraw(3)];
    assert_eq!(rt;
        refusal(alloc, &params, &[added], 2, &fresh)?,
        at(2, Reason::Fresh)
    );
    assert_eq!(rt;
        refusal(alloc, &params, &[added], 2, &[Row::Withdraw(8)])?,
        at(1, Reason::Unknown)
    );
    assert_eq!(rt;
        refusal(alloc, &params, &[added], 2, &[Row::Withdraw(1)])?,
        None
    );
    assert_eq!(rt;
        refusal(alloc, &params, &gone, 4, &[Row::Withdraw(1)])?,
        at(1, Reason::Gone)
    );
    assert_eq!(rt; refusal(alloc, &params, &gone, 4, &[add])?, None);
    Ok(())
}

#[test]
fn a_batch_sees_its_own_rows(rt: HostRuntime) -> Result<(), Fail> {
    let alloc = rt.alloc();
    let params = line(Params::MOST_EVENTS);
    let added = [Change::Add(span(1, 0, 9))];
    let again = Row::Add(span(1, 0, 1));
    let moved = Row::Move(span(1, 0, 1));
    let out = Row::Withdraw(1);
    assert_eq!(rt;
        refusal(alloc, &params, &added, 2, &[out, again, out])?,
        at(3, Reason::Fresh)
    );
    assert_eq!(rt; refusal(alloc, &params, &added, 2, &[out, again])?, None);
    assert_eq!(rt;
        refusal(alloc, &params, &added, 2, &[out, out])?,
        at(2, Reason::Gone)
    );
    assert_eq!(rt;
        refusal(alloc, &params, &added, 2, &[moved, moved])?,
        at(2, Reason::Fresh)
    );
    assert_eq!(rt;
        refusal(alloc, &params, &added, 2, &[moved, again])?,
        at(2, Reason::Used)
    );
    assert_eq!(rt;
        refusal(alloc, &params, &added, 2, &[Row::Move(span(2, 0, 1))])?,
        at(1, Reason::Unknown)
    );
    Ok(())
}

#[test]
fn events_are_limited(rt: HostRuntime) -> Result<(), Fail> {
    let alloc = rt.alloc();
    let params = line(3);
    let added = [Change::Add(span(1, 0, 1))];
    let add = Row::Add(span(2, 0, 1));
    assert_eq!(rt;
        refusal(alloc, &params, &[], 0, &[Row::Add(span(1, 0, 1))])?,
        None
    );
    assert_eq!(rt;
        refusal(alloc, &params, &added, 2, &[add])?,
        at(0, Reason::Events)
    );
    assert_eq!(rt; refusal(alloc, &params, &added, 2, &[])?, None);
    assert_eq!(rt;
        refusal(alloc, &params, &added, 3, &[])?,
        at(0, Reason::Events)
    );
    assert_eq!(rt;
        refusal(alloc, &line(4), &added, 2, &[Row::Move(span(1, 2, 3))])?,
        at(0, Reason::Events)
    );
    assert_eq!(rt;
        refusal(alloc, &line(5), &added, 2, &[Row::Move(span(1, 2, 3))])?,
        None
    );
    Ok(())
}

#[test]
fn faults_are_passed_on(rt: HostRuntime) -> Result<(), Fail> {
    let alloc = rt.alloc();
    let params = line(9);
    let rows = [Row::Withdraw(1)];
    let mut seen = BrokenSeen {
        fault: PageFault::Damaged(7),
        faults: 0,
    };
    assert!(rt; rows_fit(&params, &rows));
    assert_eq!(rt;
        first_refusal(alloc, &mut seen, &params, 0, 0, &rows),
        Err(BookFault::Damaged(7))
    );
    seen.fault = PageFault::Disk;
    assert_eq!(rt;
        first_refusal(alloc, &mut seen, &params, 0, 0, &rows),
        Err(BookFault::Disk)
    );
    Ok(())
}

#[test]
fn a_session_is_full_at_4096_rows(rt: HostRuntime) -> Result<(), Fail> {
    let mut sessions = Sessions::new(rt.alloc());
    for id in 0..4096 {
        sessions.stage(3, &Row::Withdraw(id))?;
    }
    assert_eq!(rt;
        sessions.stage(3, &Row::Withdraw(4096)),
        Err(StageRow::Full)
    );
    sessions.stage(16, &Row::Withdraw(1))?;
    assert_eq!(rt; sessions.rows(3).len(), 4096);
    assert_eq!(rt; sessions.rows(16).len(), 1);
    assert_eq!(rt; sessions.rows(1).len(), 0);
    sessions.clear(3);
    assert_eq!(rt; sessions.rows(3).len(), 0);
    assert_eq!(rt; sessions.rows(16).len(), 1);
    Ok(())
}

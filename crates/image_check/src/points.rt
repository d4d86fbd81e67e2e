//! The points of what lives enter, in one tree.
ghost use Rattle.std.specs.Prelude.{◌≡◌, ◌<◌, ◌≤◌, ◌++◌, [], ◌∷◌, Err, IsSome, IfOk, OnOk, OnErr};
ghost use Rattle.std.specs.List.{All};
ghost use Rattle.bw_types.specs.Fits.{IsInRange};
ghost use Rattle.corner_weights.specs.PlaneSums.{EnteredFits};
ghost use Rattle.corner_weights.specs.Powers.{ArePowersOf};
ghost use Rattle.history_laws.specs.Entries.{entries_of, life_entries};
ghost use Rattle.corner_forest.specs.Enters.{entered_at};
ghost use Rattle.corner_forest.specs.Entries.{corner_count as count_of_corners, entry_points, point_count as count_of_points, root_count, root_points};

use bw_types::{Dated, Params, Point};
use corner_forest::{Entry, corner_count, entry_point};
use corner_weights::{BoxPowers, box_powers};
use page_checks::CheckFault;
use std::alloc::Global;

/// The points in this tree of what the lives enter.
pub(crate) fn points_of(
    alloc: Global,
    params: &Params,
    lives: &[Dated],
    place: u8,
) -> Result<Vec<Point>, CheckFault>
    requires in_range { IsInRange params.now }
    requires fits { All (EnteredFits params.now) (entries_of lives.now) }
    requires place { place < root_count params.now }
    ensures points { IfOk result (λ points. points.items ≡ root_points params.now (entries_of lives.now) place) }
    ensures memory { OnErr result (result ≡ Err CheckFault.NoMemory) }
{
    let mut points = Vec::new(alloc);
    for life in lives {
        push_life(&mut points, params, life, place)?;
    }
    Ok(points)
}

// Puts the points of a life's entries last.
fn push_life(
    points: &mut Vec<Point>,
    params: &Params,
    life: &Dated,
    place: u8,
) -> Result<(), CheckFault>
    requires in_range { IsInRange params.now }
    requires fits { All (EnteredFits params.now) (life_entries life.now) }
    requires place { place < root_count params.now }
    ensures points { OnOk result (points.new.items ≡ points.old.items ++ root_points params.now (life_entries life.now) place) }
    ensures memory { OnErr result (result ≡ Err CheckFault.NoMemory) }
{
    let powers = box_powers(&life.object, params);
    let begun = Entry {
        object: life.object,
        minus: false,
        event: life.add_event,
    };
    push_points(points, params, &powers, &begun, life.added, place)?;
    if life.withdrawn == 0 {
        return Ok(());
    }
    let ended = Entry {
        object: life.object,
        minus: true,
        event: life.withdraw_event,
    };
    push_points(points, params, &powers, &ended, life.withdrawn, place)
}

// Puts the points of an entry last.
fn push_points(
    points: &mut Vec<Point>,
    params: &Params,
    powers: &BoxPowers,
    entry: &Entry,
    version: u32,
    place: u8,
) -> Result<(), CheckFault>
    requires in_range { IsInRange params.now }
    requires powers { IsSome params.now.degree → ArePowersOf params.now entry.now.object powers.now }
    requires fits { EnteredFits params.now (entered_at version entry.now) }
    requires place { place < root_count params.now }
    ensures points { OnOk result (points.new.items ≡ points.old.items ++ entry_points params.now place (entered_at version entry.now)) }
    ensures memory { OnErr result (result ≡ Err CheckFault.NoMemory) }
{
    for corner in 0..point_count(params, place) {
        let point = entry_point(params, powers, entry, version, place, corner);
        push_point(points, point)?;
    }
    Ok(())
}

fn push_point(points: &mut Vec<Point>, next: Point) -> Result<(), CheckFault>
    ensures last { OnOk result (points.new.items ≡ points.old.items ++ (next ∷ [])) }
    ensures memory { OnErr result (result ≡ Err CheckFault.NoMemory) }
{
    match points.push(next) {
        Ok(()) => Ok(()),
        Err(_) => Err(CheckFault::NoMemory),
    }
}

// How many points an entry has in this tree.
fn point_count(params: &Params, place: u8) -> u8
    requires { IsInRange params.now }
    ensures count { result ≡ count_of_points params.now place }
    ensures most { result ≤ count_of_corners params.now }
{
    let corners = corner_count(params);
    if place < corners { 1 } else { corners }
}

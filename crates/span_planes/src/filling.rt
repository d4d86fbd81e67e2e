//! The trees of spans, filled with all adds and withdrawals of a history.
ghost use Rattle.std.specs.Prelude.{◌≡◌, ◌≢◌, ◌+◌, ◌-◌, ◌^◌, ◌<◌, ◌≤◌, ◌++◌, [], ◌∷◌, ℕ, map, not, nat_lt, if◌then◌else◌, length, Err, IsTrue, IfOk, OnOk, OnErr};
ghost use Rattle.std.specs.List.{All};
ghost use Rattle.bw_types.specs.Fits.{IsInRange};
ghost use Rattle.bw_types.specs.Keys.{point_key as key_of_point};
ghost use Rattle.corner_weights.specs.Corners.{corner_keys};
ghost use Rattle.page_layout.specs.TreeValue.{tree_fits};
ghost use Rattle.ports.specs.Calls.{Changes};
ghost use Rattle.dom_index.specs.Points.{AreKeysBelow};
ghost use Rattle.corner_forest.specs.Entries.{corner_count, entered_residue};
ghost use Rattle.span_planes.specs.FillPoints.{point_in};
ghost use Rattle.span_planes.specs.Filled.{CanFill, ComeInTurn, FilledTrees, entries_in, entry_of, span_growth};
ghost use Rattle.span_planes.specs.SpanPoints.{dated_weight as dated_weight_of_entry, plain_weight as weight_of_entry, span_roots};

use arrayvec::ArrayVec;
use bw_types::{Params, Point, Tree, point_key, res_mul, res_neg, res_of};
use corner_weights::object_corner;
use dom_index::{DomIndex, add_all};
use page_warehouse::Event;
use ports::{Stage, StageFault};
use std::alloc::Global;

/// Makes the trees of spans of these events, beside what the stage has: for each subset of the dimensions one with the weights, and one with the
/// weights times the versions. Each tree gets its points as one list.
///
/// After a refusal the stage is to be abandoned.
pub(crate) fn fill<X: DomIndex, S: Stage>(
    alloc: Global,
    stage: &mut S,
    params: &Params,
    events: &[Event],
) -> Result<ArrayVec<Tree, 96>, StageFault>
    requires range { IsInRange params.now }
    requires dims { params.now.dims ≤ X.DIMS }
    requires events { All (CanFill params.now) events.now }
    ensures count { IfOk result (λ roots. length roots.items ≡ span_roots params.now) }
    ensures rules { IfOk result (λ roots. All (λ t. IsTrue (tree_fits t)) roots.items) }
    ensures fills { IfOk result (λ roots. IsTrue (S.tells stage.old) → ComeInTurn events.now
        → FilledTrees X.DomIndex (S.map stage.old) (S.map stage.new) params.now (entries_in events.now) roots.items) }
    ensures sound { (page : ℕ) → IsTrue (S.tells stage.old) → ComeInTurn events.now → S.free_in_order stage.old → result ≢ Err (StageFault.Damaged page) }
    ensures growth { IsTrue (S.tells stage.old) → ComeInTurn events.now → Changes S.Pages (span_growth params.now (length events.now)) stage.old stage.new result }
    ensures changes { Changes S.Pages (S.allotted stage.new + 1) stage.old stage.new result }
{
    X::index_laws();
    let count = root_count(params);
    let mut roots = ArrayVec::new();
    for place in 0..count {
        let mut root = Tree::default();
        let points = points_at(alloc, params, place, events)?;
        add_all::<X, S>(alloc, stage, params.dims, &mut root, points.as_slice())?;
        roots.push(root);
    }
    Ok(roots)
}

// The points of the events in the tree at a place, in the order in which they are added.
fn points_at(
    alloc: Global,
    params: &Params,
    place: u8,
    events: &[Event],
) -> Result<Vec<Point>, StageFault>
    requires range { IsInRange params.now }
    requires events { All (CanFill params.now) events.now }
    ensures points { IfOk result (λ points. points.items ≡ map (point_in params.now place) (entries_in events.now)) }
    ensures keys { IfOk result (λ points. All (λ p. AreKeysBelow params.now.dims p.keys) points.items) }
    ensures versions { IfOk result (λ points. All (λ p. p.version < 2 ^ 32 - 1) points.items) }
    ensures memory { OnErr result (result ≡ Err StageFault.NoMemory) }
{
    let mut points = Vec::new(alloc);
    for event in events {
        push_point(&mut points, point_of(params, place, event))?;
    }
    Ok(points)
}

fn push_point(points: &mut Vec<Point>, next: Point) -> Result<(), StageFault>
    ensures last { OnOk result (points.new.items ≡ points.old.items ++ (next ∷ [])) }
    ensures memory { OnErr result (result ≡ Err StageFault.NoMemory) }
{
    match points.push(next) {
        Ok(()) => Ok(()),
        Err(_) => Err(StageFault::NoMemory),
    }
}

// The event's point in the tree at a place.
fn point_of(params: &Params, place: u8, event: &Event) -> Point
    requires range { IsInRange params.now }
    requires event { CanFill params.now event.now }
    ensures point { result ≡ point_in params.now place (entry_of event.now) }
    ensures below { AreKeysBelow params.now.dims result.keys }
    ensures version { result.version < 2 ^ 32 - 1 }
{
    let corners = corner_count(params);
    if place < corners {
        corner_point(params, event, place, plain_weight(event))
    } else {
        corner_point(params, event, place - corners, dated_weight(event))
    }
}

// The event's point at its object's corner of the subset.
fn corner_point(params: &Params, event: &Event, subset: u8, weight: u128) -> Point
    requires event { CanFill params.now event.now }
    ensures keys { result.keys ≡ corner_keys params.now.dims event.now.object event.now.event subset }
    ensures version { result.version ≡ event.now.version }
    ensures weight { result.weight ≡ weight }
    ensures below { AreKeysBelow params.now.dims result.keys }
{
    let corner = object_corner(&event.object, subset);
    Point {
        keys: [
            key_within(params.dims, 0, corner[0], event.event),
            key_within(params.dims, 1, corner[1], event.event),
            key_within(params.dims, 2, corner[2], event.event),
        ],
        version: event.version,
        weight,
    }
}

fn key_within(dims: u8, i: u8, coord: u32, number: u32) -> u64
    ensures { result ≡ (if nat_lt i dims then key_of_point coord number else 0) }
{
    if i < dims {
        point_key(coord, number)
    } else {
        0
    }
}

// The weight of the event in a tree of weights.
fn plain_weight(event: &Event) -> u128
    ensures { result ≡ weight_of_entry (entry_of event.now) }
{
    signed(event.add, res_of(i128::from(event.object.weight)))
}

// The weight of the event in a tree of weights times versions.
fn dated_weight(event: &Event) -> u128
    ensures { result ≡ dated_weight_of_entry (entry_of event.now) }
{
    let weight = res_of(i128::from(event.object.weight));
    signed(event.add, res_mul(u128::from(event.version), weight))
}

// The residue, or its opposite where an object is taken out.
fn signed(add: bool, residue: u128) -> u128
    ensures { result ≡ entered_residue (not add) residue }
{
    if add { residue } else { res_neg(residue) }
}

// How many corners a box has.
fn corner_count(params: &Params) -> u8
    requires { IsInRange params.now }
    ensures count { result ≡ corner_count params.now }
    ensures few { result ≤ 8 }
{
    match params.dims {
        1 => 2,
        2 => 4,
        _ => 8,
    }
}

// How many trees there are.
fn root_count(params: &Params) -> u8
    requires { IsInRange params.now }
    ensures count { result ≡ span_roots params.now }
    ensures few { result ≤ 16 }
{
    2 * corner_count(params)
}

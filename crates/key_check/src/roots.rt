//! The roots that the directory of a multiversion tree tells, and the nodes below them.
ghost use Rattle.std.specs.Global.{Vec};
ghost use Rattle.std.specs.Prelude.{◌≡◌, ◌↔◌, ℕ, ◌^◌, ◌<◌, ◌≤◌, List, [], Ok, Some, None, true, false, drop, IsTrue, IfOk};
ghost use Rattle.std.specs.List.Sorted.{IsNonDecreasing};
ghost use Rattle.key_check.specs.KeyTrees.{AddsRoots, RootLasts, RootsKeep, ValuesKeep, first_step, steps_total, stretch_total};
ghost use Rattle.key_check.specs.Levels.{AreWhole, Pushes};
ghost use Rattle.key_check.specs.Steps.{AscendFrom};
ghost use Rattle.page_checks.specs.Reads.{OnlyChecks};

use crate::chain::mv_node_at;
use crate::corner::Corner;
use crate::digits::has_digits;
use crate::leveled::{Leveled, push_leveled};
use crate::piece::Piece;
use crate::piece_walk::walk_levels;
use crate::points::sum_over_keys;
use crate::step::Step;
use crate::version_tree::END;
use bw_types::Point;
use page_checks::CheckFault;
use ports::Pages;
use std::alloc::Global;

/// Whether the nodes stand below the roots that the steps tell, all of them among these and in balance for so many points,
/// and come to the sums of the points.
pub(crate) fn roots_stand<P: Pages>(
    alloc: Global,
    pages: &mut P,
    steps: &[Step],
    mut nodes: Vec<u64>,
    count: u32,
    points: &[Point],
) -> Result<bool, CheckFault>
    ensures stands { IfOk result (λ stand. IsTrue (P.tells pages.old) → AscendFrom 0 steps.now (2 ^ 32)
        → IsTrue stand ↔ (RootsKeep (P.map pages.old) nodes.items count steps.now (2 ^ 32) × ValuesKeep (P.map pages.old) steps.now points.now)) }
    ensures reads { OnlyChecks P.Pages pages.old pages.new result }
{
    nodes.sort_unstable();
    let mut corners = Vec::new(alloc);
    if !walk_roots(alloc, pages, steps, nodes.as_slice(), count, &mut corners)? {
        return Ok(false);
    }
    Ok(sum_over_keys(corners, points)?)
}

// Whether the nodes stand below the roots that the steps tell. Puts corners behind the others, whose sum is what the
// nodes come to.
fn walk_roots<P: Pages>(
    alloc: Global,
    pages: &mut P,
    steps: &[Step],
    nodes: &[u64],
    count: u32,
    corners: &mut Vec<Corner>,
) -> Result<bool, CheckFault>
    requires { IsNonDecreasing nodes.now }
    ensures stands { result ≡ Ok true → IsTrue (P.tells pages.old) → AscendFrom 0 steps.now (2 ^ 32)
        → RootsKeep (P.map pages.old) nodes.now count steps.now (2 ^ 32) }
    ensures totals { result ≡ Ok true → IsTrue (P.tells pages.old) → AscendFrom 0 steps.now (2 ^ 32)
        → AddsRoots (P.map pages.old) steps.now (2 ^ 32) corners.old.items corners.new.items }
    ensures refused { result ≡ Ok false → IsTrue (P.tells pages.old) → AscendFrom 0 steps.now (2 ^ 32)
        → RootsKeep (P.map pages.old) nodes.now count steps.now (2 ^ 32) → ⊥ }
    ensures reads { OnlyChecks P.Pages pages.old pages.new result }
{
    let Some(rooted) = roots_of(alloc, pages, steps, count)? else {
        return Ok(false);
    };
    let level = top_of(rooted.as_slice());
    let mut lows = Vec::new(alloc);
    walk_levels(alloc, pages, nodes, level, rooted, &mut lows, corners)
}

// The pieces in which the roots are reached that the steps tell, all of them in balance for so many points.
fn roots_of<P: Pages>(
    alloc: Global,
    pages: &mut P,
    steps: &[Step],
    count: u32,
) -> Result<Option<Vec<Leveled>>, CheckFault>
    ensures whole { (rooted : Vec Leveled) → result ≡ Ok (Some rooted) → AreWhole 255 rooted.items }
    ensures pushes { (rooted : Vec Leveled) → result ≡ Ok (Some rooted) → IsTrue (P.tells pages.old) → AscendFrom 0 steps.now (2 ^ 32) → (nodes : List ℕ)
        → Pushes (RootsKeep (P.map pages.old) nodes count steps.now (2 ^ 32)) (steps_total (P.map pages.old) steps.now (2 ^ 32)) (P.map pages.old) nodes [] rooted.items }
    ensures refused { result ≡ Ok None → IsTrue (P.tells pages.old) → AscendFrom 0 steps.now (2 ^ 32) → (nodes : List ℕ)
        → RootsKeep (P.map pages.old) nodes count steps.now (2 ^ 32) → ⊥ }
    ensures reads { OnlyChecks P.Pages pages.old pages.new result }
{
    let mut rooted = Vec::new(alloc);
    for (place, step) in steps.iter().enumerate() {
        let to = step_from(steps, place + 1);
        if !push_root(pages, *step, to, count, &mut rooted)? {
            return Ok(None);
        }
    }
    Ok(Some(rooted))
}

// The highest of the pieces' levels.
fn top_of(rooted: &[Leveled]) -> u8
    requires { AreWhole 255 rooted.now }
    ensures { AreWhole result rooted.now }
{
    let mut top = 0;
    for l in rooted {
        top = l.level.max(top);
    }
    top
}

// The version of the step at a place, or the end of all versions.
fn step_from(steps: &[Step], place: usize) -> u64
    ensures value { result ≡ first_step (drop place steps.now) (2 ^ 32) }
    ensures few { result ≤ 2 ^ 32 }
{
    match steps.get(place) {
        Some(step) => end_of(*step),
        None => END,
    }
}

// Where the versions before a step end.
fn end_of(step: Step) -> u64
    ensures value { result ≡ step.version }
    ensures few { result ≤ 2 ^ 32 }
{
    u64::from(step.version)
}

// Puts the piece behind the others in which the root is reached that one step tells, up to before a version.
fn push_root<P: Pages>(
    pages: &mut P,
    step: Step,
    to: u64,
    count: u32,
    rooted: &mut Vec<Leveled>,
) -> Result<bool, CheckFault>
    requires few { to ≤ 2 ^ 32 }
    ensures whole { result ≡ Ok true → AreWhole 255 rooted.old.items → AreWhole 255 rooted.new.items }
    ensures pushes { result ≡ Ok true → IsTrue (P.tells pages.old) → (nodes : List ℕ)
        → Pushes (RootLasts (P.map pages.old) nodes count step.value step.version to) (stretch_total (P.map pages.old) step.value step.version to) (P.map pages.old) nodes rooted.old.items rooted.new.items }
    ensures refused { result ≡ Ok false → IsTrue (P.tells pages.old) → step.version < to → (nodes : List ℕ)
        → RootLasts (P.map pages.old) nodes count step.value step.version to → ⊥ }
    ensures reads { OnlyChecks P.Pages pages.old pages.new result }
{
    // Only where the pages do not tell what they hold.
    if u64::from(step.version) >= to {
        return Ok(false);
    }
    if step.value == 0 {
        return Ok(true);
    }
    let Ok(page) = u64::try_from(step.value) else {
        return Ok(false);
    };
    let Some(node) = mv_node_at(pages, page)? else {
        return Ok(false);
    };
    if !has_digits(24, count, node.level) {
        return Ok(false);
    }
    let piece = Piece {
        page,
        from: step.version,
        to,
        low: 0,
        high: None,
        least: 1,
    };
    let level = node.level;
    push_leveled(rooted, Leveled { level, piece })?;
    Ok(true)
}

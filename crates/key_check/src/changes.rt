//! Whether a tree over versions stands for some list of changes.
ghost use Rattle.std.specs.Prelude.{◌≡◌, ◌↔◌, ℕ, Ok, Some, None, true, false, IsTrue, IfOk};
ghost use Rattle.key_check.specs.Changes.{AreMade, HasChangesOf, StandsForChanges, needed};
ghost use Rattle.page_checks.specs.Reads.{OnlyChecks};
ghost use Rattle.key_check.specs.Steps.{AscendFrom};
ghost use Rattle.mvsb_tree.specs.Stands.{has_come};
ghost use Rattle.page_layout.specs.Footprint.{NamesNoneTwice};
ghost use Rattle.key_check.specs.Walks.{IsWalk};
ghost use Rattle.key_check.specs.declared.version_tree.Walk.{Walk};

use crate::step::Step;
use crate::version_tree::{MOST, Walk, walk_tree};
use bw_types::{Point, Tree};
use page_checks::{CheckFault, name_none_twice};
use ports::Pages;
use std::alloc::Global;

/// Whether the tree stands for some list of changes, none of which is later than the last of the points.
///
/// The pages are only read. `Disk` comes only where the count of faults rose.
pub fn changes_stand<P: Pages>(
    alloc: Global,
    pages: &mut P,
    tree: &Tree,
    points: &[Point],
) -> Result<bool, CheckFault>
    ensures stands { IfOk result (λ stands. IsTrue (P.tells pages.old)
        → IsTrue stands ↔ StandsForChanges (P.map pages.old) tree.now points.now) }
    ensures reads { OnlyChecks P.Pages pages.old pages.new result }
{
    let Some(mut walk) = walk_changes(alloc, pages, tree, points)? else {
        return Ok(false);
    };
    Ok(name_none_twice(walk.named.as_mut_slice()))
}

/// What a walk finds over a tree that stands for some list of changes, but for a page that may be named twice.
pub(crate) fn walk_changes<P: Pages>(
    alloc: Global,
    pages: &mut P,
    tree: &Tree,
    points: &[Point],
) -> Result<Option<Walk>, CheckFault>
    ensures some { (walk : Walk) → result ≡ Ok (Some walk) → IsTrue (P.tells pages.old)
        → IsWalk (P.map pages.old) tree.now walk × (NamesNoneTwice walk.named.items → StandsForChanges (P.map pages.old) tree.now points.now) }
    ensures none { result ≡ Ok None → IsTrue (P.tells pages.old) → StandsForChanges (P.map pages.old) tree.now points.now → ⊥ }
    ensures reads { OnlyChecks P.Pages pages.old pages.new result }
{
    if !has_changes_of(tree, points) {
        return Ok(None);
    }
    let Some(walk) = walk_tree(alloc, pages, tree)? else {
        return Ok(None);
    };
    if are_made(walk.steps.as_slice(), tree.count, points) {
        Ok(Some(walk))
    } else {
        Ok(None)
    }
}

// Whether the tree's numbers are those of a tree of some changes, of which there are none without points.
fn has_changes_of(tree: &Tree, points: &[Point]) -> bool
    ensures { IsTrue result ↔ HasChangesOf tree.now points.now }
{
    tree.count as usize <= MOST
        && (tree.levels != 0 || tree.count == 0)
        && tree.changes == 0
        && tree.last == 0
        && (tree.count == 0 || !points.is_empty())
}

// Whether so many changes may make the steps, none after the last of the points. The steps ascend, so the last one tells.
fn are_made(steps: &[Step], count: u32, points: &[Point]) -> bool
    ensures yes { (high : ℕ) → result ≡ true → AscendFrom 0 steps.now high → AreMade steps.now count points.now }
    ensures no { result ≡ false → AreMade steps.now count points.now → ⊥ }
{
    let needed = needed_of(steps);
    if needed.len() > count as usize {
        return false;
    }
    match needed.last() {
        Some(step) => comes(points, step.version),
        None => true,
    }
}

// The steps that need a change each.
fn needed_of(steps: &[Step]) -> &[Step]
    ensures { result.now ≡ needed steps.now }
{
    match steps.first() {
        Some(step) if step.version == 0 && step.value == 0 => &steps[1..],
        _ => steps,
    }
}

// Whether a point was added at or after the version.
fn comes(points: &[Point], version: u32) -> bool
    ensures { result ≡ has_come points.now version }
{
    points.iter().any(|p| version <= p.version)
}

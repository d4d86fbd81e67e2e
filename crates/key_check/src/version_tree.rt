//! Whether a tree over versions stands for a list of points.
ghost use Rattle.std.specs.Prelude.{◌≡◌, ◌↔◌, Ok, Some, None, IsTrue, IfOk};
ghost use Rattle.std.specs.List.{All};
ghost use Rattle.sb_tree.specs.Stands.{IsBalanced, RootStands, SbStands, is_marked};
ghost use Rattle.page_checks.specs.Reads.{OnlyChecks};
ghost use Rattle.key_check.specs.Numbers.{HasNumbersOf};
ghost use Rattle.key_check.specs.Walks.{IsWalk};
ghost use Rattle.key_check.specs.declared.version_tree.Walk.{Walk};

use crate::digits::has_digits;
use crate::jumps::jumps_of;
use crate::numbers::{is_mark, versions_in_order};
use crate::points::sum_over_versions;
use crate::reached::Reached;
use crate::step::Step;
use crate::walk::walk_below;
use bw_types::{Point, Tree};
use page_checks::{CheckFault, name_none_twice};
use ports::Pages;
use std::alloc::{AllocError, Global};

// The versions of a tree over versions end before this one.
pub(crate) const END: u64 = 0x1_0000_0000;

pub(crate) const MOST: usize = 0x8000_0000;

/// What a walk over a whole tree found: the steps of its value, and its pages.
#[derive(Drop)]
pub(crate) struct Walk {
    pub(crate) steps: Vec<Step>,
    pub(crate) named: Vec<u64>,
}

/// Whether the tree stands for the points and is balanced.
///
/// The pages are only read, and not handed out. `Disk` comes only where the count of faults rose. It takes memory for the steps of the
/// tree's value, for the numbers of its pages, and for the versions of the points.
pub fn version_tree_stands<P: Pages>(
    alloc: Global,
    pages: &mut P,
    tree: &Tree,
    points: &[Point],
) -> Result<bool, CheckFault>
    ensures stands { IfOk result (λ stands. IsTrue (P.tells pages.old)
        → IsTrue stands ↔ (SbStands (P.map pages.old) tree.now points.now × IsBalanced tree.now)) }
    ensures reads { OnlyChecks P.Pages pages.old pages.new result }
{
    if !has_numbers_of(tree, points) {
        return Ok(false);
    }
    let Some(mut walk) = walk_tree(alloc, pages, tree)? else {
        return Ok(false);
    };
    if !name_none_twice(walk.named.as_mut_slice()) {
        return Ok(false);
    }
    if !are_marked(alloc, walk.steps.as_slice(), points)? {
        return Ok(false);
    }
    let corners = jumps_of(alloc, walk.steps.as_slice())?;
    Ok(sum_over_versions(corners, points)?)
}

// Whether the tree's numbers are those of a balanced tree of so many points.
fn has_numbers_of(tree: &Tree, points: &[Point]) -> bool
    ensures { IsTrue result ↔ (HasNumbersOf tree.now points.now × IsBalanced tree.now) }
{
    let count = points.len();
    count <= MOST
        && tree.count as usize == count
        && (tree.levels != 0 || count == 0)
        && tree.changes == 0
        && tree.last == 0
        && has_digits(32, tree.count, tree.levels)
}

/// The steps and the pages of a tree whose nodes stand for all versions.
pub(crate) fn walk_tree<P: Pages>(
    alloc: Global,
    pages: &mut P,
    tree: &Tree,
) -> Result<Option<Walk>, CheckFault>
    ensures some { (walk : Walk) → result ≡ Ok (Some walk) → IsTrue (P.tells pages.old)
        → IsWalk (P.map pages.old) tree.now walk }
    ensures none { result ≡ Ok None → IsTrue (P.tells pages.old) → RootStands tree.now.levels (P.map pages.old) tree.now.root → ⊥ }
    ensures reads { OnlyChecks P.Pages pages.old pages.new result }
{
    let mut steps = Vec::new(alloc);
    let mut named = Vec::new(alloc);
    let stands = if tree.levels == 0 {
        tree.root == 0
    } else {
        let reached = Reached {
            page: tree.root,
            low: 0,
            high: END,
            least: 1,
            before: 0,
        };
        walk_below(pages, reached, tree.levels, &mut steps, &mut named)?
    };
    if stands {
        Ok(Some(Walk { steps, named }))
    } else {
        Ok(None)
    }
}

// Whether each step is at version 0 or at that of a point.
fn are_marked(alloc: Global, steps: &[Step], points: &[Point]) -> Result<bool, AllocError>
    ensures { IfOk result (λ marked. IsTrue marked ↔ All (λ s. IsTrue (is_marked points.now s.version)) steps.now) }
{
    let versions = versions_in_order(alloc, points)?;
    for step in steps {
        if !is_mark(versions.as_slice(), step.version) {
            return Ok(false);
        }
    }
    Ok(true)
}

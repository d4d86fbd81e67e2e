//! Whether a tree of cuts stands for a list of points.
ghost use Rattle.std.specs.Prelude.{◌≡◌, ◌↔◌, ◌++◌, Ok, true, false, length, suc, IsTrue, IfOk, IsPermutation};
ghost use Rattle.image_check.specs.Numbers.{HasNumbers};
ghost use Rattle.image_check.specs.Whole.{HasWhole, IsWhole};
ghost use Rattle.cut_parts.specs.Borders.{MayBeBuilt};
ghost use Rattle.cut_parts.specs.Parts.{Part};
ghost use Rattle.cut_parts.specs.Standing as standing;
ghost use Rattle.cut_parts.specs.Standing.{CutsBalanced, CutsStand, tree_pages};
ghost use Rattle.page_checks.specs.Reads.{OnlyChecks};

use crate::checked_tree::CheckedTree;
use crate::same::{are_buildable, are_same};
use crate::sides::dims_above;
use crate::walking::walk_page;
use bw_types::{Point, Tree};
use page_checks::{CheckFault, name_none_twice};
use ports::Pages;
use std::alloc::Global;

/// Whether the tree, over one dimension more than its borders, stands for exactly these points and is balanced. Where it is so,
/// its pages and those of its borders are put behind those named, in any order.
///
/// The pages are only read, whatever they hold. `Disk` comes only where the count of faults rose. After a no, or a fault, what is
/// named beside the pages that were named before is not said. It takes memory for the points of the tree twice, for those of one
/// border at a time with what its check takes, and for the numbers of the pages twice.
pub fn cut_tree_stands<B: CheckedTree, P: Pages>(
    alloc: Global,
    pages: &mut P,
    tree: &Tree,
    points: &[Point],
    named: &mut Vec<u64>,
) -> Result<bool, CheckFault>
    ensures stands { IfOk result (λ stands. IsTrue (P.tells pages.old)
        → IsTrue stands ↔ (CutsStand B.BorderTree (P.map pages.old) tree.now points.now × CutsBalanced B.BorderTree (P.map pages.old) tree.now)) }
    ensures named { result ≡ Ok true → IsTrue (P.tells pages.old)
        → IsPermutation (named.old.items ++ tree_pages B.BorderTree (P.map pages.old) tree.now) named.new.items }
    ensures reads { OnlyChecks P.Pages pages.old pages.new result }
{
    if !has_numbers_of(tree, points) {
        return Ok(false);
    }
    if !are_buildable(alloc, points, dims_above::<B>())? {
        return Ok(false);
    }
    if tree.count == 0 {
        return Ok(true);
    }
    part_stands::<B, P>(alloc, pages, tree, points, named)
}

// Whether the numbers of the tree's value are those of a tree of these points.
fn has_numbers_of(tree: &Tree, points: &[Point]) -> bool
    ensures { IsTrue result ↔ HasNumbers tree.now (length points.now) }
{
    tree.count as usize == points.len()
        && tree.levels == levels_of(tree.count)
        && tree.changes == 0
        && tree.last == 0
        && (tree.count != 0 || tree.root == 0)
}

// The level byte of a tree of so many points.
fn levels_of(count: u32) -> u8
    ensures { result ≡ standing.levels_of count }
{
    if count == 0 {
        return 0;
    }
    if count <= 64 { 1 } else { 2 }
}

// Whether the part that begins with the tree's root stands for the points, is balanced and names none of its pages twice. Where it is
// so, they are put behind those named.
fn part_stands<B: CheckedTree, P: Pages>(
    alloc: Global,
    pages: &mut P,
    tree: &Tree,
    points: &[Point],
    named: &mut Vec<u64>,
) -> Result<bool, CheckFault>
    ensures whole { result ≡ Ok true → IsTrue (P.tells pages.old) → MayBeBuilt (suc B.DIMS) points.now
        → HasWhole B.BorderTree (P.map pages.old) tree.now points.now named.old.items named.new.items }
    ensures none { result ≡ Ok false → IsTrue (P.tells pages.old) → MayBeBuilt (suc B.DIMS) points.now
        → (part : Part) → IsWhole B.BorderTree (P.map pages.old) tree.now points.now part → ⊥ }
    ensures reads { OnlyChecks P.Pages pages.old pages.new result }
{
    let mut found = Vec::new(alloc);
    let mut own = Vec::new(alloc);
    if !walk_page::<B, P>(alloc, pages, tree.root, tree.count, &mut found, &mut own)? {
        return Ok(false);
    }
    if !are_same(alloc, found.as_mut_slice(), points)? {
        return Ok(false);
    }
    named.extend_from_slice(own.as_slice())?;
    Ok(name_none_twice(own.as_mut_slice()))
}

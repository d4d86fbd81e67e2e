//! A walk over all parts of a tree.
ghost use Rattle.std.specs.Prelude.{◌≡◌, ◌≤◌, ◌++◌, ◌∷◌, [], Ok, None, true, false, length, List, IsTrue};
ghost use Rattle.std.specs.List.{All};
ghost use Rattle.bw_types.specs.declared.point.Point.{Point};
ghost use Rattle.page_layout.specs.declared.cut_page.CutNode.{CutNode};
ghost use Rattle.page_layout.specs.declared.cut_page.CutNode.TheVariants.{Entry};
ghost use Rattle.cut_parts.specs.Parts.{Part};
ghost use Rattle.cut_parts.specs.Spelling.{HoldsLeaf, first_page, nodes_of};
ghost use Rattle.cut_parts.specs.Standing.{PartBalanced, PartStands};
ghost use Rattle.image_check.specs.Walked.{BeginWalked, BeginWithNone};
ghost use Rattle.page_checks.specs.Reads.{OnlyChecks};

use crate::checked_tree::CheckedTree;
use crate::sides::{are_high, are_low, behind, laws_of_borders};
use bw_types::Point;
use cut_parts::{after_part, is_sound, no_cuts, read_cuts, read_leaf};
use page_checks::{CheckFault, push_page};
use page_layout::CutNode;
use ports::{PageFault, Pages, blank_page};
use std::alloc::Global;

/// Whether a part of so many points that stands and is balanced begins with this page. Where it is so, its points are put behind those
/// found, and its pages behind those named.
#[cycle(walks)]
pub(crate) fn walk_page<B: CheckedTree, P: Pages>(
    alloc: Global,
    pages: &mut P,
    page: u64,
    count: u32,
    found: &mut Vec<Point>,
    named: &mut Vec<u64>,
) -> Result<bool, CheckFault>
    ensures walked { result ≡ Ok true → IsTrue (P.tells pages.old)
        → BeginWalked B.BorderTree (P.map pages.old) count (Entry page ∷ []) found.old.items found.new.items named.old.items named.new.items }
    ensures none { result ≡ Ok false → IsTrue (P.tells pages.old) → BeginWithNone B.BorderTree (P.map pages.old) count (Entry page ∷ []) }
    ensures reads { OnlyChecks P.Pages pages.old pages.new result }
{
    push_page(named, page)?;
    if count <= 64 {
        return walk_leaf(pages, page, count, found);
    }
    let mut bytes = blank_page();
    let mut cuts = no_cuts();
    match read_cuts(pages, page, &mut bytes, &mut cuts) {
        Err(PageFault::Disk) => Err(CheckFault::Disk),
        Err(PageFault::Damaged(_)) => Ok(false),
        Ok(()) => { walk_cut::<B, P>(alloc, pages, cuts.nodes.as_slice(), count, found, named) }
    }
}

// Whether the page is a leaf of so many points. Where it is so, they are put behind those found.
fn walk_leaf<P: Pages>(
    pages: &mut P,
    page: u64,
    count: u32,
    found: &mut Vec<Point>,
) -> Result<bool, CheckFault>
    ensures walked { result ≡ Ok true → IsTrue (P.tells pages.old) → (held : List Point) × HoldsLeaf (P.map pages.old) page held
        × (length held ≡ count) × (1 ≤ count) × All (λ p. length p.keys ≡ 3) held × (found.new.items ≡ found.old.items ++ held) }
    ensures none { result ≡ Ok false → IsTrue (P.tells pages.old) → (held : List Point) → HoldsLeaf (P.map pages.old) page held → length held ≡ count → ⊥ }
    ensures reads { OnlyChecks P.Pages pages.old pages.new result }
{
    match read_leaf(pages, page, count) {
        Err(PageFault::Disk) => Err(CheckFault::Disk),
        Err(PageFault::Damaged(_)) => Ok(false),
        Ok(leaf) => {
            found.extend_from_slice(leaf.points.as_slice())?;
            Ok(true)
        }
    }
}

// The same as for a page, for the part with whose nodes these begin.
#[cycle(walks)]
fn walk_nodes<B: CheckedTree, P: Pages>(
    alloc: Global,
    pages: &mut P,
    nodes: &[CutNode],
    count: u32,
    found: &mut Vec<Point>,
    named: &mut Vec<u64>,
) -> Result<bool, CheckFault>
    ensures walked { result ≡ Ok true → IsTrue (P.tells pages.old)
        → BeginWalked B.BorderTree (P.map pages.old) count nodes.now found.old.items found.new.items named.old.items named.new.items }
    ensures none { result ≡ Ok false → IsTrue (P.tells pages.old) → BeginWithNone B.BorderTree (P.map pages.old) count nodes.now }
    ensures reads { OnlyChecks P.Pages pages.old pages.new result }
{
    match nodes.first() {
        None => Ok(false),
        Some(CutNode::Entry { child }) => {
            walk_page::<B, P>(alloc, pages, *child, count, found, named)
        }
        Some(
            CutNode::Cut {
                dimension: _,
                key: _,
                low: _,
                border: _,
            },
        ) => walk_cut::<B, P>(alloc, pages, nodes, count, found, named),
    }
}

// The same, for a part that is a cut, and does not begin a page there.
#[cycle(walks)]
fn walk_cut<B: CheckedTree, P: Pages>(
    alloc: Global,
    pages: &mut P,
    nodes: &[CutNode],
    count: u32,
    found: &mut Vec<Point>,
    named: &mut Vec<u64>,
) -> Result<bool, CheckFault>
    ensures walked { result ≡ Ok true → IsTrue (P.tells pages.old)
        → BeginWalked B.BorderTree (P.map pages.old) count nodes.now found.old.items found.new.items named.old.items named.new.items }
    ensures none { result ≡ Ok false → IsTrue (P.tells pages.old) → (part : Part) (rest : List CutNode) → nodes.now ≡ nodes_of part ++ rest
        → first_page part ≡ None → PartStands B.BorderTree (P.map pages.old) count part → PartBalanced B.BorderTree (P.map pages.old) part → ⊥ }
    ensures reads { OnlyChecks P.Pages pages.old pages.new result }
{
    laws_of_borders::<B>();
    let Some((first, rest)) = nodes.split_first() else {
        return Ok(false);
    };
    let CutNode::Cut {
        dimension,
        key,
        low,
        border,
    } = first
    else {
        return Ok(false);
    };
    if !is_sound::<B>(count, *dimension, *low, border) {
        return Ok(false);
    }
    let before = found.len();
    if !walk_nodes::<B, P>(alloc, pages, rest, *low, found, named)? {
        return Ok(false);
    }
    let lows = behind(found.as_slice(), before);
    if !are_low::<B, P>(alloc, pages, lows, *dimension, *key, *low, border, named)? {
        return Ok(false);
    }
    let middle = found.len();
    let high = after_part(rest);
    if !walk_nodes::<B, P>(alloc, pages, high, count - *low, found, named)? {
        return Ok(false);
    }
    let highs = behind(found.as_slice(), middle);
    Ok(are_high(highs, *dimension, *key))
}

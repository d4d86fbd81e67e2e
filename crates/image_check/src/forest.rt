//! Whether the trees of a forest stand for the entries of lives.
ghost use Rattle.std.specs.Prelude.{◌≡◌, ◌↔◌, ◌≤◌, ◌<◌, ◌++◌, Ok, true, IsTrue, IfOk, IsPermutation, length};
ghost use Rattle.std.specs.List.{All};
ghost use Rattle.bw_types.specs.Fits.{IsInRange};
ghost use Rattle.corner_weights.specs.PlaneSums.{EnteredFits};
ghost use Rattle.history_laws.specs.Entries.{entries_of};
ghost use Rattle.corner_forest.specs.Entries.{root_count as count_of_roots, root_points};
ghost use Rattle.corner_forest.specs.Stands.{AreBalanced, ForestStands, forest_pages};
ghost use Rattle.corner_forest.specs.Trees.{EachStands};
ghost use Rattle.page_checks.specs.Reads.{OnlyChecks};

use crate::checked_index::CheckedIndex;
use crate::points::points_of;
use crate::rules::{are_few, entries_fit};
use bw_types::{Dated, Params, Tree};
use corner_forest::root_count;
use page_checks::CheckFault;
use ports::Pages;
use std::alloc::Global;

/// Whether the trees stand for what the lives enter, in any order, each tree for its own corner points, and are balanced. Where it
/// is so, their pages are put behind those named, in any order.
///
/// The pages are only read, whatever they hold. `Disk` comes only where the count of faults rose. After a no, or a fault, what is
/// named beside the pages that were named before is not said. It takes memory for the points of
/// one tree at a time, beside what the check of a tree takes.
pub fn forest_stands<X: CheckedIndex, P: Pages>(
    alloc: Global,
    pages: &mut P,
    params: &Params,
    roots: &[Tree],
    lives: &[Dated],
    named: &mut Vec<u64>,
) -> Result<bool, CheckFault>
    requires range { IsInRange params.now }
    requires dims { params.now.dims ≤ X.DIMS }
    ensures stands { IfOk result (λ stands. IsTrue (P.tells pages.old)
        → IsTrue stands ↔ (ForestStands X.DomIndex (P.map pages.old) params.now roots.now (entries_of lives.now)
        × AreBalanced X.DomIndex (P.map pages.old) params.now roots.now)) }
    ensures named { result ≡ Ok true → IsTrue (P.tells pages.old)
        → IsPermutation (named.old.items ++ forest_pages X.DomIndex (P.map pages.old) params.now roots.now) named.new.items }
    ensures reads { OnlyChecks P.Pages pages.old pages.new result }
{
    if roots.len() != root_count(params) || !entries_fit(lives, params) || !are_few(lives, params) {
        return Ok(false);
    }
    trees_stand::<X, P>(alloc, pages, params, roots, lives, named)
}

// Whether each tree stands for its corner points of what the lives enter, and is balanced.
fn trees_stand<X: CheckedIndex, P: Pages>(
    alloc: Global,
    pages: &mut P,
    params: &Params,
    roots: &[Tree],
    lives: &[Dated],
    named: &mut Vec<u64>,
) -> Result<bool, CheckFault>
    requires range { IsInRange params.now }
    requires dims { params.now.dims ≤ X.DIMS }
    requires count { length roots.now ≡ count_of_roots params.now }
    requires fits { All (EnteredFits params.now) (entries_of lives.now) }
    ensures stands { IfOk result (λ stands. IsTrue (P.tells pages.old) → IsTrue stands
        ↔ (EachStands (X.stands (P.map pages.old) params.now.dims) (root_points params.now (entries_of lives.now)) 0 roots.now
        × AreBalanced X.DomIndex (P.map pages.old) params.now roots.now)) }
    ensures named { result ≡ Ok true → IsTrue (P.tells pages.old)
        → IsPermutation (named.old.items ++ forest_pages X.DomIndex (P.map pages.old) params.now roots.now) named.new.items }
    ensures reads { OnlyChecks P.Pages pages.old pages.new result }
{
    for place in 0..root_count(params) {
        let tree = &roots[place];
        if !tree_stands_at::<X, P>(alloc, pages, params, tree, lives, place as u8, named)? {
            return Ok(false);
        }
    }
    Ok(true)
}

// Whether the tree at this place stands for its corner points of what the lives enter, and is balanced.
fn tree_stands_at<X: CheckedIndex, P: Pages>(
    alloc: Global,
    pages: &mut P,
    params: &Params,
    tree: &Tree,
    lives: &[Dated],
    place: u8,
    named: &mut Vec<u64>,
) -> Result<bool, CheckFault>
    requires range { IsInRange params.now }
    requires dims { params.now.dims ≤ X.DIMS }
    requires fits { All (EnteredFits params.now) (entries_of lives.now) }
    requires place { place < count_of_roots params.now }
    ensures stands { IfOk result (λ stands. IsTrue (P.tells pages.old) → IsTrue stands
        ↔ (X.stands (P.map pages.old) params.now.dims tree.now (root_points params.now (entries_of lives.now) place)
        × X.balanced (P.map pages.old) params.now.dims tree.now)) }
    ensures named { result ≡ Ok true → IsTrue (P.tells pages.old)
        → IsPermutation (named.old.items ++ X.footprint (P.map pages.old) params.now.dims tree.now) named.new.items }
    ensures reads { OnlyChecks P.Pages pages.old pages.new result }
{
    let points = points_of(alloc, params, lives, place)?;
    X::tree_stands(alloc, pages, params.dims, tree, points.as_slice(), named)
}

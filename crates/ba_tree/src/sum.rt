//! The sum of a tree, of a part, and of a cut.
ghost use Rattle.std.specs.Prelude.{◌≡◌, ◌+◌, ◌-◌, ◌<◌, ◌≤◌, ◌⊎◌, ◌++◌, ℕ, suc, List, length, Some, None, Err, IsTrue, OnOk};
ghost use Rattle.bw_types.specs.Without.{keys_without};
ghost use Rattle.bw_types.specs.Dominance.{dominance_sum};
ghost use Rattle.bw_types.specs.declared.point.Point.{Point};
ghost use Rattle.ports.specs.Calls.{OnlyReads};
ghost use Rattle.page_layout.specs.declared.cut_page.CutNode.{CutNode};
ghost use Rattle.dom_index.specs.Points.{AreKeysBelow};
ghost use Rattle.cut_parts.specs.Borders.{IsSum};
ghost use Rattle.cut_parts.specs.Damage.{BeforeCut, BeforePage, BeforePart, IsDamagedForSum, IsDamagedOnWay};
ghost use Rattle.bw_types.specs.Depths.{IsCost, reads_within};
ghost use Rattle.cut_parts.specs.Parts.{Part, points_of};
ghost use Rattle.cut_parts.specs.Spelling.{first_page, nodes_of};
ghost use Rattle.cut_parts.specs.Standing.{CutsBalanced, CutsStand, PartBalanced, PartStands, cuts_cost};

use bw_types::Tree;
use cut_parts::{BorderTree, Nodes, drop_key, is_sound, leaf_sum, view_cuts};
use page_layout::CutNode;
use ports::{PageFault, Pages, blank_page};

/// The sum of the weights of the points whose version and keys are at or below those given, modulo `2^128`. It takes no memory.
///
/// `Disk` comes only where the count of faults rose. `Damaged` carries the first page on the way of the keys that holds no leaf of
/// as many points as are told of it, or no cuts, or a cut that is not sound, or a page that the sum of a border calls damaged. It
/// never comes where the tree stands.
pub fn tree_sum<B: BorderTree, P: Pages>(
    pages: &mut P,
    tree: &Tree,
    keys: &[u64; 3],
    version: u32,
) -> Result<u128, PageFault>
    requires keys { AreKeysBelow (suc B.DIMS) keys.now }
    ensures sum { IsTrue (P.tells pages.old) → (points : List Point) → CutsStand B.BorderTree (P.map pages.old) tree.now points
        → IsSum result (dominance_sum (suc B.DIMS) points keys.now version) }
    ensures damaged { (page : ℕ) → result ≡ Err (PageFault.Damaged page) → IsTrue (P.tells pages.old)
        → IsDamagedForSum B.BorderTree (P.map pages.old) tree.now keys.now version page }
    ensures whole { OnOk result (IsTrue (P.tells pages.old) → (page : ℕ)
        → ¬ IsDamagedForSum B.BorderTree (P.map pages.old) tree.now keys.now version page) }
    ensures reads { OnlyReads P.Pages (P.gets pages.new) pages.old pages.new result }
    ensures cost { IsTrue (P.tells pages.old) → (points : List Point) → CutsStand B.BorderTree (P.map pages.old) tree.now points
        → CutsBalanced B.BorderTree (P.map pages.old) tree.now → P.gets pages.new ≤ P.gets pages.old + cuts_cost B.BorderTree (length points) }
{
    if tree.levels == 0 {
        return Ok(0);
    }
    B::border_laws();
    match page_sum::<B, P>(pages, tree.root, tree.count, keys, version) {
        Err(fault) => Err(fault),
        Ok(value) => Ok(value),
    }
}

// The number of dimensions of trees with these borders.
fn dims_above<B: BorderTree>() -> u8
    ensures is { result ≡ suc B.DIMS }
    ensures few { result ≤ 3 }
{
    B::border_laws();
    B::DIMS + 1
}

// The sum of a part of so many points that begins with this page.
#[cycle(sums)]
fn page_sum<B: BorderTree, P: Pages>(
    pages: &mut P,
    page: u64,
    count: u32,
    keys: &[u64; 3],
    version: u32,
) -> Result<u128, PageFault>
    requires keys { AreKeysBelow (suc B.DIMS) keys.now }
    ensures sum { IsTrue (P.tells pages.old) → (part : Part) → first_page part ≡ Some page
        → PartStands B.BorderTree (P.map pages.old) count part → IsSum result (dominance_sum (suc B.DIMS) (points_of part) keys.now version) }
    ensures damaged { (damaged : ℕ) → result ≡ Err (PageFault.Damaged damaged) → IsTrue (P.tells pages.old)
        → IsDamagedOnWay B.BorderTree (P.map pages.old) count (BeforePage page) keys.now version damaged }
    ensures whole { OnOk result (IsTrue (P.tells pages.old) → (damaged : ℕ)
        → ¬ IsDamagedOnWay B.BorderTree (P.map pages.old) count (BeforePage page) keys.now version damaged) }
    ensures reads { OnlyReads P.Pages (P.gets pages.new) pages.old pages.new result }
    ensures cost { IsTrue (P.tells pages.old) → IsCost B.cost → (part : Part) → first_page part ≡ Some page
        → PartStands B.BorderTree (P.map pages.old) count part → PartBalanced B.BorderTree (P.map pages.old) part
        → P.gets pages.new ≤ P.gets pages.old + reads_within B.cost count count }
{
    if count <= 64 {
        return match leaf_sum(pages, page, count, dims_above::<B>(), keys, version) {
            Err(fault) => Err(fault),
            Ok(value) => Ok(value),
        };
    }
    let mut bytes = blank_page();
    match view_cuts(pages, page, &mut bytes) {
        Err(fault) => Err(fault),
        Ok(cuts) => {
            match cut_sum::<B, P>(pages, page, &Nodes::on(&cuts), count, keys, version) {
                Err(fault) => Err(fault),
                Ok(value) => Ok(value),
            }
        }
    }
}

// The sum of the part of so many points with whose nodes these begin, which are nodes of this page.
#[cycle(sums)]
fn part_sum<B: BorderTree, P: Pages>(
    pages: &mut P,
    page: u64,
    nodes: &Nodes,
    count: u32,
    keys: &[u64; 3],
    version: u32,
) -> Result<u128, PageFault>
    requires keys { AreKeysBelow (suc B.DIMS) keys.now }
    ensures sum { IsTrue (P.tells pages.old) → (part : Part) (rest : List CutNode) → nodes.now ≡ nodes_of part ++ rest
        → PartStands B.BorderTree (P.map pages.old) count part → IsSum result (dominance_sum (suc B.DIMS) (points_of part) keys.now version) }
    ensures damaged { (damaged : ℕ) → result ≡ Err (PageFault.Damaged damaged) → IsTrue (P.tells pages.old)
        → IsDamagedOnWay B.BorderTree (P.map pages.old) count (BeforePart page nodes.now) keys.now version damaged }
    ensures whole { OnOk result (IsTrue (P.tells pages.old) → (damaged : ℕ)
        → ¬ IsDamagedOnWay B.BorderTree (P.map pages.old) count (BeforePart page nodes.now) keys.now version damaged) }
    ensures reads { OnlyReads P.Pages (P.gets pages.new) pages.old pages.new result }
    ensures cost { IsTrue (P.tells pages.old) → IsCost B.cost → (part : Part) (rest : List CutNode) → nodes.now ≡ nodes_of part ++ rest
        → PartStands B.BorderTree (P.map pages.old) count part → PartBalanced B.BorderTree (P.map pages.old) part
        → P.gets pages.new ≤ P.gets pages.old + reads_within B.cost count count }
{
    match nodes.split_first() {
        None => Err(PageFault::Damaged(page)),
        Some((CutNode::Entry { child }, _)) => {
            match page_sum::<B, P>(pages, child, count, keys, version) {
                Err(fault) => Err(fault),
                Ok(value) => Ok(value),
            }
        }
        Some((CutNode::Cut { .. }, _)) => {
            match cut_sum::<B, P>(pages, page, nodes, count, keys, version) {
                Err(fault) => Err(fault),
                Ok(value) => Ok(value),
            }
        }
    }
}

// The same of a part that is a cut, and does not begin a page there.
#[cycle(sums)]
fn cut_sum<B: BorderTree, P: Pages>(
    pages: &mut P,
    page: u64,
    nodes: &Nodes,
    count: u32,
    keys: &[u64; 3],
    version: u32,
) -> Result<u128, PageFault>
    requires keys { AreKeysBelow (suc B.DIMS) keys.now }
    ensures sum { IsTrue (P.tells pages.old) → (part : Part) (rest : List CutNode) → nodes.now ≡ nodes_of part ++ rest → first_page part ≡ None
        → PartStands B.BorderTree (P.map pages.old) count part → IsSum result (dominance_sum (suc B.DIMS) (points_of part) keys.now version) }
    ensures damaged { (damaged : ℕ) → result ≡ Err (PageFault.Damaged damaged) → IsTrue (P.tells pages.old)
        → IsDamagedOnWay B.BorderTree (P.map pages.old) count (BeforeCut page nodes.now) keys.now version damaged }
    ensures whole { OnOk result (IsTrue (P.tells pages.old) → (damaged : ℕ)
        → ¬ IsDamagedOnWay B.BorderTree (P.map pages.old) count (BeforeCut page nodes.now) keys.now version damaged) }
    ensures reads { OnlyReads P.Pages (P.gets pages.new) pages.old pages.new result }
    ensures cost { IsTrue (P.tells pages.old) → IsCost B.cost → (part : Part) (rest : List CutNode) → nodes.now ≡ nodes_of part ++ rest → first_page part ≡ None
        → PartStands B.BorderTree (P.map pages.old) count part → PartBalanced B.BorderTree (P.map pages.old) part
        → P.gets pages.new ≤ P.gets pages.old + (reads_within B.cost count count - 1) }
{
    let Some(
        (
            CutNode::Cut {
                dimension,
                key,
                low,
                border,
            },
            rest,
        ),
    ) = nodes.split_first()
    else {
        return Err(PageFault::Damaged(page));
    };
    // A border that stands counts its points, so the cut of a part that stands is sound.
    B::border_laws();
    if !is_sound::<B>(count, dimension, low, &border) {
        return Err(PageFault::Damaged(page));
    }
    if keys[usize::from(dimension)] < key {
        return match part_sum::<B, P>(pages, page, &rest, low, keys, version) {
            Err(fault) => Err(fault),
            Ok(value) => Ok(value),
        };
    }
    match low_sum::<B, P>(pages, page, &rest, low, dimension, &border, keys, version) {
        Err(fault) => Err(fault),
        Ok(below) => {
            match part_sum::<B, P>(pages, page, &rest.after_part(), count - low, keys, version) {
                Err(fault) => Err(fault),
                Ok(above) => Ok(below.wrapping_add(above)),
            }
        }
    }
}

// The sum of the low side of a cut, from the cut on: that of its leaf, or its border's.
#[cycle(sums)]
fn low_sum<B: BorderTree, P: Pages>(
    pages: &mut P,
    page: u64,
    nodes: &Nodes,
    low: u32,
    dimension: u8,
    border: &Tree,
    keys: &[u64; 3],
    version: u32,
) -> Result<u128, PageFault>
    requires dimension { (dimension < suc B.DIMS) × (suc B.DIMS ≤ 3) }
    requires keys { AreKeysBelow (suc B.DIMS) keys.now }
    ensures leaf { low ≤ 64 → IsTrue (P.tells pages.old) → (part : Part) (rest : List CutNode) → nodes.now ≡ nodes_of part ++ rest
        → PartStands B.BorderTree (P.map pages.old) low part → IsSum result (dominance_sum (suc B.DIMS) (points_of part) keys.now version) }
    ensures border { 64 < low → IsTrue (P.tells pages.old) → (points : List Point) → B.stands (P.map pages.old) border.now points
        → IsSum result (dominance_sum B.DIMS points (keys_without dimension keys.now) version) }
    ensures damaged { (damaged : ℕ) → result ≡ Err (PageFault.Damaged damaged) → IsTrue (P.tells pages.old)
        → ((low ≤ 64) × IsDamagedOnWay B.BorderTree (P.map pages.old) low (BeforePart page nodes.now) keys.now version damaged)
        ⊎ ((64 < low) × B.damaged_for_sum (P.map pages.old) border.now (keys_without dimension keys.now) version damaged) }
    ensures leaf_whole { OnOk result (low ≤ 64 → IsTrue (P.tells pages.old) → (damaged : ℕ)
        → ¬ IsDamagedOnWay B.BorderTree (P.map pages.old) low (BeforePart page nodes.now) keys.now version damaged) }
    ensures border_whole { OnOk result (64 < low → IsTrue (P.tells pages.old) → (damaged : ℕ)
        → ¬ B.damaged_for_sum (P.map pages.old) border.now (keys_without dimension keys.now) version damaged) }
    ensures reads { OnlyReads P.Pages (P.gets pages.new) pages.old pages.new result }
    ensures leaf_cost { low ≤ 64 → IsTrue (P.tells pages.old) → IsCost B.cost → (part : Part) (rest : List CutNode) → nodes.now ≡ nodes_of part ++ rest
        → PartStands B.BorderTree (P.map pages.old) low part → PartBalanced B.BorderTree (P.map pages.old) part
        → P.gets pages.new ≤ P.gets pages.old + reads_within B.cost low low }
    ensures border_cost { 64 < low → IsTrue (P.tells pages.old) → (points : List Point) → B.stands (P.map pages.old) border.now points
        → B.balanced (P.map pages.old) border.now → P.gets pages.new ≤ P.gets pages.old + B.cost (length points) }
{
    if low <= 64 {
        return match part_sum::<B, P>(pages, page, nodes, low, keys, version) {
            Err(fault) => Err(fault),
            Ok(value) => Ok(value),
        };
    }
    match B::sum(pages, border, &drop_key(keys, dimension), version) {
        Err(fault) => Err(fault),
        Ok(value) => Ok(value),
    }
}

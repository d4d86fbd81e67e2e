//! The points of a tree of cuts, and of a part of one.
ghost use Rattle.std.specs.Prelude.{◌≡◌, ◌≢◌, ◌+◌, ◌-◌, ◌*◌, ◌++◌, ◌∷◌, [], ◌≤◌, ℕ, suc, List, None, Some, Err, IsTrue, IfOk, OnOk, IsPermutation, length};
ghost use Rattle.bw_types.specs.declared.point.Point.{Point};
ghost use Rattle.page_layout.specs.declared.cut_page.CutNode.{CutNode};
ghost use Rattle.page_layout.specs.declared.cut_page.CutNode.TheVariants.{Entry};
ghost use Rattle.cut_parts.specs.Borders.{MayBeBuilt};
ghost use Rattle.cut_parts.specs.Damage.{BeforeCut, BeforePage, BeforePart};
ghost use Rattle.cut_parts.specs.Parts.{Part, points_of};
ghost use Rattle.cut_parts.specs.Reach.{IsDamagedForCollect};
ghost use Rattle.cut_parts.specs.Spelling.{HoldsLeaf, first_page, nodes_of};
ghost use Rattle.cut_parts.specs.Standing.{CutsStand, PartStands};
ghost use Rattle.ba_tree.specs.Collected.{IsCollected, IsDamagedForPoints, ReadsAndAllocates};

use crate::sides::{after_part, laws_of_borders};
use bw_types::{Point, Tree};
use cut_parts::{BorderTree, is_sound, may_be_built, no_cuts, read_cuts, read_leaf};
use page_layout::CutNode;
use ports::{PageFault, Pages, StageFault, blank_page};
use std::alloc::Global;

/// The points of a tree, of which a tree may be built again.
///
/// It reads no border, and ends at the tree's count. `Disk` comes only where the count of faults rose, `PageLimit` never.
/// `Damaged` never comes where the tree stands; else it carries a page that holds no leaf of as many points as are told of it, or
/// no cuts, or a cut that is not sound, or the root, where none may be built of the points.
pub fn collect<B: BorderTree, P: Pages>(
    alloc: Global,
    pages: &mut P,
    tree: &Tree,
) -> Result<Vec<Point>, StageFault>
    ensures points { IfOk result (λ collected. IsTrue (P.tells pages.old) → (points : List Point)
        → CutsStand B.BorderTree (P.map pages.old) tree.now points → IsPermutation collected.items points) }
    ensures count { IfOk result (λ collected. length collected.items ≡ tree.now.count) }
    ensures built { IfOk result (λ collected. MayBeBuilt (suc B.DIMS) collected.items) }
    ensures sound { (points : List Point) (page : ℕ) → IsTrue (P.tells pages.old)
        → CutsStand B.BorderTree (P.map pages.old) tree.now points → result ≢ Err (StageFault.Damaged page) }
    ensures damaged { (page : ℕ) → result ≡ Err (StageFault.Damaged page) → IsTrue (P.tells pages.old)
        → IsDamagedForPoints (suc B.DIMS) (P.map pages.old) tree.now page }
    // It ends at the tree's count: it reads at most two pages a point, and one.
    ensures ends { P.gets pages.new ≤ P.gets pages.old + (2 * tree.now.count + 1) }
    ensures reads { ReadsAndAllocates P.Pages pages.old pages.new result }
{
    let mut points = Vec::new(alloc);
    if tree.levels == 0 {
        if tree.count != 0 {
            return Err(StageFault::Damaged(tree.root));
        }
        return Ok(points);
    }
    match collect_page::<B, P>(pages, tree.root, tree.count, &mut points) {
        Err(fault) => return Err(fault),
        Ok(()) => {}
    }
    if !may_be_built(points.as_mut_slice(), dims_above::<B>()) {
        return Err(StageFault::Damaged(tree.root));
    }
    Ok(points)
}

// The number of dimensions of trees with these borders.
fn dims_above<B: BorderTree>() -> u8
    ensures { (result ≡ suc B.DIMS) × (result ≤ 3) }
{
    B::border_laws();
    B::DIMS + 1
}

// Pushes the points of the part of so many points that begins with this page.
#[cycle(collects)]
fn collect_page<B: BorderTree, P: Pages>(
    pages: &mut P,
    page: u64,
    count: u32,
    points: &mut Vec<Point>,
) -> Result<(), StageFault>
    ensures points { OnOk result (IsTrue (P.tells pages.old) → (part : Part) → first_page part ≡ Some page
        → PartStands B.BorderTree (P.map pages.old) count part → points.new.items ≡ points.old.items ++ points_of part) }
    ensures count { OnOk result (length points.new.items ≡ length points.old.items + count) }
    ensures there { OnOk result (IsTrue (P.tells pages.old)
        → IsCollected (P.map pages.old) count (Entry page ∷ []) points.old.items points.new.items) }
    ensures sound { (part : Part) (damaged : ℕ) → IsTrue (P.tells pages.old) → first_page part ≡ Some page
        → PartStands B.BorderTree (P.map pages.old) count part → result ≢ Err (StageFault.Damaged damaged) }
    ensures damaged { (damaged : ℕ) → result ≡ Err (StageFault.Damaged damaged) → IsTrue (P.tells pages.old)
        → IsDamagedForCollect (suc B.DIMS) (P.map pages.old) count (BeforePage page) damaged }
    // One where no points are told, and else two a point, less one.
    ensures ends { P.gets pages.new ≤ P.gets pages.old + (2 * count - 2 + 1) }
    ensures reads { ReadsAndAllocates P.Pages pages.old pages.new result }
{
    if count <= 64 {
        return collect_leaf(pages, page, count, points);
    }
    let mut bytes = blank_page();
    let mut cuts = no_cuts();
    match read_cuts(pages, page, &mut bytes, &mut cuts) {
        Err(PageFault::Disk) => Err(StageFault::Disk),
        Err(PageFault::Damaged(damaged)) => Err(StageFault::Damaged(damaged)),
        Ok(()) => match collect_cut::<B, P>(pages, page, cuts.nodes.as_slice(), count, points) {
            Err(fault) => Err(fault),
            Ok(()) => Ok(()),
        },
    }
}

// Pushes the points of a leaf of so many.
fn collect_leaf<P: Pages>(
    pages: &mut P,
    page: u64,
    count: u32,
    points: &mut Vec<Point>,
) -> Result<(), StageFault>
    ensures points { OnOk result (IsTrue (P.tells pages.old) → (held : List Point) → HoldsLeaf (P.map pages.old) page held
        → points.new.items ≡ points.old.items ++ held) }
    ensures there { OnOk result (IsTrue (P.tells pages.old) → (held : List Point) × HoldsLeaf (P.map pages.old) page held
        × (length held ≡ count) × (1 ≤ count) × (points.new.items ≡ points.old.items ++ held)) }
    ensures count { OnOk result (length points.new.items ≡ length points.old.items + count) }
    ensures damaged { (damaged : ℕ) → result ≡ Err (StageFault.Damaged damaged)
        → (damaged ≡ page) × (IsTrue (P.tells pages.old) → (held : List Point) → HoldsLeaf (P.map pages.old) page held → length held ≡ count → ⊥) }
    ensures sound { (held : List Point) (damaged : ℕ) → IsTrue (P.tells pages.old) → HoldsLeaf (P.map pages.old) page held
        → length held ≡ count → result ≢ Err (StageFault.Damaged damaged) }
    ensures ends { P.gets pages.new ≤ P.gets pages.old + 1 }
    ensures reads { ReadsAndAllocates P.Pages pages.old pages.new result }
{
    match read_leaf(pages, page, count) {
        Err(PageFault::Disk) => Err(StageFault::Disk),
        Err(PageFault::Damaged(damaged)) => Err(StageFault::Damaged(damaged)),
        Ok(leaf) => match points.extend_from_slice(leaf.points.as_slice()) {
            Err(_) => Err(StageFault::NoMemory),
            Ok(()) => Ok(()),
        },
    }
}

/// Pushes the points of the part of so many points with whose nodes these begin, which are nodes of this page. A part of at
/// most 64 points is a leaf, so it has at least one.
#[cycle(collects)]
pub fn collect_nodes<B: BorderTree, P: Pages>(
    pages: &mut P,
    page: u64,
    nodes: &[CutNode],
    count: u32,
    points: &mut Vec<Point>,
) -> Result<(), StageFault>
    ensures points { OnOk result (IsTrue (P.tells pages.old) → (part : Part) (rest : List CutNode) → nodes.now ≡ nodes_of part ++ rest
        → PartStands B.BorderTree (P.map pages.old) count part → points.new.items ≡ points.old.items ++ points_of part) }
    ensures count { OnOk result (length points.new.items ≡ length points.old.items + count) }
    ensures there { OnOk result (IsTrue (P.tells pages.old) → IsCollected (P.map pages.old) count nodes.now points.old.items points.new.items) }
    ensures sound { (part : Part) (rest : List CutNode) (damaged : ℕ) → IsTrue (P.tells pages.old) → nodes.now ≡ nodes_of part ++ rest
        → PartStands B.BorderTree (P.map pages.old) count part → result ≢ Err (StageFault.Damaged damaged) }
    ensures damaged { (damaged : ℕ) → result ≡ Err (StageFault.Damaged damaged) → IsTrue (P.tells pages.old)
        → IsDamagedForCollect (suc B.DIMS) (P.map pages.old) count (BeforePart page nodes.now) damaged }
    ensures ends { P.gets pages.new ≤ P.gets pages.old + (2 * count + 1) }
    // More closely, so that two sides take no more than the whole.
    ensures few { P.gets pages.new ≤ P.gets pages.old + (2 * count - 2 + 1) }
    ensures reads { ReadsAndAllocates P.Pages pages.old pages.new result }
{
    match nodes.first() {
        None => Err(StageFault::Damaged(page)),
        Some(CutNode::Entry { child }) => match collect_page::<B, P>(pages, *child, count, points) {
            Err(fault) => Err(fault),
            Ok(()) => Ok(()),
        },
        Some(
            CutNode::Cut {
                dimension: _,
                key: _,
                low: _,
                border: _,
            },
        ) => match collect_cut::<B, P>(pages, page, nodes, count, points) {
            Err(fault) => Err(fault),
            Ok(()) => Ok(()),
        },
    }
}

// Pushes the points of a part that is a cut, and does not begin a page there.
#[cycle(collects)]
fn collect_cut<B: BorderTree, P: Pages>(
    pages: &mut P,
    page: u64,
    nodes: &[CutNode],
    count: u32,
    points: &mut Vec<Point>,
) -> Result<(), StageFault>
    ensures points { OnOk result (IsTrue (P.tells pages.old) → (part : Part) (rest : List CutNode) → nodes.now ≡ nodes_of part ++ rest
        → PartStands B.BorderTree (P.map pages.old) count part → points.new.items ≡ points.old.items ++ points_of part) }
    ensures count { OnOk result (length points.new.items ≡ length points.old.items + count) }
    ensures sound { (part : Part) (rest : List CutNode) (damaged : ℕ) → IsTrue (P.tells pages.old) → nodes.now ≡ nodes_of part ++ rest
        → first_page part ≡ None → PartStands B.BorderTree (P.map pages.old) count part → result ≢ Err (StageFault.Damaged damaged) }
    ensures there { OnOk result (IsTrue (P.tells pages.old) → IsCollected (P.map pages.old) count nodes.now points.old.items points.new.items) }
    ensures damaged { (damaged : ℕ) → result ≡ Err (StageFault.Damaged damaged) → IsTrue (P.tells pages.old)
        → IsDamagedForCollect (suc B.DIMS) (P.map pages.old) count (BeforeCut page nodes.now) damaged }
    // Its own page is read before.
    ensures ends { P.gets pages.new ≤ P.gets pages.old + (2 * count - 2) }
    ensures reads { ReadsAndAllocates P.Pages pages.old pages.new result }
{
    laws_of_borders::<B>();
    let Some((first, rest)) = nodes.split_first() else {
        return Err(StageFault::Damaged(page));
    };
    let CutNode::Cut {
        dimension,
        key: _,
        low,
        border,
    } = first
    else {
        return Err(StageFault::Damaged(page));
    };
    if !is_sound::<B>(count, *dimension, *low, border) {
        return Err(StageFault::Damaged(page));
    }
    match collect_nodes::<B, P>(pages, page, rest, *low, points) {
        Err(fault) => Err(fault),
        Ok(()) => {
            let high = after_part(rest);
            match collect_nodes::<B, P>(pages, page, high, count - *low, points) {
                Err(fault) => Err(fault),
                Ok(()) => Ok(()),
            }
        }
    }
}

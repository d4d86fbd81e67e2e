//! A tree of cuts, and a part of one, built of points.
ghost use Rattle.std.specs.Prelude.{◌≡◌, ◌+◌, ◌-◌, ◌*◌, ◌^◌, ◌<◌, ◌≤◌, ℕ, suc, Err, IsTrue, IfOk, IsPermutation, length};
ghost use Rattle.ports.specs.Calls.{Grows};
ghost use Rattle.page_layout.specs.TreeValue.{IsTreeTyped, tree_fits};
ghost use Rattle.cut_parts.specs.Borders.{IsBuiltOf, MayBeBuilt};
ghost use Rattle.cut_parts.specs.Standing.{CutsBalanced, CutsStand, cuts_share, tree_pages};
ghost use Rattle.cut_parts.specs.Standing as standing;
ghost use Rattle.ba_tree.specs.Building.{ArePushed, Builds, IsBorderBuilt, pages_of_borders};
ghost use Rattle.ba_tree.specs.Built.{IsBuiltAt, IsBuiltBehind};

use arrayvec::ArrayVec;
use bw_types::{Point, Tree};
use cut_parts::{BorderTree, border_points, make_cuts, make_leaf, median_cut};
use page_layout::{CutNode, CutPage};
use ports::{Stage, StageFault};
use std::alloc::Global;

// The most points of a leaf.
const LEAF_POINTS: usize = 64;

// The most points of a low side whose cut has the empty border: those of a leaf.
const BORDERLESS: usize = LEAF_POINTS;

// How many times the points of a page are halved at most: a page has up to 64 entries.
const HALVINGS: u8 = 6;

/// Builds a tree of points, which may come back in another order. No points give the empty tree.
///
/// At most `length * cuts_share(length)` pages are given out: two a point for leaves and pages of cuts, and at each depth those of
/// the borders there. After a refusal the stage is to be abandoned. `Disk` comes only where the count of faults rose, `PageLimit`
/// only where as many pages are given out as the limit allows, and `Damaged` only where the free pages are not in order.
pub fn build<B: BorderTree, S: Stage>(
    alloc: Global,
    stage: &mut S,
    points: &mut [Point],
) -> Result<Tree, StageFault>
    requires points { MayBeBuilt (suc B.DIMS) points.old }
    ensures permutation { IsPermutation points.old points.new }
    ensures built { IfOk result (λ tree. IsTrue (S.tells stage.old)
        → IsBuiltOf (CutsStand B.BorderTree) (tree_pages B.BorderTree) (CutsBalanced B.BorderTree) (S.map stage.old) (S.map stage.new) tree points.old) }
    ensures count { IfOk result (λ tree. tree.count ≡ length points.old) }
    ensures rules { IfOk result (λ tree. IsTrue (tree_fits tree)) }
    ensures typed { IfOk result (λ tree. IsTreeTyped tree) }
    ensures damaged { (page : ℕ) → result ≡ Err (StageFault.Damaged page) → IsTrue (S.tells stage.old) → ¬ S.free_in_order stage.old }
    // Where the stage does not tell its map, the number of pages is not bounded.
    ensures grows { Grows S.Pages (S.allotted stage.new + 1) stage.old stage.new result }
    ensures few { IsTrue (S.tells stage.old)
        → Grows S.Pages (length points.old * cuts_share B.BorderTree (length points.old)) stage.old stage.new result }
{
    if points.is_empty() {
        return Ok(Tree::default());
    }
    let count = points.len() as u32;
    let levels = levels_of(points.len());
    let root = build_page::<B, S>(alloc, stage, points)?;
    Ok(Tree {
        root,
        levels,
        count,
        changes: 0,
        last: 0,
    })
}

// The level byte of a tree of so many points.
fn levels_of(count: usize) -> u8
    requires { 1 ≤ count }
    ensures { result ≡ standing.levels_of count }
{
    if count <= LEAF_POINTS { 1 } else { 2 }
}

/// Builds a part that begins with a page of its own: a leaf, or a page of cuts, and all below it. It answers this page.
///
/// As `build`, of at least one point.
pub fn build_part<B: BorderTree, S: Stage>(
    alloc: Global,
    stage: &mut S,
    points: &mut [Point],
) -> Result<u64, StageFault>
    requires some { 1 ≤ length points.old }
    requires points { MayBeBuilt (suc B.DIMS) points.old }
    ensures permutation { IsPermutation points.old points.new }
    ensures number { IfOk result (λ page. 3 ≤ page) }
    ensures built { IfOk result (λ page. IsTrue (S.tells stage.old) → IsBuiltAt B.BorderTree points.old (S.map stage.old) (S.map stage.new) page) }
    ensures damaged { (page : ℕ) → result ≡ Err (StageFault.Damaged page) → IsTrue (S.tells stage.old) → ¬ S.free_in_order stage.old }
    ensures grows { Grows S.Pages (S.allotted stage.new + 1) stage.old stage.new result }
    ensures few { IsTrue (S.tells stage.old)
        → Grows S.Pages (length points.old * cuts_share B.BorderTree (length points.old)) stage.old stage.new result }
{
    build_page::<B, S>(alloc, stage, points)
}

// As `build_part`, with the pages counted: one for each leaf and at most one for each cut, and those of the borders.
#[cycle(builds)]
fn build_page<B: BorderTree, S: Stage>(
    alloc: Global,
    stage: &mut S,
    points: &mut [Point],
) -> Result<u64, StageFault>
    requires some { 1 ≤ length points.old }
    requires points { MayBeBuilt (suc B.DIMS) points.old }
    ensures permutation { IsPermutation points.old points.new }
    ensures number { IfOk result (λ page. 3 ≤ page) }
    ensures built { IfOk result (λ page. IsTrue (S.tells stage.old) → IsBuiltAt B.BorderTree points.old (S.map stage.old) (S.map stage.new) page) }
    ensures builds { Builds S.Pages (2 * length points.old - 1 + pages_of_borders B.BorderTree (length points.old)) stage.old stage.new result }
{
    if points.len() <= LEAF_POINTS {
        return make_leaf(stage, points);
    }
    B::border_laws();
    let least = most_below(points.len());
    let mut page = CutPage {
        nodes: ArrayVec::new(),
    };
    build_cut::<B, S>(alloc, stage, points, least, HALVINGS, &mut page)?;
    make_cuts(stage, &page)
}

// The greatest number of points of a part of lower rank than one of so many points: the greatest power of 64 below their number.
fn most_below(count: usize) -> usize
    requires many { 64 < count }
    requires few { count ≤ 2 ^ 31 }
    ensures power { (rank : ℕ) × (result ≡ 64 ^ suc rank) }
    ensures least { 64 ≤ result }
    ensures below { result < count }
    ensures most { count ≤ result * 64 }
{
    let mut most = LEAF_POINTS;
    while most * 64 < count {
        most *= 64;
    }
    most
}

// Puts the nodes of a part of the points last on the page: those of its cuts, or where it has at most `least` points the entry of
// a part that begins with a page of its own.
#[cycle(builds)]
fn build_nodes<B: BorderTree, S: Stage>(
    alloc: Global,
    stage: &mut S,
    points: &mut [Point],
    least: usize,
    halvings: u8,
    page: &mut CutPage,
) -> Result<(), StageFault>
    requires some { 1 ≤ length points.old }
    requires points { MayBeBuilt (suc B.DIMS) points.old }
    requires least { 64 ≤ least }
    requires halvings { halvings ≤ 6 }
    requires most { length points.old ≤ least * 2 ^ halvings }
    requires room { length page.old.nodes.items + 2 * 2 ^ halvings ≤ 130 }
    ensures permutation { IsPermutation points.old points.new }
    ensures pushed { IfOk result (λ done. ArePushed page.old.nodes.items page.new.nodes.items 1 (2 * 2 ^ halvings)) }
    ensures built { IfOk result (λ done. IsTrue (S.tells stage.old)
        → IsBuiltBehind B.BorderTree points.old (S.map stage.old) (S.map stage.new) page.old.nodes.items page.new.nodes.items) }
    ensures builds { Builds S.Pages (2 * length points.old - 1 + pages_of_borders B.BorderTree (length points.old)) stage.old stage.new result }
{
    if points.len() > least {
        return build_cut::<B, S>(alloc, stage, points, least, halvings, page);
    }
    let child = build_page::<B, S>(alloc, stage, points)?;
    page.nodes.push(CutNode::Entry { child });
    Ok(())
}

// Puts the nodes of a part of the points, which is cut in two halves, last on the page.
#[cycle(builds)]
fn build_cut<B: BorderTree, S: Stage>(
    alloc: Global,
    stage: &mut S,
    points: &mut [Point],
    least: usize,
    halvings: u8,
    page: &mut CutPage,
) -> Result<(), StageFault>
    requires many { least < length points.old }
    requires points { MayBeBuilt (suc B.DIMS) points.old }
    requires least { 64 ≤ least }
    requires halvings { halvings ≤ 6 }
    requires most { length points.old ≤ least * 2 ^ halvings }
    requires room { length page.old.nodes.items + 2 * 2 ^ halvings ≤ 130 }
    ensures permutation { IsPermutation points.old points.new }
    ensures pushed { IfOk result (λ done. ArePushed page.old.nodes.items page.new.nodes.items 3 (2 * 2 ^ halvings)) }
    ensures built { IfOk result (λ done. IsTrue (S.tells stage.old)
        → IsBuiltBehind B.BorderTree points.old (S.map stage.old) (S.map stage.new) page.old.nodes.items page.new.nodes.items) }
    ensures builds { Builds S.Pages (2 * length points.old - 2 + pages_of_borders B.BorderTree (length points.old)) stage.old stage.new result }
{
    B::border_laws();
    let half = points.len() / 2;
    let (dimension, key) = median_cut(points, B::DIMS + 1);
    let (lows, highs) = points.split_at_mut(half);
    let border = build_border::<B, S>(alloc, stage, lows, dimension)?;
    page.nodes.push(CutNode::Cut {
        dimension,
        key,
        low: half as u32,
        border,
    });
    build_nodes::<B, S>(alloc, stage, lows, least, halvings - 1, page)?;
    build_nodes::<B, S>(alloc, stage, highs, least, halvings - 1, page)
}

// The border of a cut, over the points of its low side without the cut's dimension. It is empty where these points are a leaf.
fn build_border<B: BorderTree, S: Stage>(
    alloc: Global,
    stage: &mut S,
    lows: &[Point],
    dimension: u8,
) -> Result<Tree, StageFault>
    requires dimension { dimension < suc B.DIMS }
    requires points { MayBeBuilt (suc B.DIMS) lows.now }
    ensures built { IfOk result (λ border. IsTrue (S.tells stage.old) → IsBorderBuilt B.BorderTree dimension lows.now (S.map stage.old) (S.map stage.new) border) }
    ensures rules { IfOk result (λ border. IsTrue (tree_fits border)) }
    ensures typed { IfOk result (λ border. IsTreeTyped border) }
    ensures builds { Builds S.Pages (length lows.now * B.share (length lows.now)) stage.old stage.new result }
{
    B::border_laws();
    if lows.len() <= BORDERLESS {
        return Ok(Tree::default());
    }
    match border_points(alloc, lows, dimension) {
        Err(_) => Err(StageFault::NoMemory),
        Ok(mut points) => B::build(alloc, stage, points.as_mut_slice()),
    }
}

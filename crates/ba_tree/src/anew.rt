//! A part that is made anew.
ghost use Rattle.std.specs.Prelude.{◌≡◌, ◌+◌, ◌-◌, ◌*◌, ◌^◌, ◌≤◌, ◌<◌, ◌⊎◌, ◌++◌, [], ℕ, suc, List, length, drop, Err, IsTrue, IfOk, OnOk, IsPermutation};
ghost use Rattle.bw_types.specs.declared.point.Point.{Point};
ghost use Rattle.ports.specs.Calls.{Changes, Grows};
ghost use Rattle.ports.specs.Frame.{Replaces};
ghost use Rattle.page_layout.specs.Footprint.{NamesNoneTwice};
ghost use Rattle.page_layout.specs.declared.cut_page.CutNode.{CutNode};
ghost use Rattle.dom_index.specs.Points.{AreKeysBelow};
ghost use Rattle.cut_parts.specs.Borders.{MayBeBuilt, OthersStay};
ghost use Rattle.cut_parts.specs.Damage.{BeforePart};
ghost use Rattle.cut_parts.specs.Parts.{Part, points_of};
ghost use Rattle.cut_parts.specs.Reach.{IsDamagedAnew, IsDamagedForCollect, IsDamagedForDrop, IsDropped, IsOfPartThere, MayNotBeBuilt};
ghost use Rattle.cut_parts.specs.Spelling.{nodes_of};
ghost use Rattle.cut_parts.specs.Standing.{PartStands, cuts_share, part_pages};
ghost use Rattle.cut_parts.specs.Nodes.{AreNodes};
ghost use Rattle.ba_tree.specs.Additions.{IsGrownIn, MayBegin, MayTake};
ghost use Rattle.ba_tree.specs.Built.{IsBuiltAt};
ghost use Rattle.ba_tree.specs.Collected.{IsCollected};
ghost use Rattle.ba_tree.specs.Going.{GoesWell};

use crate::building::build_part;
use crate::collecting::collect_nodes;
use crate::dropping::drop_nodes;
use bw_types::Point;
use cut_parts::{BorderTree, may_be_built, replace_part};
use page_layout::CutPage;
use ports::{Stage, StageFault};
use std::alloc::Global;

/// Makes the part of so many points anew whose nodes begin at this place, with one point more: its points are collected, all its
/// pages and borders are freed, and a part is built whose entry takes the place of the nodes.
///
/// `Damaged` carries what collecting or dropping the part calls damaged, or the page of the nodes, where no tree may be built of its
/// points and the new one.
pub(crate) fn part_anew<B: BorderTree, S: Stage>(
    alloc: Global,
    stage: &mut S,
    page: u64,
    cuts: &mut CutPage,
    place: usize,
    count: u32,
    point: &Point,
) -> Result<(), StageFault>
    requires place { place < length cuts.old.nodes.items }
    requires nodes { AreNodes cuts.old.nodes.items }
    requires keys { AreKeysBelow (suc B.DIMS) point.now.keys }
    requires version { point.now.version < 2 ^ 32 - 1 }
    ensures added { OnOk result (IsTrue (S.tells stage.old) → (part : Part) (front rest : List CutNode)
        → cuts.old.nodes.items ≡ front ++ (nodes_of part ++ rest) → place ≡ length front → MayTake B.BorderTree (S.map stage.old) count part point.now
        → IsGrownIn B.BorderTree (S.map stage.old) (S.map stage.new) count part point.now cuts.new.nodes.items front rest) }
    ensures nodes { OnOk result (AreNodes cuts.new.nodes.items) }
    ensures apart { OnOk result (IsTrue (S.tells stage.old)
        → OthersStay (IsOfPartThere B.BorderTree (S.map stage.old) count (drop place cuts.old.nodes.items)) (S.map stage.old) (S.map stage.new)) }
    ensures begins { OnOk result (IsTrue (S.tells stage.old)
        → MayBegin (IsOfPartThere B.BorderTree (S.map stage.old) count (drop place cuts.old.nodes.items)) (S.map stage.old) cuts.old.nodes.items cuts.new.nodes.items) }
    ensures damaged { (damaged : ℕ) → result ≡ Err (StageFault.Damaged damaged) → IsTrue (S.tells stage.old)
        → IsDamagedAnew B.BorderTree point.now damaged (S.map stage.old) count page (drop place cuts.old.nodes.items) ⊎ (¬ S.free_in_order stage.old) }
    ensures well { IsTrue (S.tells stage.old) → (part : Part) (front rest : List CutNode)
        → cuts.old.nodes.items ≡ front ++ (nodes_of part ++ rest) → place ≡ length front → MayTake B.BorderTree (S.map stage.old) count part point.now
        → GoesWell S.Pages ((count + 1) * cuts_share B.BorderTree (count + 1)) stage.old stage.new result }
    ensures changes { Changes S.Pages (S.allotted stage.new + 1) stage.old stage.new result }
{
    B::border_laws();
    let mut points = Vec::new(alloc);
    match take_part::<B, S>(stage, page, cuts, place, count, &mut points) {
        Err(fault) => return Err(fault),
        Ok(()) => {}
    }
    match points.push(*point) {
        Err(_) => return Err(StageFault::NoMemory),
        Ok(()) => {}
    }
    match build_again::<B, S>(alloc, stage, page, points.as_mut_slice()) {
        Err(fault) => Err(fault),
        Ok(child) => {
            replace_part(cuts, place, child);
            Ok(())
        }
    }
}

// Builds a part of points, where one may be built of them.
fn build_again<B: BorderTree, S: Stage>(
    alloc: Global,
    stage: &mut S,
    page: u64,
    points: &mut [Point],
) -> Result<u64, StageFault>
    requires { 1 ≤ length points.old }
    ensures number { IfOk result (λ child. 3 ≤ child) }
    ensures built { IfOk result (λ child. IsTrue (S.tells stage.old) → (few : List Point) → IsPermutation points.old few
        → IsBuiltAt B.BorderTree few (S.map stage.old) (S.map stage.new) child) }
    ensures damaged { (damaged : ℕ) → result ≡ Err (StageFault.Damaged damaged) → IsTrue (S.tells stage.old)
        → ((damaged ≡ page) × MayNotBeBuilt (suc B.DIMS) points.old) ⊎ (¬ S.free_in_order stage.old) }
    ensures well { IsTrue (S.tells stage.old) → MayBeBuilt (suc B.DIMS) points.old
        → GoesWell S.Pages (length points.old * cuts_share B.BorderTree (length points.old)) stage.old stage.new result }
    ensures grows { Grows S.Pages (S.allotted stage.new + 1) stage.old stage.new result }
{
    B::border_laws();
    if !may_be_built(points, B::DIMS + 1) {
        return Err(StageFault::Damaged(page));
    }
    match build_part::<B, S>(alloc, stage, points) {
        Err(fault) => Err(fault),
        Ok(child) => Ok(child),
    }
}

// Collects the points of a part, and frees its pages and borders.
fn take_part<B: BorderTree, S: Stage>(
    stage: &mut S,
    page: u64,
    cuts: &CutPage,
    place: usize,
    count: u32,
    points: &mut Vec<Point>,
) -> Result<(), StageFault>
    requires place { place < length cuts.now.nodes.items }
    ensures taken { OnOk result (IsTrue (S.tells stage.old) → (part : Part) (rest : List CutNode) → drop place cuts.now.nodes.items ≡ nodes_of part ++ rest
        → PartStands B.BorderTree (S.map stage.old) count part → NamesNoneTwice (part_pages B.BorderTree (S.map stage.old) part)
        → (points.new.items ≡ points.old.items ++ points_of part) × Replaces (part_pages B.BorderTree (S.map stage.old) part) [] (S.map stage.old) (S.map stage.new)) }
    ensures there { OnOk result (IsTrue (S.tells stage.old)
        → IsCollected (S.map stage.old) count (drop place cuts.now.nodes.items) points.old.items points.new.items) }
    ensures gone { OnOk result (IsTrue (S.tells stage.old)
        → IsDropped B.BorderTree (S.map stage.old) (S.map stage.old) (S.map stage.new) count (drop place cuts.now.nodes.items)) }
    ensures damaged { (damaged : ℕ) → result ≡ Err (StageFault.Damaged damaged) → IsTrue (S.tells stage.old)
        → IsDamagedForCollect (suc B.DIMS) (S.map stage.old) count (BeforePart page (drop place cuts.now.nodes.items)) damaged
        ⊎ IsDamagedForDrop B.BorderTree (S.map stage.old) [] count (BeforePart page (drop place cuts.now.nodes.items)) damaged }
    ensures well { IsTrue (S.tells stage.old) → (part : Part) (rest : List CutNode) → drop place cuts.now.nodes.items ≡ nodes_of part ++ rest
        → PartStands B.BorderTree (S.map stage.old) count part → NamesNoneTwice (part_pages B.BorderTree (S.map stage.old) part)
        → GoesWell S.Pages 0 stage.old stage.new result }
    ensures changes { Changes S.Pages 0 stage.old stage.new result }
{
    let nodes = &cuts.nodes.as_slice()[place..];
    match collect_nodes::<B, S>(stage, page, nodes, count, points) {
        Err(fault) => Err(fault),
        Ok(()) => match drop_nodes::<B, S>(stage, page, nodes, count) {
            Err(fault) => Err(fault),
            Ok(()) => Ok(()),
        },
    }
}

//! A point that goes down the cuts of a tree.
ghost use Rattle.std.specs.Prelude.{◌≡◌, ◌+◌, ◌-◌, ◌^◌, ◌≤◌, ◌<◌, ◌⊎◌, ◌++◌, ◌∷◌, [], ℕ, suc, List, length, get_or, drop, Some, None, Err, IsTrue, IfOk, OnOk};
ghost use Rattle.ports.specs.Calls.{Changes};
ghost use Rattle.bw_types.specs.Empty.{empty_tree};
ghost use Rattle.page_layout.specs.CutPage.{cut_one};
ghost use Rattle.page_layout.specs.declared.cut_page.CutNode.{CutNode};
ghost use Rattle.page_layout.specs.declared.cut_page.CutNode.TheVariants as node;
ghost use Rattle.dom_index.specs.Becoming.{MayName};
ghost use Rattle.dom_index.specs.Points.{AreKeysBelow};
ghost use Rattle.cut_parts.specs.Borders.{OthersStay};
ghost use Rattle.cut_parts.specs.Damage.{BeforeCut, BeforePage, BeforePart};
ghost use Rattle.cut_parts.specs.Parts.{Part};
ghost use Rattle.cut_parts.specs.Reach.{IsDamagedFrom, LeadsFrom};
ghost use Rattle.cut_parts.specs.Spelling.{first_page, nodes_of};
ghost use Rattle.cut_parts.specs.Standing.{PartBalanced};
ghost use Rattle.cut_parts.specs.Nodes.{AreNodes};
ghost use Rattle.ba_tree.specs.Additions.{ChangeFits, IsAddedAs, IsGrownIn, IsTaken, MayBegin, MayTake, nodes_after};
ghost use Rattle.ba_tree.specs.Going.{GoesWell};
ghost use Rattle.ba_tree.specs.Growing.{inner_growth, page_growth};

use crate::anew::part_anew;
use crate::border::border_add;
use crate::change::Change;
use crate::leaf::{LeafCut, leaf_add, leaf_split};
use crate::sound::{entry_at, high_place, node_at};
use crate::splitting::store;
use crate::storing::stage_cuts;
use bw_types::{Point, Tree};
use cut_parts::{
    BorderTree, is_balanced, is_sound, no_cuts, replace_by_cut, replace_part, set_cut,
};
use page_layout::{CutNode, CutPage};
use ports::{Page, Stage, StageFault};
use std::alloc::Global;

/// Adds a point to the part of so many points that begins with this page. What `bytes` held does not matter; the pages on the way are
/// read and written by way of them.
#[cycle(adds)]
pub fn page_add<B: BorderTree, S: Stage>(
    alloc: Global,
    stage: &mut S,
    page: u64,
    count: u32,
    point: &Point,
    bytes: &mut Page,
) -> Result<Change, StageFault>
    requires page { 3 ≤ page }
    requires count { count < 2 ^ 31 }
    requires keys { AreKeysBelow (suc B.DIMS) point.now.keys }
    requires version { point.now.version < 2 ^ 32 - 1 }
    ensures added { IfOk result (λ change. IsTrue (S.tells stage.old) → (part : Part) → first_page part ≡ Some page
        → MayTake B.BorderTree (S.map stage.old) count part point.now
        → IsAddedAs B.BorderTree (S.map stage.old) (S.map stage.new) count part point.now (nodes_after change page)) }
    ensures fits { IfOk result ChangeFits }
    ensures few { count < 64 → IfOk result (λ change. change ≡ Change.Same) }
    ensures apart { OnOk result (IsTrue (S.tells stage.old)
        → OthersStay (LeadsFrom B.BorderTree point.now (S.map stage.old) count (BeforePage page)) (S.map stage.old) (S.map stage.new)) }
    ensures named { IfOk result (λ change. IsTrue (S.tells stage.old) → (first : ℕ) → nodes_after change page ≡ node.Entry first ∷ []
        → MayName (LeadsFrom B.BorderTree point.now (S.map stage.old) count (BeforePage page)) (S.map stage.old) page first) }
    ensures damaged { (damaged : ℕ) → result ≡ Err (StageFault.Damaged damaged) → IsTrue (S.tells stage.old)
        → IsDamagedFrom B.BorderTree point.now (S.map stage.old) count (BeforePage page) damaged ⊎ (¬ S.free_in_order stage.old) }
    ensures well { IsTrue (S.tells stage.old) → (part : Part) → first_page part ≡ Some page → MayTake B.BorderTree (S.map stage.old) count part point.now
        → PartBalanced B.BorderTree (S.map stage.old) part → GoesWell S.Pages (page_growth B.BorderTree count) stage.old stage.new result }
    ensures changes { Changes S.Pages (S.allotted stage.new + 1) stage.old stage.new result }
{
    B::border_laws();
    if count < 64 {
        return match leaf_add::<S>(stage, page, count, point) {
            Err(fault) => Err(fault),
            Ok(()) => Ok(Change::Same),
        };
    }
    if count == 64 {
        return match leaf_split::<B, S>(stage, page, point) {
            Err(fault) => Err(fault),
            Ok(cut) => Ok(raised(page, &cut)),
        };
    }
    let mut cuts = no_cuts();
    match stage_cuts::<S>(stage, page, bytes, &mut cuts) {
        Err(fault) => Err(fault),
        Ok(()) => match cut_add::<B, S>(alloc, stage, page, &mut cuts, 0, count, point, bytes) {
            Err(fault) => Err(fault),
            Ok(()) => match store::<B, S>(stage, page, &cuts, bytes) {
                Err(fault) => Err(fault),
                Ok(change) => Ok(change),
            },
        },
    }
}

// The cut of a leaf that was split, with 32 points low and no border.
fn raised(page: u64, cut: &LeafCut) -> Change
    ensures { result ≡ Change.Raised (node.Cut cut.now.dimension cut.now.key 32 empty_tree) page cut.now.high }
{
    Change::Raised {
        cut: CutNode::Cut {
            dimension: cut.dimension,
            key: cut.key,
            low: 32,
            border: Tree {
                root: 0,
                levels: 0,
                count: 0,
                changes: 0,
                last: 0,
            },
        },
        low: page,
        high: cut.high,
    }
}

// Adds a point to the part of so many points whose nodes begin at this place of the page.
#[cycle(adds)]
fn part_add<B: BorderTree, S: Stage>(
    alloc: Global,
    stage: &mut S,
    page: u64,
    cuts: &mut CutPage,
    place: usize,
    count: u32,
    point: &Point,
    bytes: &mut Page,
) -> Result<(), StageFault>
    requires count { count < 2 ^ 31 }
    requires keys { AreKeysBelow (suc B.DIMS) point.now.keys }
    requires version { point.now.version < 2 ^ 32 - 1 }
    requires nodes { AreNodes cuts.old.nodes.items }
    requires room { length cuts.old.nodes.items ≤ 127 }
    ensures added { OnOk result (IsTrue (S.tells stage.old) → (part : Part) (front rest : List CutNode)
        → cuts.old.nodes.items ≡ front ++ (nodes_of part ++ rest) → place ≡ length front → MayTake B.BorderTree (S.map stage.old) count part point.now
        → IsGrownIn B.BorderTree (S.map stage.old) (S.map stage.new) count part point.now cuts.new.nodes.items front rest) }
    ensures nodes { OnOk result (AreNodes cuts.new.nodes.items) }
    ensures apart { OnOk result (IsTrue (S.tells stage.old)
        → OthersStay (LeadsFrom B.BorderTree point.now (S.map stage.old) count (BeforePart page (drop place cuts.old.nodes.items))) (S.map stage.old) (S.map stage.new)) }
    ensures begins { OnOk result (IsTrue (S.tells stage.old)
        → MayBegin (LeadsFrom B.BorderTree point.now (S.map stage.old) count (BeforePart page (drop place cuts.old.nodes.items))) (S.map stage.old)
        cuts.old.nodes.items cuts.new.nodes.items) }
    ensures damaged { (damaged : ℕ) → result ≡ Err (StageFault.Damaged damaged) → IsTrue (S.tells stage.old)
        → IsDamagedFrom B.BorderTree point.now (S.map stage.old) count (BeforePart page (drop place cuts.old.nodes.items)) damaged ⊎ (¬ S.free_in_order stage.old) }
    ensures well { IsTrue (S.tells stage.old) → (part : Part) (front rest : List CutNode)
        → cuts.old.nodes.items ≡ front ++ (nodes_of part ++ rest) → place ≡ length front → MayTake B.BorderTree (S.map stage.old) count part point.now
        → PartBalanced B.BorderTree (S.map stage.old) part → GoesWell S.Pages (page_growth B.BorderTree count) stage.old stage.new result }
    ensures changes { Changes S.Pages (S.allotted stage.new + 1) stage.old stage.new result }
{
    B::border_laws();
    match node_at(cuts, place) {
        None => Err(StageFault::Damaged(page)),
        Some(
            CutNode::Cut {
                dimension: _,
                key: _,
                low: _,
                border: _,
            },
        ) => {
            match cut_add::<B, S>(alloc, stage, page, cuts, place, count, point, bytes) {
                Err(fault) => Err(fault),
                Ok(()) => Ok(()),
            }
        }
        Some(CutNode::Entry { child }) => {
            match page_add::<B, S>(alloc, stage, child, count, point, bytes) {
                Err(fault) => Err(fault),
                Ok(change) => {
                    take_change(cuts, place, &change);
                    Ok(())
                }
            }
        }
    }
}

// Puts into the place of an entry what an addition below it asks for.
fn take_change(cuts: &mut CutPage, place: usize, change: &Change)
    requires place { place < length cuts.old.nodes.items }
    requires room { length cuts.old.nodes.items ≤ 127 }
    requires entry { (d : CutNode) → cut_one (get_or cuts.old.nodes.items place d) ≡ 0 }
    ensures taken { IsTaken cuts.old.nodes.items cuts.new.nodes.items place change.now }
    ensures nodes { AreNodes cuts.old.nodes.items → ChangeFits change.now → AreNodes cuts.new.nodes.items }
{
    match change {
        Change::Same => {}
        Change::Moved { page } => replace_part(cuts, place, *page),
        Change::Raised { cut, low, high } => replace_by_cut(cuts, place, *cut, *low, *high),
    }
}

// The same of a part that is a cut, and does not begin a page there.
#[cycle(adds)]
fn cut_add<B: BorderTree, S: Stage>(
    alloc: Global,
    stage: &mut S,
    page: u64,
    cuts: &mut CutPage,
    place: usize,
    count: u32,
    point: &Point,
    bytes: &mut Page,
) -> Result<(), StageFault>
    requires count { count < 2 ^ 31 }
    requires keys { AreKeysBelow (suc B.DIMS) point.now.keys }
    requires version { point.now.version < 2 ^ 32 - 1 }
    requires nodes { AreNodes cuts.old.nodes.items }
    requires room { length cuts.old.nodes.items ≤ 127 }
    ensures added { OnOk result (IsTrue (S.tells stage.old) → (part : Part) (front rest : List CutNode)
        → cuts.old.nodes.items ≡ front ++ (nodes_of part ++ rest) → place ≡ length front → MayTake B.BorderTree (S.map stage.old) count part point.now
        → first_page part ≡ None
        → IsGrownIn B.BorderTree (S.map stage.old) (S.map stage.new) count part point.now cuts.new.nodes.items front rest) }
    ensures nodes { OnOk result (AreNodes cuts.new.nodes.items) }
    ensures apart { OnOk result (IsTrue (S.tells stage.old)
        → OthersStay (LeadsFrom B.BorderTree point.now (S.map stage.old) count (BeforeCut page (drop place cuts.old.nodes.items))) (S.map stage.old) (S.map stage.new)) }
    ensures begins { OnOk result (IsTrue (S.tells stage.old)
        → MayBegin (LeadsFrom B.BorderTree point.now (S.map stage.old) count (BeforeCut page (drop place cuts.old.nodes.items))) (S.map stage.old)
        cuts.old.nodes.items cuts.new.nodes.items) }
    ensures damaged { (damaged : ℕ) → result ≡ Err (StageFault.Damaged damaged) → IsTrue (S.tells stage.old)
        → IsDamagedFrom B.BorderTree point.now (S.map stage.old) count (BeforeCut page (drop place cuts.old.nodes.items)) damaged ⊎ (¬ S.free_in_order stage.old) }
    ensures well { IsTrue (S.tells stage.old) → (part : Part) (front rest : List CutNode)
        → cuts.old.nodes.items ≡ front ++ (nodes_of part ++ rest) → place ≡ length front → MayTake B.BorderTree (S.map stage.old) count part point.now
        → first_page part ≡ None
        → PartBalanced B.BorderTree (S.map stage.old) part → GoesWell S.Pages (inner_growth B.BorderTree count) stage.old stage.new result }
    ensures changes { Changes S.Pages (S.allotted stage.new + 1) stage.old stage.new result }
{
    B::border_laws();
    let Some(
        CutNode::Cut {
            dimension,
            key,
            low,
            border,
        },
    ) = node_at(cuts, place)
    else {
        return Err(StageFault::Damaged(page));
    };
    if !is_sound::<B>(count, dimension, low, &border) {
        return Err(StageFault::Damaged(page));
    }
    let goes_low = point.keys[usize::from(dimension)] < key;
    let low_after = if goes_low { low + 1 } else { low };
    if !is_balanced(count + 1, low_after) {
        return match part_anew::<B, S>(alloc, stage, page, cuts, place, count, point) {
            Err(fault) => Err(fault),
            Ok(()) => Ok(()),
        };
    }
    if !goes_low {
        let high = high_place(cuts, place);
        return match part_add::<B, S>(alloc, stage, page, cuts, high, count - low, point, bytes) {
            Err(fault) => Err(fault),
            Ok(()) => Ok(()),
        };
    }
    let leaf = entry_at(cuts, place + 1);
    match border_add::<B, S>(alloc, stage, page, leaf, dimension, low, &border, point) {
        Err(fault) => Err(fault),
        Ok(border) => {
            set_cut(
                cuts,
                place,
                CutNode::Cut {
                    dimension,
                    key,
                    low: low + 1,
                    border,
                },
            );
            match part_add::<B, S>(alloc, stage, page, cuts, place + 1, low, point, bytes) {
                Err(fault) => Err(fault),
                Ok(()) => Ok(()),
            }
        }
    }
}

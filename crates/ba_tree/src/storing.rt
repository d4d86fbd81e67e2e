//! Reading and putting pages of a stage on the way of an addition.
ghost use Rattle.std.specs.Prelude.{◌≡◌, ◌≤◌, ◌∷◌, [], ℕ, List, length, None, Err, IsTrue, IsSome, IfOk, OnOk};
ghost use Rattle.bw_types.specs.declared.point.Point.{Point};
ghost use Rattle.ports.specs.Calls.{Changes, Grows};
ghost use Rattle.ports.specs.Frame.{Replaces};
ghost use Rattle.page_layout.specs.declared.cut_page.CutNode.{CutNode};
ghost use Rattle.cut_parts.specs.Spelling.{HoldsCuts, HoldsLeaf};
ghost use Rattle.cut_parts.specs.Nodes.{AreNodes};
ghost use Rattle.ba_tree.specs.Going.{GoesWell};

use arrayvec::ArrayVec;
use bw_types::Point;
use cut_parts::{put_cuts, read_cuts, read_leaf};
use page_layout::CutPage;
use ports::{Page, PageFault, Stage, StageFault};

/// Makes `cuts` the nodes that a page holds, whatever they were. Its bytes are put into `bytes`. `Damaged` carries the page, where
/// it holds none.
pub(crate) fn stage_cuts<S: Stage>(
    stage: &mut S,
    page: u64,
    bytes: &mut Page,
    cuts: &mut CutPage,
) -> Result<(), StageFault>
    ensures found { OnOk result (IsTrue (S.tells stage.old) → HoldsCuts (S.map stage.old) page cuts.new.nodes.items) }
    ensures nodes { OnOk result (AreNodes cuts.new.nodes.items) }
    ensures many { OnOk result ((3 ≤ length cuts.new.nodes.items) × (length cuts.new.nodes.items ≤ 127)) }
    ensures map { S.map stage.new ≡ S.map stage.old }
    ensures damaged { (damaged : ℕ) → result ≡ Err (StageFault.Damaged damaged)
        → (damaged ≡ page) × (IsTrue (S.tells stage.old) → (nodes : List CutNode) → HoldsCuts (S.map stage.old) page nodes → ⊥) }
    ensures well { IsTrue (S.tells stage.old) → (nodes : List CutNode) → HoldsCuts (S.map stage.old) page nodes → GoesWell S.Pages 0 stage.old stage.new result }
    ensures grows { Grows S.Pages 0 stage.old stage.new result }
{
    match read_cuts(stage, page, bytes, cuts) {
        Err(PageFault::Disk) => Err(StageFault::Disk),
        Err(PageFault::Damaged(damaged)) => Err(StageFault::Damaged(damaged)),
        Ok(()) => Ok(()),
    }
}

/// The points that a page holds as a leaf of so many. `Damaged` carries the page, where it holds none of as many.
pub(crate) fn stage_leaf<S: Stage>(
    stage: &mut S,
    page: u64,
    count: u32,
) -> Result<ArrayVec<Point, 64>, StageFault>
    ensures found { IfOk result (λ points. IsTrue (S.tells stage.old) → HoldsLeaf (S.map stage.old) page points.items) }
    ensures counted { IfOk result (λ points. length points.items ≡ count) }
    ensures map { S.map stage.new ≡ S.map stage.old }
    ensures damaged { (damaged : ℕ) → result ≡ Err (StageFault.Damaged damaged)
        → (damaged ≡ page) × (IsTrue (S.tells stage.old) → (points : List Point) → HoldsLeaf (S.map stage.old) page points → length points ≡ count → ⊥) }
    ensures well { IsTrue (S.tells stage.old) → (points : List Point) → HoldsLeaf (S.map stage.old) page points → length points ≡ count
        → GoesWell S.Pages 0 stage.old stage.new result }
    ensures grows { Grows S.Pages 0 stage.old stage.new result }
{
    match read_leaf(stage, page, count) {
        Err(PageFault::Disk) => Err(StageFault::Disk),
        Err(PageFault::Damaged(damaged)) => Err(StageFault::Damaged(damaged)),
        Ok(leaf) => Ok(leaf.points),
    }
}

// Gets a page, so that it is known to be there: a page may be gone that was read before others were freed. It is put into `bytes`.
pub(crate) fn look_again<S: Stage>(
    stage: &mut S,
    page: u64,
    bytes: &mut Page,
) -> Result<(), StageFault>
    ensures there { OnOk result (IsTrue (S.tells stage.old) → IsSome (S.map stage.new page)) }
    ensures map { S.map stage.new ≡ S.map stage.old }
    ensures damaged { (damaged : ℕ) → result ≡ Err (StageFault.Damaged damaged) → IsTrue (S.tells stage.old)
        → (damaged ≡ page) × (S.map stage.old page ≡ None) }
    ensures well { IsTrue (S.tells stage.old) → IsSome (S.map stage.old page) → GoesWell S.Pages 0 stage.old stage.new result }
    ensures grows { Grows S.Pages 0 stage.old stage.new result }
{
    match stage.get(page, bytes) {
        Err(PageFault::Disk) => Err(StageFault::Disk),
        Err(PageFault::Damaged(damaged)) => Err(StageFault::Damaged(damaged)),
        Ok(()) => Ok(()),
    }
}

/// Overwrites a page, which is got again before. What `bytes` held does not matter.
pub(crate) fn put_again<S: Stage>(
    stage: &mut S,
    page: u64,
    cuts: &CutPage,
    bytes: &mut Page,
) -> Result<(), StageFault>
    requires nodes { AreNodes cuts.now.nodes.items }
    requires many { (3 ≤ length cuts.now.nodes.items) × (length cuts.now.nodes.items ≤ 127) }
    ensures put { OnOk result (IsTrue (S.tells stage.old) → HoldsCuts (S.map stage.new) page cuts.now.nodes.items) }
    ensures change { OnOk result (IsTrue (S.tells stage.old) → Replaces (page ∷ []) (page ∷ []) (S.map stage.old) (S.map stage.new)) }
    ensures damaged { (damaged : ℕ) → result ≡ Err (StageFault.Damaged damaged) → IsTrue (S.tells stage.old)
        → (damaged ≡ page) × (S.map stage.old page ≡ None) }
    ensures well { IsTrue (S.tells stage.old) → IsSome (S.map stage.old page) → GoesWell S.Pages 0 stage.old stage.new result }
    ensures grows { Grows S.Pages 0 stage.old stage.new result }
{
    match look_again(stage, page, bytes) {
        Err(fault) => Err(fault),
        Ok(()) => match put_cuts(stage, page, cuts, bytes) {
            Err(fault) => Err(fault),
            Ok(()) => Ok(()),
        },
    }
}

/// Frees a page, which is got again before. What `bytes` held does not matter.
pub(crate) fn free_again<S: Stage>(
    stage: &mut S,
    page: u64,
    bytes: &mut Page,
) -> Result<(), StageFault>
    ensures freed { OnOk result (IsTrue (S.tells stage.old) → Replaces (page ∷ []) [] (S.map stage.old) (S.map stage.new)) }
    ensures damaged { (damaged : ℕ) → result ≡ Err (StageFault.Damaged damaged) → IsTrue (S.tells stage.old)
        → (damaged ≡ page) × (S.map stage.old page ≡ None) }
    ensures well { IsTrue (S.tells stage.old) → IsSome (S.map stage.old page) → GoesWell S.Pages 0 stage.old stage.new result }
    ensures changes { Changes S.Pages 0 stage.old stage.new result }
{
    match look_again(stage, page, bytes) {
        Err(fault) => Err(fault),
        Ok(()) => match stage.free(page) {
            Err(fault) => Err(fault),
            Ok(()) => Ok(()),
        },
    }
}

//! Putting nodes and points into pages.
ghost use Rattle.std.specs.Prelude.{◌≡◌, ◌≢◌, ◌≤◌, ◌∷◌, [], ℕ, length, Err, IsTrue, IsSome, IfOk, OnOk};
ghost use Rattle.ports.specs.Calls.{Grows};
ghost use Rattle.ports.specs.Frame.{Replaces};
ghost use Rattle.ports.specs.Pages.{put_page};
ghost use Rattle.cut_parts.specs.Spelling.{HoldsCuts, HoldsLeaf};
ghost use Rattle.page_layout.specs.CutPage.{IsCutPage, cut_page_page};
ghost use Rattle.page_layout.specs.PointLeaf.{IsPointTyped, IsTyped};
ghost use Rattle.cut_parts.specs.Nodes.{AreNodes};

use arrayvec::ArrayVec;
use bw_types::Point;
use page_layout::{CutPage, PointLeaf, Spelled, make_page, put_page};
use ports::{Page, Stage, StageFault};

// Overwrites a page with nodes that keep their rules.
fn put_written<S: Stage>(
    stage: &mut S,
    page: u64,
    cuts: &CutPage,
    bytes: &mut Page,
) -> Result<(), StageFault>
    requires rules { IsCutPage cuts.now }
    requires in_map { IsTrue (S.tells stage.old) → IsSome (S.map stage.old page) }
    ensures ok { OnOk result (IsTrue (S.tells stage.old) → S.map stage.new ≡ put_page (S.map stage.old) page (cut_page_page cuts.now)) }
    ensures damaged { (p : ℕ) → IsTrue (S.tells stage.old) → result ≢ Err (StageFault.Damaged p) }
    ensures grows { Grows S.Pages 0 stage.old stage.new result }
{
    cuts.write(bytes);
    stage.put(page, bytes)
}

/// Overwrites a page with nodes, which are first written to `bytes`; what they held does not matter.
///
/// `Damaged` and `PageLimit` never come where the map is told.
pub fn put_cuts<S: Stage>(
    stage: &mut S,
    page: u64,
    cuts: &CutPage,
    bytes: &mut Page,
) -> Result<(), StageFault>
    requires nodes { AreNodes cuts.now.nodes.items }
    requires many { (3 ≤ length cuts.now.nodes.items) × (length cuts.now.nodes.items ≤ 127) }
    requires in_map { IsTrue (S.tells stage.old) → IsSome (S.map stage.old page) }
    ensures put { OnOk result (IsTrue (S.tells stage.old) → HoldsCuts (S.map stage.new) page cuts.now.nodes.items) }
    ensures change { OnOk result (IsTrue (S.tells stage.old) → Replaces (page ∷ []) (page ∷ []) (S.map stage.old) (S.map stage.new)) }
    ensures damaged { (p : ℕ) → IsTrue (S.tells stage.old) → result ≢ Err (StageFault.Damaged p) }
    ensures grows { Grows S.Pages 0 stage.old stage.new result }
{
    put_written(stage, page, cuts, bytes)
}

/// A new page that holds nodes.
///
/// `Damaged` comes only where the free pages are not in order.
pub fn make_cuts<S: Stage>(stage: &mut S, cuts: &CutPage) -> Result<u64, StageFault>
    requires nodes { AreNodes cuts.now.nodes.items }
    requires many { (3 ≤ length cuts.now.nodes.items) × (length cuts.now.nodes.items ≤ 127) }
    ensures number { IfOk result (λ page. 3 ≤ page) }
    ensures made { IfOk result (λ page. IsTrue (S.tells stage.old) → HoldsCuts (S.map stage.new) page cuts.now.nodes.items) }
    ensures change { IfOk result (λ page. IsTrue (S.tells stage.old) → Replaces [] (page ∷ []) (S.map stage.old) (S.map stage.new)) }
    ensures damaged { (p : ℕ) → result ≡ Err (StageFault.Damaged p) → IsTrue (S.tells stage.old) → ¬ S.free_in_order stage.old }
    ensures grows { Grows S.Pages 1 stage.old stage.new result }
{
    make_page(stage, cuts)
}

// The points in a leaf of their own.
fn leaf_of(points: &[Point]) -> PointLeaf
    requires { length points.now ≤ 64 }
    ensures points { result.points.items ≡ points.now }
    ensures next { result.next ≡ 0 }
    ensures typed { IsTyped result }
{
    let mut copy = ArrayVec::new();
    for point in points {
        is_typed(point);
        copy.push(*point);
    }
    PointLeaf {
        next: 0,
        points: copy,
    }
}

// Proves that the point's numbers are those of their types; it does nothing when it runs.
fn is_typed(point: &Point)
    ensures { IsPointTyped point.now }
{
    let [_first, _second, _third] = point.keys;
}

/// Overwrites a page with a leaf of 1 to 64 points.
///
/// `Damaged` and `PageLimit` never come where the map is told.
pub fn put_leaf<S: Stage>(stage: &mut S, page: u64, points: &[Point]) -> Result<(), StageFault>
    requires many { (1 ≤ length points.now) × (length points.now ≤ 64) }
    requires in_map { IsTrue (S.tells stage.old) → IsSome (S.map stage.old page) }
    ensures put { OnOk result (IsTrue (S.tells stage.old) → HoldsLeaf (S.map stage.new) page points.now) }
    ensures change { OnOk result (IsTrue (S.tells stage.old) → Replaces (page ∷ []) (page ∷ []) (S.map stage.old) (S.map stage.new)) }
    ensures damaged { (p : ℕ) → IsTrue (S.tells stage.old) → result ≢ Err (StageFault.Damaged p) }
    ensures grows { Grows S.Pages 0 stage.old stage.new result }
{
    put_page(stage, page, &leaf_of(points))
}

/// A new page that holds a leaf of 1 to 64 points.
///
/// `Damaged` comes only where the free pages are not in order.
pub fn make_leaf<S: Stage>(stage: &mut S, points: &[Point]) -> Result<u64, StageFault>
    requires many { (1 ≤ length points.now) × (length points.now ≤ 64) }
    ensures number { IfOk result (λ page. 3 ≤ page) }
    ensures made { IfOk result (λ page. IsTrue (S.tells stage.old) → HoldsLeaf (S.map stage.new) page points.now) }
    ensures change { IfOk result (λ page. IsTrue (S.tells stage.old) → Replaces [] (page ∷ []) (S.map stage.old) (S.map stage.new)) }
    ensures damaged { (p : ℕ) → result ≡ Err (StageFault.Damaged p) → IsTrue (S.tells stage.old) → ¬ S.free_in_order stage.old }
    ensures grows { Grows S.Pages 1 stage.old stage.new result }
{
    make_page(stage, &leaf_of(points))
}

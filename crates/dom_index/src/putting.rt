//! A point put into a chain of pages.
ghost use Rattle.std.specs.Prelude.{◌≡◌, ◌≢◌, ◌==◌, ◌≤◌, ◌<◌, ◌⊎◌, ◌^◌, false, ℕ, [], ◌∷◌, Some, None, Err, IsTrue, IfOk, OnOk, length};
ghost use Rattle.ports.specs.Calls.{Grows};
ghost use Rattle.page_layout.specs.PointLeaf.{IsPointTyped};
ghost use Rattle.dom_index.specs.Chain.{HoldsNoLeaf, IsPutFirst, LeafStands, leaf_on, page_of};

use arrayvec::ArrayVec;
use bw_types::Point;
use page_layout::{PointLeaf, make_page, put_page, read_page};
use ports::{Stage, StageFault};

/// Puts the point into the chain's first page, or into a new page before it where that is full or 0. The result is
/// the first page then.
pub fn put_first<S: Stage>(stage: &mut S, first: u64, point: &Point) -> Result<u64, StageFault>
    ensures put { IfOk result (λ root. IsTrue (S.tells stage.old) → IsPutFirst (S.map stage.old) (S.map stage.new) first root point.now) }
    ensures typed { OnOk result (IsPointTyped point.now × (first < 2 ^ 64)) }
    ensures number { IfOk result (λ root. ((root ≡ first) × (first ≢ 0)) ⊎ (3 ≤ root)) }
    ensures damaged { (page : ℕ) → result ≡ Err (StageFault.Damaged page) → IsTrue (S.tells stage.old)
        → ((page ≡ first) × (first ≢ 0) × HoldsNoLeaf (S.map stage.old) first) ⊎ (¬ S.free_in_order stage.old) }
    ensures room { IsTrue (S.tells stage.old) → first ≢ 0 → LeafStands (S.map stage.old) first
        → length (leaf_on (S.map stage.old) first).points.items < 64 → Grows S.Pages 0 stage.old stage.new result }
    ensures grows { Grows S.Pages 1 stage.old stage.new result }
{
    if first == 0 {
        return make_leaf(stage, 0, point);
    }
    let mut leaf: PointLeaf = read_page(stage, first)?;
    if leaf.points.len() == 64 {
        let root = make_leaf(stage, first, point)?;
        return Ok(root);
    }
    is_typed(point);
    leaf.points.push(*point);
    put_page(stage, first, &leaf)?;
    Ok(first)
}

// A new page of this point.
fn make_leaf<S: Stage>(stage: &mut S, next: u64, point: &Point) -> Result<u64, StageFault>
    ensures typed { OnOk result (IsPointTyped point.now) }
    ensures number { IfOk result (λ page. 3 ≤ page) }
    ensures made { IfOk result (λ page. IsTrue (S.tells stage.old) → (S.map stage.old page ≡ None)
        × (S.map stage.new page ≡ Some (page_of next (point.now ∷ [])))
        × ((p : ℕ) → (page == p) ≡ false → S.map stage.new p ≡ S.map stage.old p)) }
    ensures damaged { (p : ℕ) → result ≡ Err (StageFault.Damaged p) → IsTrue (S.tells stage.old) → ¬ S.free_in_order stage.old }
    ensures grows { Grows S.Pages 1 stage.old stage.new result }
{
    is_typed(point);
    let mut points = ArrayVec::new();
    points.push(*point);
    make_page(stage, &PointLeaf { next, points })
}

// Proves that the point's numbers are those of their types; it does nothing when it runs.
fn is_typed(point: &Point)
    ensures { IsPointTyped point.now }
{
    let [_first, _second, _third] = point.keys;
}

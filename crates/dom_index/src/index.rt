//! What an index of points owes to the crates above.
ghost use Rattle.std.specs.Prelude.{◌≡◌, ◌≢◌, ◌+◌, ◌-◌, ◌^◌, ◌<◌, ◌≤◌, ◌⊎◌, ℕ, List, [], ◌∷◌, length, Err, IsTrue, IsSome, IfOk, OnOk, OnErr, IsPermutation};
ghost use Rattle.std.specs.List.{All};
ghost use Rattle.bw_types.specs.Dominance.{dominance_sum};
ghost use Rattle.bw_types.specs.Empty.{empty_tree};
ghost use Rattle.bw_types.specs.Depths.{added_pages};
ghost use Rattle.bw_types.specs.declared.point.Point.{Point};
ghost use Rattle.bw_types.specs.declared.tree.Tree.{Tree};
ghost use Rattle.ports.specs.Calls.{Changes, OnlyReads};
ghost use Rattle.ports.specs.Frame.{AgreeOn, AreInMap, Replaces};
ghost use Rattle.ports.specs.Pages.{PageMap};
ghost use Rattle.page_layout.specs.Footprint.{NamesNoneTwice};
ghost use Rattle.page_layout.specs.TreeValue.{IsTreeTyped, tree_fits};
ghost use Rattle.dom_index.specs.Becoming.{IsTreeAfter};
ghost use Rattle.dom_index.specs.Points.{AreKeysBelow, IsNewPoint, HasRoom};

use bw_types::{Point, Tree};
use ports::{PageFault, Pages, Stage, StageFault};
use std::alloc::Global;

/// Keeps weighted points in the pages of trees, over 1 to `DIMS` dimensions.
///
/// A tree is named by its value, and read and changed over any `Pages` and `Stage`, whatever these hold.
/// The dimensions of a tree are the caller's to know.
pub trait DomIndex {
    /// The greatest number of dimensions: at most 3.
    const DIMS: u8;

    ghost DIMS: { ℕ };

    /// In these pages the tree of so many dimensions keeps exactly the points, in any order.
    ghost stands: { PageMap → ℕ → Tree → List Point → Type 0 };

    /// The pages of the tree.
    ghost footprint: { PageMap → ℕ → Tree → List ℕ };

    /// The tree is as low as the index keeps it, and so are the trees inside it.
    ghost balanced: { PageMap → ℕ → Tree → Type 0 };

    /// The most gets of a sum, from the dimensions and the number of points.
    ghost cost: { ℕ → ℕ → ℕ };

    /// The most page numbers that an addition gives out, from the dimensions, the levels and the number of points.
    ghost growth: { ℕ → ℕ → ℕ → ℕ };

    /// An addition of this point to the tree may change this page, whatever the pages hold.
    ghost may_change: { PageMap → ℕ → Tree → Point → ℕ → Type 0 };

    /// An addition of this point to the tree may make it this tree, whatever the pages hold.
    ghost may_become: { PageMap → ℕ → Tree → Point → Tree → Type 0 };

    /// What a sum at these keys and this version may call damaged.
    ghost damaged_for_sum: { PageMap → ℕ → Tree → List ℕ → ℕ → ℕ → Type 0 };

    /// What an addition of this point may call damaged, beside the free pages.
    ghost damaged_for_add: { PageMap → ℕ → Tree → Point → ℕ → Type 0 };

    /// The sum of the weights of the points whose version and first `dims` keys are at or below those given,
    /// modulo `2^128`. It takes no memory.
    ///
    /// `Disk` comes only where the count of faults rose. `Damaged` carries a page of which
    /// `damaged_for_sum` holds; it never comes where the tree stands.
    fn sum<P: Pages>(
        pages: &mut P,
        dims: u8,
        tree: &Tree,
        keys: &[u64; 3],
        version: u32,
    ) -> Result<u128, PageFault>
        requires dims { (1 ≤ dims) × (dims ≤ DIMS) }
        requires keys { AreKeysBelow dims keys.now }
        ensures sum { IfOk result (λ value. IsTrue (P.tells pages.old) → (points : List Point)
            → stands (P.map pages.old) dims tree.now points → value ≡ dominance_sum dims points keys.now version) }
        ensures damaged { (page : ℕ) → result ≡ Err (PageFault.Damaged page) → IsTrue (P.tells pages.old)
            → damaged_for_sum (P.map pages.old) dims tree.now keys.now version page }
        // Where it answers, nothing on its way is damaged.
        ensures whole { OnOk result (IsTrue (P.tells pages.old) → (page : ℕ)
            → ¬ damaged_for_sum (P.map pages.old) dims tree.now keys.now version page) }
        ensures sound { (points : List Point) (page : ℕ) → IsTrue (P.tells pages.old)
            → stands (P.map pages.old) dims tree.now points → result ≢ Err (PageFault.Damaged page) }
        // However many, where the tree does not stand.
        ensures reads { OnlyReads P.Pages (P.gets pages.new) pages.old pages.new result }
        ensures cost { IsTrue (P.tells pages.old) → (points : List Point) → stands (P.map pages.old) dims tree.now points
            → balanced (P.map pages.old) dims tree.now → P.gets pages.new ≤ P.gets pages.old + cost dims tree.now.count };

    /// Adds a point. Where the tree stood, it stands for one point more.
    ///
    /// What holds only for a point that is new to the tree says so: its keys differ in each dimension from
    /// those of all points, its version is at least theirs, and they are fewer than `2^31`. After a refusal
    /// the tree value is as it was, and the stage is to be abandoned. `Disk` comes only where the count of
    /// faults rose, `PageLimit` only where as many pages are given out as the limit allows, `NoMemory` where
    /// the stage or the index finds none. `Damaged` carries a page of which `damaged_for_add` holds, or any page where the free
    /// pages are not in order; it never comes where the tree stands and is balanced, the point is new and
    /// the free pages are in order. A point that is not new may break the tree, and is not always found.
    fn add<S: Stage>(
        alloc: Global,
        stage: &mut S,
        dims: u8,
        tree: &mut Tree,
        point: &Point,
    ) -> Result<(), StageFault>
        requires dims { (1 ≤ dims) × (dims ≤ DIMS) }
        requires keys { AreKeysBelow dims point.now.keys }
        requires version { point.now.version < 2 ^ 32 - 1 }
        ensures stands { OnOk result (IsTrue (S.tells stage.old) → (points : List Point)
            → stands (S.map stage.old) dims tree.old points → IsNewPoint dims points point.now
            → stands (S.map stage.new) dims tree.new (point.now ∷ points)) }
        ensures balanced { OnOk result (IsTrue (S.tells stage.old) → (points : List Point)
            → stands (S.map stage.old) dims tree.old points → IsNewPoint dims points point.now
            → balanced (S.map stage.old) dims tree.old → balanced (S.map stage.new) dims tree.new) }
        // The map changes exactly by the tree's pages.
        ensures change { OnOk result (IsTrue (S.tells stage.old) → (points : List Point)
            → stands (S.map stage.old) dims tree.old points → IsNewPoint dims points point.now
            → Replaces (footprint (S.map stage.old) dims tree.old) (footprint (S.map stage.new) dims tree.new)
            (S.map stage.old) (S.map stage.new)) }
        // Whatever the pages hold, those that an addition may not change stay as they are.
        ensures apart { OnOk result (IsTrue (S.tells stage.old) → (page : ℕ) → IsSome (S.map stage.old page)
            → ¬ may_change (S.map stage.old) dims tree.old point.now page → S.map stage.new page ≡ S.map stage.old page) }
        // Whatever the pages hold, the tree becomes one that the index says it may.
        ensures becomes { OnOk result (IsTrue (S.tells stage.old) → may_become (S.map stage.old) dims tree.old point.now tree.new) }
        // In two and three dimensions a tree stays one page for as long as its points fit.
        ensures low { OnOk result (IsTrue (S.tells stage.old) → (points : List Point)
            → stands (S.map stage.old) dims tree.old points → IsNewPoint dims points point.now
            → 2 ≤ dims → HasRoom tree.old → tree.new.levels ≡ 1) }
        // What a page may spell before, it may spell afterwards, whatever the pages hold.
        ensures rules { OnOk result (IsTrue (tree_fits tree.old) → IsTrue (tree_fits tree.new)) }
        ensures typed { IsTreeTyped tree.new }
        ensures unchanged { OnErr result (tree.new ≡ tree.old) }
        ensures damaged { (page : ℕ) → result ≡ Err (StageFault.Damaged page) → IsTrue (S.tells stage.old)
            → damaged_for_add (S.map stage.old) dims tree.old point.now page ⊎ (¬ S.free_in_order stage.old) }
        ensures sound { (points : List Point) (page : ℕ) → IsTrue (S.tells stage.old)
            → stands (S.map stage.old) dims tree.old points → IsNewPoint dims points point.now
            → balanced (S.map stage.old) dims tree.old → S.free_in_order stage.old → result ≢ Err (StageFault.Damaged page) }
        // However many page numbers are given out, where the tree does not stand.
        ensures changes { Changes S.Pages (S.allotted stage.new + 1) stage.old stage.new result }
        ensures growth { IsTrue (S.tells stage.old) → (points : List Point)
            → stands (S.map stage.old) dims tree.old points → IsNewPoint dims points point.now
            → balanced (S.map stage.old) dims tree.old
            → Changes S.Pages (growth dims tree.old.levels tree.old.count) stage.old stage.new result };

    /// Proves what holds of every tree that stands; it does nothing when it runs.
    fn index_laws()
        ensures dims { (1 ≤ DIMS) × (DIMS ≤ 3) }
        // Whether a tree stands and is balanced, and which pages are its own, depends on these pages alone.
        ensures by_its_pages { (pages others : PageMap) (dims : ℕ) (tree : Tree) (points : List Point) → stands pages dims tree points
            → AgreeOn (footprint pages dims tree) pages others
            → stands others dims tree points × (footprint others dims tree ≡ footprint pages dims tree) }
        ensures balance { (pages others : PageMap) (dims : ℕ) (tree : Tree) (points : List Point) → stands pages dims tree points
            → AgreeOn (footprint pages dims tree) pages others → balanced pages dims tree → balanced others dims tree }
        ensures in_map { (pages : PageMap) (dims : ℕ) (tree : Tree) (points : List Point) → stands pages dims tree points
            → AreInMap pages (footprint pages dims tree) }
        ensures once { (pages : PageMap) (dims : ℕ) (tree : Tree) (points : List Point) → stands pages dims tree points
            → NamesNoneTwice (footprint pages dims tree) }
        // The order of the points does not count.
        ensures any_order { (pages : PageMap) (dims : ℕ) (tree : Tree) (points others : List Point)
            → stands pages dims tree points → IsPermutation points others → stands pages dims tree others }
        ensures empty { (pages : PageMap) (dims : ℕ) → 1 ≤ dims → dims ≤ DIMS
            → stands pages dims empty_tree [] × (footprint pages dims empty_tree ≡ []) × balanced pages dims empty_tree }
        ensures counted { (pages : PageMap) (dims : ℕ) (tree : Tree) (points : List Point) → stands pages dims tree points
            → (tree.count ≡ length points) × (length points ≤ 2 ^ 31) × (tree.levels ≡ 0 → points ≡ []) }
        // Whatever the pages hold, an addition counts one point more, and the root is the one of before, a page that may be changed,
        // or one that was not in the map.
        ensures becoming { (pages : PageMap) (dims : ℕ) (tree new : Tree) (point : Point) → may_become pages dims tree point new
            → IsTreeAfter (may_change pages dims tree point) pages tree new }
        ensures versions { (pages : PageMap) (dims : ℕ) (tree : Tree) (points : List Point) → stands pages dims tree points
            → All (λ p. p.version < 2 ^ 32 - 1) points }
        // No index grows by more than the trees of the product.
        ensures growth { (dims levels count : ℕ) → 1 ≤ dims → dims ≤ DIMS → growth dims levels count ≤ added_pages dims count }
        ensures first { (dims count : ℕ) → 2 ≤ dims → dims ≤ DIMS → growth dims 0 count ≤ 1 }
        ensures room { (dims count : ℕ) → 2 ≤ dims → dims ≤ DIMS → count < 64 → growth dims 1 count ≡ 0 };
}

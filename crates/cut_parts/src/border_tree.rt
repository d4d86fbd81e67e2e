//! A kind of trees that are the borders of trees of one dimension more.
ghost use Rattle.std.specs.Prelude.{◌≡◌, ◌≢◌, ◌+◌, ◌-◌, ◌*◌, ◌^◌, ◌<◌, ◌≤◌, ◌⊎◌, ℕ, List, [], length, Err, IsTrue, IfOk, OnOk, OnErr, IsPermutation};
ghost use Rattle.bw_types.specs.Dominance.{dominance_sum};
ghost use Rattle.bw_types.specs.declared.point.Point.{Point};
ghost use Rattle.bw_types.specs.declared.tree.Tree.{Tree};
ghost use Rattle.ports.specs.Calls.{Changes, Grows, OnlyReads};
ghost use Rattle.ports.specs.Frame.{AreInMap, Replaces};
ghost use Rattle.ports.specs.Pages.{PageMap};
ghost use Rattle.page_layout.specs.TreeValue.{IsTreeTyped, tree_fits};
ghost use Rattle.dom_index.specs.Points.{AreKeysBelow, IsNewPoint};
ghost use Rattle.cut_parts.specs.Borders.{HoldForTrees, IsBuiltOf, IsSum, MayBeBuilt, OthersStay, TakesPoint};

use bw_types::{Point, Tree};
use ports::{PageFault, Pages, Stage, StageFault};
use std::alloc::Global;

/// Trees over one or two dimensions, of which the borders of trees over one dimension more are: multiversion trees, or trees of
/// cuts over two.
///
/// A tree is named by its value, and read and changed over any `Pages` and `Stage`, whatever these hold.
pub trait BorderTree {
    /// The number of dimensions: 1 or 2.
    const DIMS: u8;

    ghost DIMS: { ℕ };

    /// In these pages the tree keeps exactly the points, in any order.
    ghost stands: { PageMap → Tree → List Point → Type 0 };

    /// The pages of the tree.
    ghost footprint: { PageMap → Tree → List ℕ };

    /// The tree is as low as its kind keeps it, and so are the trees inside it.
    ghost balanced: { PageMap → Tree → Type 0 };

    /// The most gets of a sum, from the number of points.
    ghost cost: { ℕ → ℕ };

    /// The most page numbers that an addition gives out, from the number of points before it.
    ghost growth: { ℕ → ℕ };

    /// The most page numbers a point that building gives out, from the number of points.
    ghost share: { ℕ → ℕ };

    /// What a sum at these keys and this version calls damaged.
    ghost damaged_for_sum: { PageMap → Tree → List ℕ → ℕ → ℕ → Type 0 };

    /// An addition of this point to the tree may change this page, whatever the pages hold.
    ghost may_change: { PageMap → Tree → Point → ℕ → Type 0 };

    /// What an addition of this point may call damaged, beside the free pages.
    ghost damaged_for_add: { PageMap → Tree → Point → ℕ → Type 0 };

    /// What dropping the tree may call damaged, of a map that had lost these pages before.
    ghost damaged_for_drop: { PageMap → List ℕ → Tree → ℕ → Type 0 };

    /// The sum of the weights of the points whose version and keys are at or below those given, modulo `2^128`.
    ///
    /// `Disk` comes only where the count of faults rose. `Damaged` carries a page of which `damaged_for_sum` holds; it never
    /// comes where the tree stands.
    fn sum<P: Pages>(
        pages: &mut P,
        tree: &Tree,
        keys: &[u64; 3],
        version: u32,
    ) -> Result<u128, PageFault>
        requires keys { AreKeysBelow DIMS keys.now }
        ensures sum { IsTrue (P.tells pages.old) → (points : List Point) → stands (P.map pages.old) tree.now points
            → IsSum result (dominance_sum DIMS points keys.now version) }
        ensures damaged { (page : ℕ) → result ≡ Err (PageFault.Damaged page) → IsTrue (P.tells pages.old)
            → damaged_for_sum (P.map pages.old) tree.now keys.now version page }
        // Where it answers, nothing on its way is damaged.
        ensures whole { OnOk result (IsTrue (P.tells pages.old) → (page : ℕ) → ¬ damaged_for_sum (P.map pages.old) tree.now keys.now version page) }
        // However many, where the tree does not stand.
        ensures reads { OnlyReads P.Pages (P.gets pages.new) pages.old pages.new result }
        ensures cost { IsTrue (P.tells pages.old) → (points : List Point) → stands (P.map pages.old) tree.now points
            → balanced (P.map pages.old) tree.now → P.gets pages.new ≤ P.gets pages.old + cost (length points) };

    /// Adds a point. Where the tree stood and the point is new to it, it stands for one point more.
    ///
    /// After a refusal the tree value is as it was, and the stage is to be abandoned. `Damaged` never comes where the tree
    /// stands and is balanced, the point is new and the free pages are in order.
    fn add<S: Stage>(
        alloc: Global,
        stage: &mut S,
        tree: &mut Tree,
        point: &Point,
    ) -> Result<(), StageFault>
        requires keys { AreKeysBelow DIMS point.now.keys }
        requires version { point.now.version < 2 ^ 32 - 1 }
        ensures added { OnOk result (IsTrue (S.tells stage.old) → (points : List Point) → stands (S.map stage.old) tree.old points
            → IsNewPoint DIMS points point.now → TakesPoint stands footprint balanced (S.map stage.old) (S.map stage.new) tree.old tree.new points point.now) }
        // Whatever the pages hold, those that an addition may not change stay as they are.
        ensures apart { OnOk result (IsTrue (S.tells stage.old)
            → OthersStay (may_change (S.map stage.old) tree.old point.now) (S.map stage.old) (S.map stage.new)) }
        ensures count { OnOk result (tree.new.count ≡ tree.old.count + 1) }
        ensures rules { OnOk result (IsTrue (tree_fits tree.old) → IsTrue (tree_fits tree.new)) }
        ensures typed { IsTreeTyped tree.new }
        ensures unchanged { OnErr result (tree.new ≡ tree.old) }
        ensures damaged { (page : ℕ) → result ≡ Err (StageFault.Damaged page) → IsTrue (S.tells stage.old)
            → damaged_for_add (S.map stage.old) tree.old point.now page ⊎ (¬ S.free_in_order stage.old) }
        ensures sound { (points : List Point) (page : ℕ) → IsTrue (S.tells stage.old) → stands (S.map stage.old) tree.old points
            → IsNewPoint DIMS points point.now → balanced (S.map stage.old) tree.old → S.free_in_order stage.old → result ≢ Err (StageFault.Damaged page) }
        // However many page numbers are given out, where the tree does not stand.
        ensures changes { Changes S.Pages (S.allotted stage.new + 1) stage.old stage.new result }
        ensures growth { IsTrue (S.tells stage.old) → (points : List Point) → stands (S.map stage.old) tree.old points
            → IsNewPoint DIMS points point.now → balanced (S.map stage.old) tree.old
            → Changes S.Pages (growth (length points)) stage.old stage.new result };

    /// Builds a tree of points, which may come back in another order. No points give the empty tree.
    ///
    /// `Damaged` comes only where the free pages are not in order. After a refusal the stage is to be abandoned.
    fn build<S: Stage>(
        alloc: Global,
        stage: &mut S,
        points: &mut [Point],
    ) -> Result<Tree, StageFault>
        requires points { MayBeBuilt DIMS points.old }
        ensures permutation { IsPermutation points.old points.new }
        ensures built { IfOk result (λ tree. IsTrue (S.tells stage.old)
            → IsBuiltOf stands footprint balanced (S.map stage.old) (S.map stage.new) tree points.old) }
        ensures count { IfOk result (λ tree. tree.count ≡ length points.old) }
        ensures rules { IfOk result (λ tree. IsTrue (tree_fits tree)) }
        ensures typed { IfOk result (λ tree. IsTreeTyped tree) }
        ensures damaged { (page : ℕ) → result ≡ Err (StageFault.Damaged page) → IsTrue (S.tells stage.old) → ¬ S.free_in_order stage.old }
        // Where the stage does not tell its map, the number of pages is not bounded.
        ensures grows { Grows S.Pages (S.allotted stage.new + 1) stage.old stage.new result }
        ensures few { IsTrue (S.tells stage.old) → Grows S.Pages (length points.old * share (length points.old)) stage.old stage.new result };

    /// Frees the pages of a tree, and no other.
    ///
    /// `Damaged` never comes where the tree stands, `PageLimit` never, and `NoMemory` only from the stage. After a refusal the stage
    /// is to be abandoned.
    fn drop_tree<S: Stage>(stage: &mut S, tree: &Tree) -> Result<(), StageFault>
        ensures dropped { OnOk result (IsTrue (S.tells stage.old) → (points : List Point) → stands (S.map stage.old) tree.now points
            → Replaces (footprint (S.map stage.old) tree.now) [] (S.map stage.old) (S.map stage.new)) }
        // Whatever the pages hold, and of whatever map this was before other pages were freed: the tree's pages were all still there,
        // and are gone; nothing else changed.
        ensures gone { OnOk result (IsTrue (S.tells stage.old) → (first : PageMap) (freed : List ℕ) → Replaces freed [] first (S.map stage.old)
            → AreInMap (S.map stage.old) (footprint first tree.now)
            × Replaces (footprint first tree.now) [] (S.map stage.old) (S.map stage.new)) }
        ensures damaged { (page : ℕ) → result ≡ Err (StageFault.Damaged page) → IsTrue (S.tells stage.old)
            → (first : PageMap) (freed : List ℕ) → Replaces freed [] first (S.map stage.old) → damaged_for_drop first freed tree.now page }
        ensures sound { (points : List Point) (page : ℕ) → IsTrue (S.tells stage.old) → stands (S.map stage.old) tree.now points
            → result ≢ Err (StageFault.Damaged page) }
        ensures changes { Changes S.Pages 0 stage.old stage.new result };

    /// Proves what holds of every tree of the kind; it does nothing when it runs.
    fn border_laws()
        ensures dims { (1 ≤ DIMS) × (DIMS ≤ 2) }
        ensures laws { HoldForTrees stands footprint balanced cost growth share };
}

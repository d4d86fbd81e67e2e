//! Entering a batch of objects.
ghost use Rattle.std.specs.Prelude.{◌≡◌, ◌≢◌, ◌+◌, ◌-◌, ◌^◌, ◌<◌, ◌≤◌, ◌⊎◌, ◌++◌, [], ◌∷◌, ℕ, List, length, nat_abs, Err, IsTrue, IsSome, IfOk, OnOk, OnErr};
ghost use Rattle.std.specs.List.{All};
ghost use Rattle.bw_types.specs.Fits.{IsInRange};
ghost use Rattle.bw_types.specs.declared.point.Point.{Point};
ghost use Rattle.ports.specs.Calls.{Changes};
ghost use Rattle.page_layout.specs.TreeValue.{tree_fits};
ghost use Rattle.corner_weights.specs.PlaneSums.{Entered};
ghost use Rattle.corner_weights.specs.Powers.{ArePowersOf};
ghost use Rattle.dom_index.specs.Points.{AreKeysBelow};
ghost use Rattle.corner_forest.specs.BatchDamage.{IsDamagedForBatch};
ghost use Rattle.corner_forest.specs.BatchPowers.{ArePowersOfFirst, HaveSmallWeights};
ghost use Rattle.corner_forest.specs.Enters.{CanEnter, ForestEnters, HaveRoom, MayEnter, all_entered_at, batch_growth, entered_at, first_pages};
ghost use Rattle.corner_forest.specs.Entries.{added_points, batch_points, corner_count, point_count as count_of_points, root_count};
ghost use Rattle.corner_forest.specs.Stands.{AreBalanced};

use crate::entry::Entry;
use crate::forest::{Forest, corner_count, root_count};
use crate::points::entry_point;
use arrayvec::ArrayVec;
use bw_types::{Params, Point, Tree};
use corner_weights::{BoxPowers, box_powers};
use dom_index::{DomIndex, add_all};
use ports::{Stage, StageFault};
use std::alloc::Global;

/// Adds the corner points of the batch's objects to every tree, with the opposite weights where `minus`, all from this
/// version on: all of them, or none.
///
/// The objects keep the rules of the forest's params, the index has as many dimensions, each event is below `2^28` and
/// `version` below `2^32 - 1`. The batch goes tree by tree, and each tree gets its points as one list. Where the forest
/// stood for entries after all of which those of the batch come, each after the ones before it, it stands for all of
/// them, and the pages change exactly by those of the trees. After a refusal the forest is as it was, and the stage is
/// to be abandoned. `Disk` comes only where the count of faults rose, `PageLimit` only where as many pages are given
/// out as the limit allows, `NoMemory` where the stage, the index or the list of points finds none; `Damaged` never
/// comes where the forest stands, its trees are balanced, the entries are the next ones and the free pages are in order.
pub fn enter<X: DomIndex, S: Stage>(
    alloc: Global,
    stage: &mut S,
    forest: &mut Forest,
    batch: &[Entry],
    version: u32,
) -> Result<(), StageFault>
    requires in_range { IsInRange forest.old.params }
    requires dims { forest.old.params.dims ≤ X.DIMS }
    requires roots { length forest.old.roots.items ≡ root_count forest.old.params }
    requires batch { All (CanEnter forest.old.params) batch.now }
    requires version { version < 2 ^ 32 - 1 }
    ensures params { forest.new.params ≡ forest.old.params }
    ensures roots { length forest.new.roots.items ≡ root_count forest.old.params }
    ensures enters { OnOk result (IsTrue (S.tells stage.old) → (entries : List Entered)
        → MayEnter X.DomIndex (S.map stage.old) forest.old.params forest.old.roots.items entries (all_entered_at version batch.now)
        → ForestEnters X.DomIndex forest.old.params (S.map stage.old) (S.map stage.new) forest.old.roots.items forest.new.roots.items
        entries (all_entered_at version batch.now)) }
    // What a page may spell before, it may spell afterwards, whatever the pages hold.
    ensures rules { OnOk result (All (λ t. IsTrue (tree_fits t)) forest.old.roots.items → All (λ t. IsTrue (tree_fits t)) forest.new.roots.items) }
    ensures unchanged { OnErr result (forest.new ≡ forest.old) }
    ensures sound { (entries : List Entered) (page : ℕ) → IsTrue (S.tells stage.old)
        → MayEnter X.DomIndex (S.map stage.old) forest.old.params forest.old.roots.items entries (all_entered_at version batch.now)
        → AreBalanced X.DomIndex (S.map stage.old) forest.old.params forest.old.roots.items
        → S.free_in_order stage.old → result ≢ Err (StageFault.Damaged page) }
    ensures damaged { (page : ℕ) → result ≡ Err (StageFault.Damaged page) → IsTrue (S.tells stage.old)
        → IsDamagedForBatch X.DomIndex forest.old.params (all_entered_at version batch.now) forest.old.roots.items (S.map stage.old) page
        ⊎ (¬ S.free_in_order stage.old) }
    // However many page numbers are given out, where the forest does not stand.
    ensures changes { Changes S.Pages (S.allotted stage.new + 1) stage.old stage.new result }
    // Entry by entry, each after the ones before it.
    ensures growth { IsTrue (S.tells stage.old) → (entries : List Entered)
        → MayEnter X.DomIndex (S.map stage.old) forest.old.params forest.old.roots.items entries (all_entered_at version batch.now)
        → AreBalanced X.DomIndex (S.map stage.old) forest.old.params forest.old.roots.items
        → Changes S.Pages (batch_growth forest.old.params (length entries) (length batch.now)) stage.old stage.new result }
    // In two and three dimensions trees of one page at most take a page each at their first point, and then none as
    // long as there is room on it.
    ensures small_growth { IsTrue (S.tells stage.old) → (entries : List Entered)
        → MayEnter X.DomIndex (S.map stage.old) forest.old.params forest.old.roots.items entries (all_entered_at version batch.now)
        → AreBalanced X.DomIndex (S.map stage.old) forest.old.params forest.old.roots.items
        → 2 ≤ forest.old.params.dims → HaveRoom forest.old.params (length batch.now) forest.old.roots.items
        → Changes S.Pages (first_pages forest.old.params forest.old.roots.items) stage.old stage.new result }
    ensures one_page { OnOk result (IsTrue (S.tells stage.old) → (entries : List Entered)
        → MayEnter X.DomIndex (S.map stage.old) forest.old.params forest.old.roots.items entries (all_entered_at version batch.now)
        → 2 ≤ forest.old.params.dims → HaveRoom forest.old.params (length batch.now) forest.old.roots.items → 1 ≤ length batch.now
        → All (λ t. t.levels ≡ 1) forest.new.roots.items) }
{
    let powers = powers_of(alloc, &forest.params, batch)?;
    let roots = enter_all::<X, S>(
        alloc,
        stage,
        &forest.params,
        powers.as_slice(),
        forest.roots.as_slice(),
        batch,
        version,
    )?;
    forest.roots = roots;
    Ok(())
}

// The powers of each object's box, computed once for all trees.
fn powers_of(alloc: Global, params: &Params, batch: &[Entry]) -> Result<Vec<BoxPowers>, StageFault>
    ensures powers { IfOk result (λ powers. (length powers.items ≡ length batch.now)
        × ArePowersOfFirst params.now batch.now (length batch.now) powers.items) }
    ensures small { OnOk result (HaveSmallWeights batch.now) }
    ensures memory { OnErr result (result ≡ Err StageFault.NoMemory) }
{
    let mut powers = Vec::new(alloc);
    for entry in batch {
        is_small(entry.object.weight);
        push_powers(&mut powers, box_powers(&entry.object, params))?;
    }
    Ok(powers)
}

fn push_powers(powers: &mut Vec<BoxPowers>, next: BoxPowers) -> Result<(), StageFault>
    ensures last { OnOk result (powers.new.items ≡ powers.old.items ++ (next ∷ [])) }
    ensures memory { OnErr result (result ≡ Err StageFault.NoMemory) }
{
    match powers.push(next) {
        Ok(()) => Ok(()),
        Err(_) => Err(StageFault::NoMemory),
    }
}

// Adds the batch's points in each tree.
fn enter_all<X: DomIndex, S: Stage>(
    alloc: Global,
    stage: &mut S,
    params: &Params,
    powers: &[BoxPowers],
    old: &[Tree],
    batch: &[Entry],
    version: u32,
) -> Result<ArrayVec<Tree, 96>, StageFault>
    requires in_range { IsInRange params.now }
    requires dims { params.now.dims ≤ X.DIMS }
    requires roots { length old.now ≡ root_count params.now }
    requires powers { (length powers.now ≡ length batch.now) × ArePowersOfFirst params.now batch.now (length batch.now) powers.now }
    requires small { HaveSmallWeights batch.now }
    requires batch { All (CanEnter params.now) batch.now }
    requires version { version < 2 ^ 32 - 1 }
    ensures roots { IfOk result (λ roots. length roots.items ≡ root_count params.now) }
    ensures enters { IfOk result (λ roots. IsTrue (S.tells stage.old) → (entries : List Entered)
        → MayEnter X.DomIndex (S.map stage.old) params.now old.now entries (all_entered_at version batch.now)
        → ForestEnters X.DomIndex params.now (S.map stage.old) (S.map stage.new) old.now roots.items entries
        (all_entered_at version batch.now)) }
    ensures damaged { (page : ℕ) → result ≡ Err (StageFault.Damaged page) → IsTrue (S.tells stage.old)
        → IsDamagedForBatch X.DomIndex params.now (all_entered_at version batch.now) old.now (S.map stage.old) page
        ⊎ (¬ S.free_in_order stage.old) }
    ensures rules { IfOk result (λ roots. All (λ t. IsTrue (tree_fits t)) old.now → All (λ t. IsTrue (tree_fits t)) roots.items) }
    ensures sound { (entries : List Entered) (page : ℕ) → IsTrue (S.tells stage.old)
        → MayEnter X.DomIndex (S.map stage.old) params.now old.now entries (all_entered_at version batch.now)
        → AreBalanced X.DomIndex (S.map stage.old) params.now old.now
        → S.free_in_order stage.old → result ≢ Err (StageFault.Damaged page) }
    ensures changes { Changes S.Pages (S.allotted stage.new + 1) stage.old stage.new result }
    ensures growth { IsTrue (S.tells stage.old) → (entries : List Entered)
        → MayEnter X.DomIndex (S.map stage.old) params.now old.now entries (all_entered_at version batch.now)
        → AreBalanced X.DomIndex (S.map stage.old) params.now old.now
        → Changes S.Pages (batch_growth params.now (length entries) (length batch.now)) stage.old stage.new result }
    ensures small_growth { IsTrue (S.tells stage.old) → (entries : List Entered)
        → MayEnter X.DomIndex (S.map stage.old) params.now old.now entries (all_entered_at version batch.now)
        → AreBalanced X.DomIndex (S.map stage.old) params.now old.now
        → 2 ≤ params.now.dims → HaveRoom params.now (length batch.now) old.now
        → Changes S.Pages (first_pages params.now old.now) stage.old stage.new result }
    ensures one_page { IfOk result (λ roots. IsTrue (S.tells stage.old) → (entries : List Entered)
        → MayEnter X.DomIndex (S.map stage.old) params.now old.now entries (all_entered_at version batch.now)
        → 2 ≤ params.now.dims → HaveRoom params.now (length batch.now) old.now → 1 ≤ length batch.now
        → All (λ t. t.levels ≡ 1) roots.items) }
{
    X::index_laws();
    let count = root_count(params);
    let mut roots = ArrayVec::new();
    for place in 0..count {
        let mut root = old[place];
        let points = points_of(alloc, params, powers, place as u8, batch, version)?;
        add_all::<X, S>(alloc, stage, params.dims, &mut root, points.as_slice())?;
        roots.push(root);
    }
    Ok(roots)
}

// The batch's points in this tree, in the order in which they are added.
fn points_of(
    alloc: Global,
    params: &Params,
    powers: &[BoxPowers],
    place: u8,
    batch: &[Entry],
    version: u32,
) -> Result<Vec<Point>, StageFault>
    requires in_range { IsInRange params.now }
    requires powers { (length powers.now ≡ length batch.now) × ArePowersOfFirst params.now batch.now (length batch.now) powers.now }
    requires batch { All (CanEnter params.now) batch.now }
    requires version { version < 2 ^ 32 - 1 }
    requires place { place < root_count params.now }
    ensures points { IfOk result (λ points. points.items ≡ batch_points params.now place (all_entered_at version batch.now)) }
    ensures keys { IfOk result (λ points. All (λ p. AreKeysBelow params.now.dims p.keys) points.items) }
    ensures versions { IfOk result (λ points. All (λ p. p.version < 2 ^ 32 - 1) points.items) }
    ensures memory { OnErr result (result ≡ Err StageFault.NoMemory) }
{
    let mut points = Vec::new(alloc);
    for i in 0..batch.len() {
        push_points(&mut points, params, &powers[i], place, &batch[i], version)?;
    }
    Ok(points)
}

// Puts the entry's points in this tree last, that of the last corner first.
fn push_points(
    points: &mut Vec<Point>,
    params: &Params,
    powers: &BoxPowers,
    place: u8,
    entry: &Entry,
    version: u32,
) -> Result<(), StageFault>
    requires in_range { IsInRange params.now }
    requires powers { IsSome params.now.degree → ArePowersOf params.now entry.now.object powers.now }
    requires entry { CanEnter params.now entry.now }
    requires version { version < 2 ^ 32 - 1 }
    requires place { place < root_count params.now }
    requires keys { All (λ p. AreKeysBelow params.now.dims p.keys) points.old.items }
    requires versions { All (λ p. p.version < 2 ^ 32 - 1) points.old.items }
    ensures points { OnOk result (points.new.items ≡ points.old.items ++ added_points params.now place (entered_at version entry.now)) }
    ensures keys { OnOk result (All (λ p. AreKeysBelow params.now.dims p.keys) points.new.items) }
    ensures versions { OnOk result (All (λ p. p.version < 2 ^ 32 - 1) points.new.items) }
    ensures memory { OnErr result (result ≡ Err StageFault.NoMemory) }
{
    let count = point_count(params, place);
    for i in 0..count {
        let point = entry_point(params, powers, entry, version, place, count - 1 - i);
        push_point(points, point)?;
    }
    Ok(())
}

fn push_point(points: &mut Vec<Point>, next: Point) -> Result<(), StageFault>
    ensures last { OnOk result (points.new.items ≡ points.old.items ++ (next ∷ [])) }
    ensures memory { OnErr result (result ≡ Err StageFault.NoMemory) }
{
    match points.push(next) {
        Ok(()) => Ok(()),
        Err(_) => Err(StageFault::NoMemory),
    }
}

// Proves that a weight has 64 bits; it does nothing when it runs.
fn is_small(weight: i64)
    ensures { nat_abs weight ≤ 2 ^ 63 }
{}

// How many points an entry has in this tree.
fn point_count(params: &Params, place: u8) -> u8
    requires { IsInRange params.now }
    ensures count { result ≡ count_of_points params.now place }
    ensures some { 1 ≤ result }
    ensures most { result ≤ corner_count params.now }
{
    let corners = corner_count(params);
    if place < corners { 1 } else { corners }
}

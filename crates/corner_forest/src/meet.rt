//! Sums and counts of the objects that meet a query.
ghost use Rattle.std.specs.Prelude.{◌≡◌, ◌≢◌, ◌+◌, ◌*◌, ◌^◌, ◌<◌, ◌≤◌, ◌≤ℤ◌, ◌<ℤ◌, ℕ, true, List, length, ℤ, pos, neg_ℤ, Some, Err, IsTrue, IfOk};
ghost use Rattle.bw_types.specs.Fits.{IsInRange, ends_fit};
ghost use Rattle.bw_types.specs.declared.point.Point.{Point};
ghost use Rattle.ports.specs.Calls.{OnlyReads};
ghost use Rattle.corner_weights.specs.Corners.{meet_corner as corner_to_meet};
ghost use Rattle.corner_weights.specs.Subsets.{residue_signed_by};
ghost use Rattle.corner_weights.specs.Sums.{residue_sum_below};
ghost use Rattle.corner_weights.specs.PlaneSums.{Entered};
ghost use Rattle.corner_forest.specs.Answers.{count_of, sum_of};
ghost use Rattle.corner_forest.specs.Corners.{value_at};
ghost use Rattle.corner_forest.specs.Damage.{IsDamagedAtCorners};
ghost use Rattle.corner_forest.specs.Entries.{corner_count, root_count, sum_and_count};
ghost use Rattle.corner_forest.specs.Stands.{AreBalanced, ForestStands};
ghost use Rattle.corner_forest.specs.Trees.{EachStands};

use crate::forest::{Forest, corner_count};
use bw_types::residue_laws::residues_are_signed;
use bw_types::{Params, Query, Tree, res_add, res_signed};
use corner_weights::meeting::entries_meet_by_corners;
use corner_weights::{meet_corner, sign};
use dom_index::DomIndex;
use ports::{PageFault, Pages};

/// The total weight at a version of the entries whose objects meet the query.
///
/// The query keeps the rules of the forest's params, and the index has as many dimensions. It takes no memory.
/// `Disk` comes only where the count of faults rose; `Damaged` never comes where the forest stands.
pub fn sum<X: DomIndex, P: Pages>(
    pages: &mut P,
    forest: &Forest,
    query: &Query,
    version: u32,
) -> Result<i128, PageFault>
    requires in_range { IsInRange forest.now.params }
    requires dims { forest.now.params.dims ≤ X.DIMS }
    requires roots { length forest.now.roots.items ≡ root_count forest.now.params }
    requires query { ends_fit forest.now.params query.now.low query.now.high ≡ true }
    ensures sum { IfOk result (λ value. IsTrue (P.tells pages.old) → (entries : List Entered)
        → ForestStands X.DomIndex (P.map pages.old) forest.now.params forest.now.roots.items entries
        → value ≡ sum_of forest.now.params entries version query.now) }
    ensures damaged { (page : ℕ) → result ≡ Err (PageFault.Damaged page) → IsTrue (P.tells pages.old)
        → IsDamagedAtCorners X.DomIndex (P.map pages.old) forest.now.params forest.now.roots.items query.now version page }
    ensures sound { (entries : List Entered) (page : ℕ) → IsTrue (P.tells pages.old)
        → ForestStands X.DomIndex (P.map pages.old) forest.now.params forest.now.roots.items entries → result ≢ Err (PageFault.Damaged page) }
    ensures reads { OnlyReads P.Pages (P.gets pages.new) pages.old pages.new result }
    ensures cost { IsTrue (P.tells pages.old) → (entries : List Entered)
        → ForestStands X.DomIndex (P.map pages.old) forest.now.params forest.now.roots.items entries
        → AreBalanced X.DomIndex (P.map pages.old) forest.now.params forest.now.roots.items
        → P.gets pages.new ≤ P.gets pages.old + corner_count forest.now.params * X.cost forest.now.params.dims (length entries) }
{
    let total = met_total::<X, P>(pages, forest, query, version)?;
    Ok(sum_in(total))
}

/// The number at a version of the entries whose objects meet the query.
///
/// What holds of `sum` holds of it.
pub fn count<X: DomIndex, P: Pages>(
    pages: &mut P,
    forest: &Forest,
    query: &Query,
    version: u32,
) -> Result<i128, PageFault>
    requires in_range { IsInRange forest.now.params }
    requires dims { forest.now.params.dims ≤ X.DIMS }
    requires roots { length forest.now.roots.items ≡ root_count forest.now.params }
    requires query { ends_fit forest.now.params query.now.low query.now.high ≡ true }
    ensures count { IfOk result (λ value. IsTrue (P.tells pages.old) → (entries : List Entered)
        → ForestStands X.DomIndex (P.map pages.old) forest.now.params forest.now.roots.items entries
        → value ≡ count_of forest.now.params entries version query.now) }
    ensures damaged { (page : ℕ) → result ≡ Err (PageFault.Damaged page) → IsTrue (P.tells pages.old)
        → IsDamagedAtCorners X.DomIndex (P.map pages.old) forest.now.params forest.now.roots.items query.now version page }
    ensures sound { (entries : List Entered) (page : ℕ) → IsTrue (P.tells pages.old)
        → ForestStands X.DomIndex (P.map pages.old) forest.now.params forest.now.roots.items entries → result ≢ Err (PageFault.Damaged page) }
    ensures reads { OnlyReads P.Pages (P.gets pages.new) pages.old pages.new result }
    ensures cost { IsTrue (P.tells pages.old) → (entries : List Entered)
        → ForestStands X.DomIndex (P.map pages.old) forest.now.params forest.now.roots.items entries
        → AreBalanced X.DomIndex (P.map pages.old) forest.now.params forest.now.roots.items
        → P.gets pages.new ≤ P.gets pages.old + corner_count forest.now.params * X.cost forest.now.params.dims (length entries) }
{
    let total = met_total::<X, P>(pages, forest, query, version)?;
    Ok(count_in(total))
}

// The sum in a total of which the count has 32 bits: rounded down, it is 1 too little where the count is negative.
fn sum_in(total: i128) -> i128
    ensures sum { (sum count : ℤ) → neg_ℤ (pos (2 ^ 31)) ≤ℤ count → count <ℤ pos (2 ^ 31) → total ≡ sum_and_count sum count → result ≡ sum }
{
    let whole = total.div_euclid(4294967296);
    if count_in(total) < 0 {
        whole + 1
    } else {
        whole
    }
}

// The count in such a total: its lowest 32 bits, read as a signed number.
fn count_in(total: i128) -> i128
    ensures count { (sum count : ℤ) → neg_ℤ (pos (2 ^ 31)) ≤ℤ count → count <ℤ pos (2 ^ 31) → total ≡ sum_and_count sum count → result ≡ count }
{
    let low = total.rem_euclid(4294967296);
    if low < 2147483648 {
        low
    } else {
        low - 4294967296
    }
}

// The sum and the count in one number, of the trees by subset.
fn met_total<X: DomIndex, P: Pages>(
    pages: &mut P,
    forest: &Forest,
    query: &Query,
    version: u32,
) -> Result<i128, PageFault>
    requires in_range { IsInRange forest.now.params }
    requires dims { forest.now.params.dims ≤ X.DIMS }
    requires roots { length forest.now.roots.items ≡ root_count forest.now.params }
    requires query { ends_fit forest.now.params query.now.low query.now.high ≡ true }
    ensures total { IfOk result (λ value. IsTrue (P.tells pages.old) → (entries : List Entered)
        → ForestStands X.DomIndex (P.map pages.old) forest.now.params forest.now.roots.items entries
        → value ≡ sum_and_count (sum_of forest.now.params entries version query.now)
        (count_of forest.now.params entries version query.now)) }
    ensures damaged { (page : ℕ) → result ≡ Err (PageFault.Damaged page) → IsTrue (P.tells pages.old)
        → IsDamagedAtCorners X.DomIndex (P.map pages.old) forest.now.params forest.now.roots.items query.now version page }
    ensures sound { (entries : List Entered) (page : ℕ) → IsTrue (P.tells pages.old)
        → ForestStands X.DomIndex (P.map pages.old) forest.now.params forest.now.roots.items entries → result ≢ Err (PageFault.Damaged page) }
    ensures reads { OnlyReads P.Pages (P.gets pages.new) pages.old pages.new result }
    ensures cost { IsTrue (P.tells pages.old) → (entries : List Entered)
        → ForestStands X.DomIndex (P.map pages.old) forest.now.params forest.now.roots.items entries
        → AreBalanced X.DomIndex (P.map pages.old) forest.now.params forest.now.roots.items
        → P.gets pages.new ≤ P.gets pages.old + corner_count forest.now.params * X.cost forest.now.params.dims (length entries) }
{
    entries_meet_by_corners();
    residues_are_signed();
    let corners = usize::from(corner_count(&forest.params));
    let roots = &forest.roots.as_slice()[..corners];
    let total = met::<X, P>(pages, &forest.params, roots, query, version)?;
    Ok(res_signed(total))
}

/// The signed sum, modulo `2^128`, over the subsets of what their trees say at the query's corners for meeting.
///
/// There are as many trees as subsets, the query keeps the rules of the params, and the index has as many
/// dimensions. It takes no memory. `Disk` comes only where the count of faults rose; `Damaged` never comes where
/// the trees stand.
pub fn met<X: DomIndex, P: Pages>(
    pages: &mut P,
    params: &Params,
    roots: &[Tree],
    query: &Query,
    version: u32,
) -> Result<u128, PageFault>
    requires in_range { IsInRange params.now }
    requires dims { params.now.dims ≤ X.DIMS }
    requires roots { length roots.now ≡ corner_count params.now }
    requires query { ends_fit params.now query.now.low query.now.high ≡ true }
    ensures sum { IfOk result (λ total. IsTrue (P.tells pages.old) → (points : ℕ → List Point)
        → EachStands (X.stands (P.map pages.old) params.now.dims) points 0 roots.now
        → total ≡ residue_sum_below (corner_count params.now) (λ subset. residue_signed_by subset
        (value_at params.now.dims query.now version (points subset) subset))) }
    ensures damaged { (page : ℕ) → result ≡ Err (PageFault.Damaged page) → IsTrue (P.tells pages.old)
        → IsDamagedAtCorners X.DomIndex (P.map pages.old) params.now roots.now query.now version page }
    ensures sound { (points : ℕ → List Point) (page : ℕ) → IsTrue (P.tells pages.old)
        → EachStands (X.stands (P.map pages.old) params.now.dims) points 0 roots.now → result ≢ Err (PageFault.Damaged page) }
    ensures reads { OnlyReads P.Pages (P.gets pages.new) pages.old pages.new result }
    ensures cost { IsTrue (P.tells pages.old) → (points : ℕ → List Point) (n : ℕ)
        → EachStands (X.stands (P.map pages.old) params.now.dims) points 0 roots.now
        → AreBalanced X.DomIndex (P.map pages.old) params.now roots.now
        → ((subset : ℕ) → subset < corner_count params.now → length (points subset) ≡ n)
        → P.gets pages.new ≤ P.gets pages.old + corner_count params.now * X.cost params.now.dims n }
{
    X::index_laws();
    let mut total: u128 = 0;
    for subset in 0..corner_count(params) {
        let root = &roots[usize::from(subset)];
        let value = value_at::<X, P>(pages, params, root, query, version, subset)?;
        total = res_add(total, sign(subset, value));
    }
    Ok(total)
}

// What the tree says at the query's corner of the subset; 0 where the query has none.
fn value_at<X: DomIndex, P: Pages>(
    pages: &mut P,
    params: &Params,
    root: &Tree,
    query: &Query,
    version: u32,
    subset: u8,
) -> Result<u128, PageFault>
    requires in_range { IsInRange params.now }
    requires dims { params.now.dims ≤ X.DIMS }
    requires subset { subset < 2 ^ params.now.dims }
    requires query { ends_fit params.now query.now.low query.now.high ≡ true }
    ensures value { IfOk result (λ value. IsTrue (P.tells pages.old) → (points : List Point)
        → X.stands (P.map pages.old) params.now.dims root.now points → value ≡ value_at params.now.dims query.now version points subset) }
    ensures damaged { (page : ℕ) → result ≡ Err (PageFault.Damaged page) → IsTrue (P.tells pages.old)
        → (keys : List ℕ) × (Some keys ≡ corner_to_meet params.now.dims query.now subset)
        × X.damaged_for_sum (P.map pages.old) params.now.dims root.now keys version page }
    ensures sound { (points : List Point) (page : ℕ) → IsTrue (P.tells pages.old)
        → X.stands (P.map pages.old) params.now.dims root.now points → result ≢ Err (PageFault.Damaged page) }
    ensures reads { OnlyReads P.Pages (P.gets pages.new) pages.old pages.new result }
    ensures cost { IsTrue (P.tells pages.old) → (points : List Point) → X.stands (P.map pages.old) params.now.dims root.now points
        → X.balanced (P.map pages.old) params.now.dims root.now → P.gets pages.new ≤ P.gets pages.old + X.cost params.now.dims root.now.count }
{
    let Some(keys) = meet_corner(query, params.dims, subset) else {
        return Ok(0);
    };
    let value = X::sum(pages, params.dims, root, &keys, version)?;
    Ok(value)
}

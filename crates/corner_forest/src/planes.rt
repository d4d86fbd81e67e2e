//! Integrals over a query box, and below a corner.
ghost use Rattle.std.specs.Prelude.{◌≡◌, ◌≢◌, ◌+◌, ◌*◌, ◌^◌, ◌<◌, ◌≤◌, ◌≤ℤ◌, ◌<ℤ◌, ℕ, true, List, length, pos, neg_ℤ, Err, IsTrue, IsSome, IfOk};
ghost use Rattle.bw_types.specs.Fits.{IsInRange, ends_fit};
ghost use Rattle.bw_types.specs.Residues.{residue, signed_of};
ghost use Rattle.bw_types.specs.declared.point.Point.{Point};
ghost use Rattle.ports.specs.Calls.{OnlyReads};
ghost use Rattle.corner_weights.specs.Corners.{integral_corner as corner_of_integral, query_end as end_of_query};
ghost use Rattle.corner_weights.specs.Integrals.{query_corner as corner_of_query};
ghost use Rattle.corner_weights.specs.Planes.{plane_count, planes_value};
ghost use Rattle.corner_weights.specs.PlaneSums.{Entered, entered_below, integral_at};
ghost use Rattle.dom_index.specs.Points.{AreKeysBelow};
ghost use Rattle.corner_forest.specs.Corners.{keys_below, planes_at};
ghost use Rattle.corner_forest.specs.Damage.{IsDamagedForIntegral, IsDamagedInPlanes};
ghost use Rattle.corner_forest.specs.Entries.{corner_count as count_of_corners, root_count};
ghost use Rattle.corner_forest.specs.Stands.{AreBalanced, ForestStands};
ghost use Rattle.corner_forest.specs.Trees.{EachStands};

use crate::forest::{Forest, corner_count};
use arrayvec::ArrayVec;
use bw_types::residue_laws::residues_are_signed;
use bw_types::{Kind, Query, res_add, res_signed};
use corner_weights::integrals::{below_by_planes, integral_by_planes};
use corner_weights::{eval, integral_corner, plane_count, sign};
use dom_index::DomIndex;
use ports::{PageFault, Pages};

/// The total at a version of the integrals of the entries' value functions over their common parts with the query,
/// times 6 for each dimension, read as a signed number of 128 bits.
///
/// The forest has a degree; what holds of `sum` holds of it.
pub fn integral<X: DomIndex, P: Pages>(
    pages: &mut P,
    forest: &Forest,
    query: &Query,
    version: u32,
) -> Result<i128, PageFault>
    requires in_range { IsInRange forest.now.params }
    requires dims { forest.now.params.dims ≤ X.DIMS }
    requires degree { IsSome forest.now.params.degree }
    requires roots { length forest.now.roots.items ≡ root_count forest.now.params }
    requires query { ends_fit forest.now.params query.now.low query.now.high ≡ true }
    ensures integral { IfOk result (λ value. IsTrue (P.tells pages.old) → (entries : List Entered)
        → ForestStands X.DomIndex (P.map pages.old) forest.now.params forest.now.roots.items entries
        → value ≡ signed_of (residue (integral_at forest.now.params query.now version entries))) }
    ensures exact { IfOk result (λ value. IsTrue (P.tells pages.old) → (entries : List Entered)
        → ForestStands X.DomIndex (P.map pages.old) forest.now.params forest.now.roots.items entries
        → neg_ℤ (pos (2 ^ 127)) ≤ℤ integral_at forest.now.params query.now version entries
        → integral_at forest.now.params query.now version entries <ℤ pos (2 ^ 127)
        → value ≡ integral_at forest.now.params query.now version entries) }
    ensures damaged { (page : ℕ) → result ≡ Err (PageFault.Damaged page) → IsTrue (P.tells pages.old)
        → IsDamagedForIntegral X.DomIndex (P.map pages.old) forest.now.params forest.now.roots.items query.now version page }
    ensures sound { (entries : List Entered) (page : ℕ) → IsTrue (P.tells pages.old)
        → ForestStands X.DomIndex (P.map pages.old) forest.now.params forest.now.roots.items entries → result ≢ Err (PageFault.Damaged page) }
    ensures reads { OnlyReads P.Pages (P.gets pages.new) pages.old pages.new result }
    ensures cost { IsTrue (P.tells pages.old) → (entries : List Entered)
        → ForestStands X.DomIndex (P.map pages.old) forest.now.params forest.now.roots.items entries
        → AreBalanced X.DomIndex (P.map pages.old) forest.now.params forest.now.roots.items
        → P.gets pages.new ≤ P.gets pages.old + count_of_corners forest.now.params
        * (plane_count forest.now.params * X.cost forest.now.params.dims (length entries * count_of_corners forest.now.params)) }
{
    integral_by_planes();
    residues_are_signed();
    let mut total: u128 = 0;
    for subset in 0..corner_count(&forest.params) {
        let value = value_at::<X, P>(pages, forest, query, version, subset)?;
        total = res_add(total, sign(subset, value));
    }
    Ok(res_signed(total))
}

/// The total at a version of the integrals of the entries' value functions over the parts of their boxes below a corner of stored numbers,
/// times 6 for each dimension, modulo `2^128`.
///
/// The forest has a degree, and the corner's numbers are in range; what holds of `sum` holds of it.
pub fn below<X: DomIndex, P: Pages>(
    pages: &mut P,
    forest: &Forest,
    at: &[u32; 3],
    version: u32,
) -> Result<u128, PageFault>
    requires in_range { IsInRange forest.now.params }
    requires dims { forest.now.params.dims ≤ X.DIMS }
    requires degree { IsSome forest.now.params.degree }
    requires roots { length forest.now.roots.items ≡ root_count forest.now.params }
    requires at { ends_fit forest.now.params at.now at.now ≡ true }
    ensures below { IfOk result (λ value. IsTrue (P.tells pages.old) → (entries : List Entered)
        → ForestStands X.DomIndex (P.map pages.old) forest.now.params forest.now.roots.items entries
        → value ≡ residue (entered_below forest.now.params at.now version entries)) }
    ensures damaged { (page : ℕ) → result ≡ Err (PageFault.Damaged page) → IsTrue (P.tells pages.old)
        → IsDamagedInPlanes X.DomIndex (P.map pages.old) forest.now.params forest.now.roots.items (keys_below forest.now.params at.now) version page }
    ensures sound { (entries : List Entered) (page : ℕ) → IsTrue (P.tells pages.old)
        → ForestStands X.DomIndex (P.map pages.old) forest.now.params forest.now.roots.items entries → result ≢ Err (PageFault.Damaged page) }
    ensures reads { OnlyReads P.Pages (P.gets pages.new) pages.old pages.new result }
    ensures cost { IsTrue (P.tells pages.old) → (entries : List Entered)
        → ForestStands X.DomIndex (P.map pages.old) forest.now.params forest.now.roots.items entries
        → AreBalanced X.DomIndex (P.map pages.old) forest.now.params forest.now.roots.items
        → P.gets pages.new ≤ P.gets pages.old
        + plane_count forest.now.params * X.cost forest.now.params.dims (length entries * count_of_corners forest.now.params) }
{
    below_by_planes();
    let query = Query {
        kind: Kind::Integral,
        low: *at,
        high: *at,
    };
    value_at::<X, P>(pages, forest, &query, version, 0)
}

// The value, at the query's corner of the subset, of the polynomial whose coefficients are the planes' sums there.
fn value_at<X: DomIndex, P: Pages>(
    pages: &mut P,
    forest: &Forest,
    query: &Query,
    version: u32,
    subset: u8,
) -> Result<u128, PageFault>
    requires in_range { IsInRange forest.now.params }
    requires dims { forest.now.params.dims ≤ X.DIMS }
    requires degree { IsSome forest.now.params.degree }
    requires roots { length forest.now.roots.items ≡ root_count forest.now.params }
    requires query { ends_fit forest.now.params query.now.low query.now.high ≡ true }
    requires subset { subset < count_of_corners forest.now.params }
    ensures value { IfOk result (λ value. IsTrue (P.tells pages.old) → (points : ℕ → List Point)
        → EachStands (X.stands (P.map pages.old) forest.now.params.dims) points 0 forest.now.roots.items
        → value ≡ residue (planes_value forest.now.params
        (planes_at forest.now.params points (corner_of_integral forest.now.params.dims query.now subset) version) (corner_of_query query.now subset))) }
    ensures damaged { (page : ℕ) → result ≡ Err (PageFault.Damaged page) → IsTrue (P.tells pages.old)
        → IsDamagedInPlanes X.DomIndex (P.map pages.old) forest.now.params forest.now.roots.items (corner_of_integral forest.now.params.dims query.now subset) version page }
    ensures sound { (points : ℕ → List Point) (page : ℕ) → IsTrue (P.tells pages.old)
        → EachStands (X.stands (P.map pages.old) forest.now.params.dims) points 0 forest.now.roots.items → result ≢ Err (PageFault.Damaged page) }
    ensures reads { OnlyReads P.Pages (P.gets pages.new) pages.old pages.new result }
    ensures cost { IsTrue (P.tells pages.old) → (points : ℕ → List Point) (n : ℕ)
        → EachStands (X.stands (P.map pages.old) forest.now.params.dims) points 0 forest.now.roots.items
        → AreBalanced X.DomIndex (P.map pages.old) forest.now.params forest.now.roots.items
        → ((plane : ℕ) → plane < plane_count forest.now.params → length (points (count_of_corners forest.now.params + plane)) ≡ n)
        → P.gets pages.new ≤ P.gets pages.old + plane_count forest.now.params * X.cost forest.now.params.dims n }
{
    let keys = integral_corner(query, forest.params.dims, subset);
    let planes = plane_sums::<X, P>(pages, forest, &keys, version)?;
    let at = query_corner(query, subset);
    Ok(eval(planes.as_slice(), &forest.params, &at))
}

// The dominance sum of each plane's tree at the keys.
fn plane_sums<X: DomIndex, P: Pages>(
    pages: &mut P,
    forest: &Forest,
    keys: &[u64; 3],
    version: u32,
) -> Result<ArrayVec<u128, 64>, PageFault>
    requires in_range { IsInRange forest.now.params }
    requires dims { forest.now.params.dims ≤ X.DIMS }
    requires roots { length forest.now.roots.items ≡ root_count forest.now.params }
    requires keys { AreKeysBelow forest.now.params.dims keys.now }
    ensures sums { IfOk result (λ sums. IsTrue (P.tells pages.old) → (points : ℕ → List Point)
        → EachStands (X.stands (P.map pages.old) forest.now.params.dims) points 0 forest.now.roots.items
        → sums.items ≡ planes_at forest.now.params points keys.now version) }
    ensures count { IfOk result (λ sums. length sums.items ≡ plane_count forest.now.params) }
    ensures damaged { (page : ℕ) → result ≡ Err (PageFault.Damaged page) → IsTrue (P.tells pages.old)
        → IsDamagedInPlanes X.DomIndex (P.map pages.old) forest.now.params forest.now.roots.items keys.now version page }
    ensures sound { (points : ℕ → List Point) (page : ℕ) → IsTrue (P.tells pages.old)
        → EachStands (X.stands (P.map pages.old) forest.now.params.dims) points 0 forest.now.roots.items → result ≢ Err (PageFault.Damaged page) }
    ensures reads { OnlyReads P.Pages (P.gets pages.new) pages.old pages.new result }
    ensures cost { IsTrue (P.tells pages.old) → (points : ℕ → List Point) (n : ℕ)
        → EachStands (X.stands (P.map pages.old) forest.now.params.dims) points 0 forest.now.roots.items
        → AreBalanced X.DomIndex (P.map pages.old) forest.now.params forest.now.roots.items
        → ((plane : ℕ) → plane < plane_count forest.now.params → length (points (count_of_corners forest.now.params + plane)) ≡ n)
        → P.gets pages.new ≤ P.gets pages.old + plane_count forest.now.params * X.cost forest.now.params.dims n }
{
    X::index_laws();
    let roots = forest.roots.as_slice();
    let dims = forest.params.dims;
    let first = usize::from(corner_count(&forest.params));
    let mut sums = ArrayVec::new();
    for plane in 0..plane_count(&forest.params) {
        let sum = X::sum(pages, dims, &roots[first + plane], keys, version)?;
        sums.push(sum);
    }
    Ok(sums)
}

// The query's own corner of the subset, in stored numbers: the low end in the subset, the high end elsewhere.
fn query_corner(query: &Query, subset: u8) -> [u32; 3]
    ensures { result ≡ corner_of_query query.now subset }
{
    [
        query_end(query, subset, 0),
        query_end(query, subset, 1),
        query_end(query, subset, 2),
    ]
}

fn query_end(query: &Query, subset: u8, i: u8) -> u32
    requires { i < 3 }
    ensures { result ≡ end_of_query query.now subset i }
{
    let at = usize::from(i);
    if (subset >> i) % 2 == 1 {
        query.low[at]
    } else {
        query.high[at]
    }
}

//! Reading what a page holds.
ghost use Rattle.std.specs.Prelude.{◌≡◌, ◌≤◌, [], ℕ, List, length, Err, IsTrue, IfOk, OnOk, OnErr};
ghost use Rattle.bw_types.specs.Dominance.{dominance_sum};
ghost use Rattle.bw_types.specs.declared.point.Point.{Point};
ghost use Rattle.ports.specs.Calls.{OnlyReads};
ghost use Rattle.page_layout.specs.PointLeaf as leaf;
ghost use Rattle.page_layout.specs.declared.cut_page.CutNode.{CutNode};
ghost use Rattle.cut_parts.specs.Spelling.{HoldsCuts, HoldsLeaf};
ghost use Rattle.cut_parts.specs.Nodes.{AreNodes};

use crate::nodes::fill;
use arrayvec::ArrayVec;
use dom_index::sum_on;
use page_layout::{CutPage, PointLeaf, View, view_page};
use ports::{Page, PageFault, Pages, blank_page};

/// The nodes that a page holds, to be walked in place by `Nodes`: its bytes are put into these.
///
/// `Damaged` carries this page. It comes exactly where the page holds no cuts, save where the device failed first.
pub fn view_cuts<'a, P: Pages>(
    pages: &mut P,
    page: u64,
    bytes: &'a mut Page,
) -> Result<View<'a, CutPage>, PageFault>
    ensures found { IfOk result (λ cuts. IsTrue (P.tells pages.old) → HoldsCuts (P.map pages.old) page cuts.nodes.items) }
    ensures damaged { (p : ℕ) → result ≡ Err (PageFault.Damaged p)
        → (p ≡ page) × (IsTrue (P.tells pages.old) → (nodes : List CutNode) → HoldsCuts (P.map pages.old) page nodes → ⊥) }
    ensures reads { OnlyReads P.Pages 1 pages.old pages.new result }
{
    match view_page::<CutPage, P>(pages, page, bytes) {
        Err(fault) => Err(fault),
        Ok(cuts) => Ok(cuts),
    }
}

/// A page without nodes, which spells none: room for one that is read.
#[inline(always)]
pub fn no_cuts() -> CutPage
    ensures { result.nodes.items ≡ [] }
{
    CutPage {
        nodes: ArrayVec::new(),
    }
}

/// Makes `cuts` the nodes that a page holds, whatever they were. After a refusal they are as they were. The page's bytes are put into
/// `bytes`.
///
/// Nodes are larger than a page. So they are put where they are to stand, and not handed back.
///
/// `Damaged` carries this page. It comes exactly where the page holds no cuts, save where the device failed first.
pub fn read_cuts<P: Pages>(
    pages: &mut P,
    page: u64,
    bytes: &mut Page,
    cuts: &mut CutPage,
) -> Result<(), PageFault>
    ensures found { OnOk result (IsTrue (P.tells pages.old) → HoldsCuts (P.map pages.old) page cuts.new.nodes.items) }
    ensures nodes { OnOk result (AreNodes cuts.new.nodes.items) }
    ensures many { OnOk result ((3 ≤ length cuts.new.nodes.items) × (length cuts.new.nodes.items ≤ 127)) }
    ensures unchanged { OnErr result (cuts.new ≡ cuts.old) }
    ensures damaged { (p : ℕ) → result ≡ Err (PageFault.Damaged p)
        → (p ≡ page) × (IsTrue (P.tells pages.old) → (nodes : List CutNode) → HoldsCuts (P.map pages.old) page nodes → ⊥) }
    ensures reads { OnlyReads P.Pages 1 pages.old pages.new result }
{
    match view_page::<CutPage, P>(pages, page, bytes) {
        Err(fault) => Err(fault),
        Ok(view) => {
            fill(cuts, &view);
            Ok(())
        }
    }
}

// The points that a page holds as a leaf of so many, read in place in these bytes.
fn view_leaf<'a, P: Pages>(
    pages: &mut P,
    page: u64,
    count: u32,
    bytes: &'a mut Page,
) -> Result<View<'a, PointLeaf>, PageFault>
    ensures found { IfOk result (λ found. IsTrue (P.tells pages.old) → HoldsLeaf (P.map pages.old) page found.points.items) }
    ensures counted { IfOk result (λ found. length found.points.items ≡ count) }
    ensures rules { IfOk result (λ found. leaf.IsPointLeaf found × leaf.IsTyped found × (found.next ≡ 0)) }
    ensures damaged { (p : ℕ) → result ≡ Err (PageFault.Damaged p)
        → (p ≡ page) × (IsTrue (P.tells pages.old) → (points : List Point) → HoldsLeaf (P.map pages.old) page points → length points ≡ count → ⊥) }
    ensures reads { OnlyReads P.Pages 1 pages.old pages.new result }
{
    match view_page::<PointLeaf, P>(pages, page, bytes) {
        Err(fault) => Err(fault),
        Ok(view) => {
            if view.next() != 0 || view.len() as u64 != u64::from(count) {
                return Err(PageFault::Damaged(page));
            }
            Ok(view)
        }
    }
}

/// The points that a page holds as a leaf of so many.
///
/// `Damaged` carries this page. It comes exactly where the page holds no leaf of as many points, save where the device failed
/// first.
pub fn read_leaf<P: Pages>(pages: &mut P, page: u64, count: u32) -> Result<PointLeaf, PageFault>
    ensures found { IfOk result (λ found. IsTrue (P.tells pages.old) → HoldsLeaf (P.map pages.old) page found.points.items) }
    ensures counted { IfOk result (λ found. length found.points.items ≡ count) }
    ensures rules { IfOk result (λ found. leaf.IsPointLeaf found × leaf.IsTyped found × (found.next ≡ 0)) }
    ensures damaged { (p : ℕ) → result ≡ Err (PageFault.Damaged p)
        → (p ≡ page) × (IsTrue (P.tells pages.old) → (points : List Point) → HoldsLeaf (P.map pages.old) page points → length points ≡ count → ⊥) }
    ensures reads { OnlyReads P.Pages 1 pages.old pages.new result }
{
    let mut bytes = blank_page();
    match view_leaf(pages, page, count, &mut bytes) {
        Err(fault) => Err(fault),
        Ok(view) => Ok(view.to_value()),
    }
}

/// The dominance sum of the points that a page holds as a leaf of so many. They are read where they stand.
///
/// `Damaged` carries this page. It comes exactly where the page holds no leaf of as many points, save where the device failed
/// first.
pub fn leaf_sum<P: Pages>(
    pages: &mut P,
    page: u64,
    count: u32,
    dims: u8,
    keys: &[u64; 3],
    version: u32,
) -> Result<u128, PageFault>
    requires { dims ≤ 3 }
    ensures found { IfOk result (λ value. IsTrue (P.tells pages.old) → (points : List Point) × HoldsLeaf (P.map pages.old) page points
        × (length points ≡ count) × (value ≡ dominance_sum dims points keys.now version)) }
    ensures damaged { (p : ℕ) → result ≡ Err (PageFault.Damaged p)
        → (p ≡ page) × (IsTrue (P.tells pages.old) → (points : List Point) → HoldsLeaf (P.map pages.old) page points → length points ≡ count → ⊥) }
    ensures reads { OnlyReads P.Pages 1 pages.old pages.new result }
{
    let mut bytes = blank_page();
    match view_leaf(pages, page, count, &mut bytes) {
        Err(fault) => Err(fault),
        Ok(view) => Ok(sum_on(&view, dims, keys, version)),
    }
}

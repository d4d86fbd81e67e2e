//! A chain of pages of points.
ghost use Rattle.std.specs.Prelude.{◌≡◌, ◌≤◌, ℕ, ◌==◌, Err, IsTrue, IfOk, OnOk};
ghost use Rattle.bw_types.specs.Dominance.{dominance_sum};
ghost use Rattle.ports.specs.Calls.{OnlyReads};
ghost use Rattle.page_layout.specs.declared.point_leaf.PointLeaf.{PointLeaf};
ghost use Rattle.dom_index.specs.Chain.{IsDamagedAlong, chain_points};

use crate::points::sum_on;
use bw_types::Tree;
use page_layout::{PointLeaf, View, view_page};
use ports::{PageFault, Pages, blank_page};

/// The dominance sum of the points in the chain, of which at most so many pages are read as the tree counts points.
///
/// `Damaged` carries the first page that is missing or spells no points.
pub fn sum_along<P: Pages>(
    pages: &mut P,
    dims: u8,
    tree: &Tree,
    keys: &[u64; 3],
    version: u32,
) -> Result<u128, PageFault>
    requires { dims ≤ 3 }
    ensures sum { IfOk result (λ value. IsTrue (P.tells pages.old)
        → value ≡ dominance_sum dims (chain_points tree.now.count (P.map pages.old) tree.now.root) keys.now version) }
    ensures damaged { (page : ℕ) → result ≡ Err (PageFault.Damaged page) → IsTrue (P.tells pages.old)
        → IsDamagedAlong (P.map pages.old) tree.now page }
    // Where it answers, no page on its way is damaged.
    ensures whole { OnOk result (IsTrue (P.tells pages.old) → (page : ℕ) → ¬ IsDamagedAlong (P.map pages.old) tree.now page) }
    ensures reads { OnlyReads P.Pages tree.now.count pages.old pages.new result }
{
    let mut bytes = blank_page();
    let mut total: u128 = 0;
    let mut page = tree.root;
    let mut left = tree.count;
    while page != 0 {
        if left == 0 {
            return Ok(total);
        }
        let leaf: View<PointLeaf> = view_page(pages, page, &mut bytes)?;
        total = total.wrapping_add(sum_on(&leaf, dims, keys, version));
        page = leaf.next();
        left -= 1;
    }
    Ok(total)
}

//! The value at a version.
ghost use Rattle.std.specs.Prelude.{◌≡◌, ◌≢◌, ◌%◌, ◌^◌, ℕ, List, [], Err, IsTrue, IfOk};
ghost use Rattle.bw_types.specs.Dominance.{dominance_sum};
ghost use Rattle.bw_types.specs.declared.point.Point.{Point};
ghost use Rattle.page_layout.specs.Damage.{IsDamagedBelow, NothingBeside};
ghost use Rattle.ports.specs.Calls.{OnlyReads};
ghost use Rattle.sb_tree.specs.Damage.{FitsPlace, IsDamagedOnPath, LeadsTo};
ghost use Rattle.sb_tree.specs.Stands.{SbStands};
ghost use Rattle.sb_tree.specs.Steps.{total_below, tree_value};

use crate::place::{Place, root_place};
use crate::view::{begun_on, child_on, inner_place_on};
use bw_types::Tree;
use page_layout::{SbNode, View, view_in_place};
use ports::{Page, PageFault, Pages, blank_page};

/// The value of the tree at a version: the sum of what was added at that version and before, modulo
/// `2^128`. It gets at most as many pages as the tree has levels.
///
/// `Disk` comes only where the count of faults rose. `Damaged` carries the first page on the way down
/// that is missing, is no node of its level, or does not begin where it is reached.
pub fn sb_value<P: Pages>(pages: &mut P, tree: &Tree, version: u32) -> Result<u128, PageFault>
    // What the pages tell is read, whatever they hold.
    ensures value { IfOk result (λ value. IsTrue (P.tells pages.old) → value ≡ tree_value (P.map pages.old) tree.now version) }
    // Where the tree stands, this is the sum over its points.
    ensures sum { IfOk result (λ value. IsTrue (P.tells pages.old) → (points : List Point)
        → SbStands (P.map pages.old) tree.now points → value ≡ dominance_sum 0 points [] version) }
    ensures damaged { (page : ℕ) → result ≡ Err (PageFault.Damaged page) → IsTrue (P.tells pages.old)
        → IsDamagedOnPath (P.map pages.old) tree.now version page }
    // Where it answers, no page on its way is damaged.
    ensures whole { IfOk result (λ value. IsTrue (P.tells pages.old) → (page : ℕ)
        → IsDamagedOnPath (P.map pages.old) tree.now version page → ⊥) }
    ensures sound { (points : List Point) (page : ℕ) → IsTrue (P.tells pages.old)
        → SbStands (P.map pages.old) tree.now points → result ≢ Err (PageFault.Damaged page) }
    ensures reads { OnlyReads P.Pages tree.now.levels pages.old pages.new result }
{
    let mut bytes = blank_page();
    value_below(
        pages,
        &mut bytes,
        tree.root,
        tree.levels,
        root_place(version),
    )
}

// The value of the page, and of those below it, at the version sought. Each page is read in place in
// these bytes.
fn value_below<P: Pages>(
    pages: &mut P,
    bytes: &mut Page,
    page: u64,
    level: u8,
    place: Place,
) -> Result<u128, PageFault>
    ensures value { IfOk result (λ value. IsTrue (P.tells pages.old)
        → value ≡ total_below level (P.map pages.old) page place.sought % 2 ^ 128) }
    ensures damaged { (damaged : ℕ) → result ≡ Err (PageFault.Damaged damaged) → IsTrue (P.tells pages.old)
        → IsDamagedBelow FitsPlace LeadsTo NothingBeside (P.map pages.old) level place page damaged }
    // Where it answers, no page on its way is damaged.
    ensures whole { IfOk result (λ value. IsTrue (P.tells pages.old) → (damaged : ℕ)
        → IsDamagedBelow FitsPlace LeadsTo NothingBeside (P.map pages.old) level place page damaged → ⊥) }
    ensures reads { OnlyReads P.Pages level pages.old pages.new result }
{
    if level == 0 {
        return Ok(0);
    }
    let node: View<SbNode> = view_in_place(pages, page, level, place, bytes)?;
    let begun = begun_on(&node, place.sought);
    if level == 1 {
        return Ok(begun.total);
    }
    let inner = inner_place_on(&node, begun.count, place);
    let child = child_on(&node, begun.count);
    let below = value_below(pages, bytes, child, level - 1, inner)?;
    Ok(begun.total.wrapping_add(below))
}

//! Viewing nodes where they keep to their places.
ghost use Rattle.std.specs.Prelude.{◌≡◌, ◌≤◌, ◌<◌, ◌↔◌, ℕ, List, length, Some, Err, IsTrue, IfOk};
ghost use Rattle.std.specs.List.{All};
ghost use Rattle.page_layout.specs.Damage.{HoldsNoNode};
ghost use Rattle.page_layout.specs.Dated.{by_life_fits};
ghost use Rattle.ports.specs.Calls.{OnlyReads};
ghost use Rattle.object_table.specs.Damage.{FitsPlace, IsInPlace};
ghost use Rattle.object_table.specs.Keys.{key as spec_key, low_key as spec_low_key};
ghost use Rattle.object_table.specs.Nodes.{objects_in, entries_in};
ghost use Rattle.object_table.specs.Stands.{first_low};

use crate::form::Form;
use crate::key::low_key;
use crate::path::low_from;
use crate::place::Place;
use crate::view::{NodeView, view_form};
use ports::{Page, PageFault, Pages};

/// The view of the node of this level that the page spells, where it keeps to the place by which it is
/// reached: the page's bytes are put into these, and the node is read there.
///
/// `Damaged` carries this page. It comes exactly where the page is not in the map or spells no such
/// node, save where the device failed first.
pub fn view_node<'a, P: Pages>(
    pages: &mut P,
    form: Form,
    page: u64,
    level: u8,
    place: Place,
    bytes: &'a mut Page,
) -> Result<NodeView<'a>, PageFault>
    ensures fits { IfOk result (λ node. (bytes : List ℕ) × FitsPlace form level place node bytes × (IsTrue (P.tells pages.old) → P.map pages.old page ≡ Some bytes)) }
    // In either form, a leaf by lives can spell the objects.
    ensures keep { IfOk result (λ node. All (λ d. IsTrue (by_life_fits d)) (objects_in node)) }
    ensures damaged { (p : ℕ) → result ≡ Err (PageFault.Damaged p) → (p ≡ page) × (IsTrue (P.tells pages.old)
        → HoldsNoNode (FitsPlace form) (P.map pages.old) level place page) }
    ensures reads { OnlyReads P.Pages 1 pages.old pages.new result }
{
    let node = view_form(pages, form, page, level, bytes)?;
    if !is_in_place(&node, level, place) {
        return Err(PageFault::Damaged(page));
    }
    Ok(node)
}

// Whether a node of this level keeps to the place.
fn is_in_place(node: &NodeView, level: u8, place: Place) -> bool
    ensures { IsTrue result ↔ IsInPlace level place node.now }
{
    have_keys_within(node, place)
        && begin_within(node, place)
        && (level == 1 || low_from(node, 0, place.high) <= place.sought)
}

// Whether the objects of a leaf lie within the place.
fn have_keys_within(node: &NodeView, place: Place) -> bool
    ensures { IsTrue result ↔ (All (λ d. place.low ≤ spec_key d) (objects_in node.now) × All (λ d. spec_key d < place.high) (objects_in node.now)) }
{
    for index in 0..node.object_count() {
        let key = node.object_key(index);
        if key < place.low {
            return false;
        }
        if key >= place.high {
            return false;
        }
    }
    true
}

// Whether the entries of an index node begin within the place. They ascend, so the first and the last tell.
fn begin_within(node: &NodeView, place: Place) -> bool
    ensures { IsTrue result ↔ (All (λ e. place.low ≤ spec_low_key e) (entries_in node.now) × All (λ e. spec_low_key e < place.high) (entries_in node.now)) }
{
    node.is_in_order();
    let count = node.entry_count();
    if count == 0 {
        return true;
    }
    let first = low_key(&node.entry(0));
    let last = low_key(&node.entry(count - 1));
    place.low <= first && last < place.high
}

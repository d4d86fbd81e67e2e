//! Reading the value that a page spells. The page is tested where it stands, so that a value as large as a page is made once.
ghost use Rattle.std.specs.Prelude.{◌≡◌, ℕ, List, Some, Err, IsTrue, IfOk};
ghost use Rattle.ports.specs.Calls.{OnlyReads};
ghost use Rattle.page_layout.specs.Damage.{HoldsNoNode};
ghost use Rattle.page_layout.specs.Spelled.{Spells, SpellsNone};
ghost use Rattle.page_layout.specs.TreePage.{FitsLevel, FitsPlace, HoldsNoLevel};

use crate::place::PlaceFor;
use crate::{Spelled, TreePage, View};
use ports::{Page, PageFault, Pages, blank_page};

/// The value that the page spells.
///
/// `Damaged` carries this page. It comes exactly where the page is not in the map or spells no such
/// value, save where the device failed first.
pub fn read_page<T: Spelled, P: Pages>(pages: &mut P, page: u64) -> Result<T, PageFault>
    ensures spells { IfOk result (λ value. Spells T.Spelled value (T.spelling value)) }
    ensures found { IfOk result (λ value. IsTrue (P.tells pages.old) → P.map pages.old page ≡ Some (T.spelling value)) }
    // No other value is spelled there.
    ensures only { IfOk result (λ value. IsTrue (P.tells pages.old) → (other : T) (bytes : List ℕ)
        → P.map pages.old page ≡ Some bytes → Spells T.Spelled other bytes → value ≡ other) }
    ensures damaged { (p : ℕ) → result ≡ Err (PageFault.Damaged p)
        → (p ≡ page) × (IsTrue (P.tells pages.old) → SpellsNone T.Spelled (P.map pages.old) page) }
    ensures reads { OnlyReads P.Pages 1 pages.old pages.new result }
{
    let mut bytes = blank_page();
    let view: View<T> = view_page(pages, page, &mut bytes)?;
    Ok(view.to_value())
}

/// The view of the value that the page spells: the page's bytes are put into these, and the value is
/// read there.
///
/// `Damaged` carries this page. It comes exactly where the page is not in the map or spells no such
/// value, save where the device failed first.
pub fn view_page<'a, T: Spelled, P: Pages>(
    pages: &mut P,
    page: u64,
    bytes: &'a mut Page,
) -> Result<View<'a, T>, PageFault>
    ensures spells { IfOk result (λ value. Spells T.Spelled value (T.spelling value)) }
    ensures found { IfOk result (λ value. IsTrue (P.tells pages.old) → P.map pages.old page ≡ Some (T.spelling value)) }
    // No other value is spelled there.
    ensures only { IfOk result (λ value. IsTrue (P.tells pages.old) → (other : T) (bytes : List ℕ)
        → P.map pages.old page ≡ Some bytes → Spells T.Spelled other bytes → value ≡ other) }
    ensures damaged { (p : ℕ) → result ≡ Err (PageFault.Damaged p)
        → (p ≡ page) × (IsTrue (P.tells pages.old) → SpellsNone T.Spelled (P.map pages.old) page) }
    ensures reads { OnlyReads P.Pages 1 pages.old pages.new result }
{
    pages.get(page, bytes)?;
    let Some(view) = View::<T>::on(bytes) else {
        return Err(PageFault::Damaged(page));
    };
    Ok(view)
}

// The view of the value of this level that the page spells.
fn view_level<'a, T: TreePage, P: Pages>(
    pages: &mut P,
    page: u64,
    level: u8,
    bytes: &'a mut Page,
) -> Result<View<'a, T>, PageFault>
    ensures fits { IfOk result (λ value. FitsLevel T.Spelled T.level_in level value (T.spelling value)) }
    ensures found { IfOk result (λ value. IsTrue (P.tells pages.old) → P.map pages.old page ≡ Some (T.spelling value)) }
    ensures only { IfOk result (λ value. IsTrue (P.tells pages.old) → (other : T) (bytes : List ℕ)
        → P.map pages.old page ≡ Some bytes → FitsLevel T.Spelled T.level_in level other bytes → value ≡ other) }
    ensures damaged { (p : ℕ) → result ≡ Err (PageFault.Damaged p)
        → (p ≡ page) × (IsTrue (P.tells pages.old) → HoldsNoLevel T.Spelled T.level_in (P.map pages.old) level page) }
    ensures reads { OnlyReads P.Pages 1 pages.old pages.new result }
{
    let view: View<T> = view_page(pages, page, bytes)?;
    if view.level() != level {
        return Err(PageFault::Damaged(page));
    }
    Ok(view)
}

/// The value of this level that the page spells.
///
/// `Damaged` carries this page. It comes exactly where the page is not in the map or spells no such
/// value of this level, save where the device failed first.
pub fn read_level<T: TreePage, P: Pages>(
    pages: &mut P,
    page: u64,
    level: u8,
) -> Result<T, PageFault>
    ensures fits { IfOk result (λ value. FitsLevel T.Spelled T.level_in level value (T.spelling value)) }
    ensures found { IfOk result (λ value. IsTrue (P.tells pages.old) → P.map pages.old page ≡ Some (T.spelling value)) }
    // No other value of a level is spelled there.
    ensures only { IfOk result (λ value. IsTrue (P.tells pages.old) → (other : T) (bytes : List ℕ)
        → P.map pages.old page ≡ Some bytes → FitsLevel T.Spelled T.level_in level other bytes → value ≡ other) }
    ensures damaged { (p : ℕ) → result ≡ Err (PageFault.Damaged p)
        → (p ≡ page) × (IsTrue (P.tells pages.old) → HoldsNoLevel T.Spelled T.level_in (P.map pages.old) level page) }
    ensures reads { OnlyReads P.Pages 1 pages.old pages.new result }
{
    let mut bytes = blank_page();
    let view: View<T> = view_level(pages, page, level, &mut bytes)?;
    Ok(view.to_value())
}

/// The view of the node of this level that the page spells, where it keeps to the place by which it is
/// reached: the page's bytes are put into these, and the node is read there.
///
/// `Damaged` carries this page. It comes exactly where the page is not in the map or spells no such
/// node, save where the device failed first.
pub fn view_in_place<'a, T: TreePage, L: PlaceFor<T>, P: Pages>(
    pages: &mut P,
    page: u64,
    level: u8,
    place: L,
    bytes: &'a mut Page,
) -> Result<View<'a, T>, PageFault>
    ensures node { IfOk result (λ node. FitsPlace T.Spelled T.level_in L.admits level place node (T.spelling node)) }
    ensures found { IfOk result (λ node. IsTrue (P.tells pages.old) → P.map pages.old page ≡ Some (T.spelling node)) }
    ensures damaged { (p : ℕ) → result ≡ Err (PageFault.Damaged p) → (p ≡ page) × (IsTrue (P.tells pages.old)
        → HoldsNoNode (FitsPlace T.Spelled T.level_in L.admits) (P.map pages.old) level place page) }
    ensures reads { OnlyReads P.Pages 1 pages.old pages.new result }
{
    let view: View<T> = view_level(pages, page, level, bytes)?;
    if !place.admits_view(level, &view) {
        return Err(PageFault::Damaged(page));
    }
    Ok(view)
}

/// The node of this level that the page spells, where it keeps to the place by which it is reached.
///
/// `Damaged` carries this page. It comes exactly where the page is not in the map or spells no such
/// node, save where the device failed first.
pub fn read_in_place<T: TreePage, L: PlaceFor<T>, P: Pages>(
    pages: &mut P,
    page: u64,
    level: u8,
    place: L,
) -> Result<T, PageFault>
    ensures node { IfOk result (λ node. FitsPlace T.Spelled T.level_in L.admits level place node (T.spelling node)) }
    ensures found { IfOk result (λ node. IsTrue (P.tells pages.old) → P.map pages.old page ≡ Some (T.spelling node)) }
    ensures damaged { (p : ℕ) → result ≡ Err (PageFault.Damaged p) → (p ≡ page) × (IsTrue (P.tells pages.old)
        → HoldsNoNode (FitsPlace T.Spelled T.level_in L.admits) (P.map pages.old) level place page) }
    ensures reads { OnlyReads P.Pages 1 pages.old pages.new result }
{
    let mut bytes = blank_page();
    let view: View<T> = view_level(pages, page, level, &mut bytes)?;
    let node = view.to_value();
    if !place.admits(level, &node) {
        return Err(PageFault::Damaged(page));
    }
    Ok(node)
}

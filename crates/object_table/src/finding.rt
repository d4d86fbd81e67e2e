//! Looking an id up.
ghost use Rattle.std.specs.Prelude.{◌≡◌, ◌≢◌, ◌-◌, ◌==◌, ℕ, List, reverse, Err, IsTrue, IfOk, IfSome};
ghost use Rattle.std.specs.List.{All, find as list_find};
ghost use Rattle.bw_types.specs.declared.dated.Dated.{Dated};
ghost use Rattle.page_layout.specs.Damage.{IsDamagedBelow, NothingBeside};
ghost use Rattle.page_layout.specs.Dated.{by_life_fits};
ghost use Rattle.ports.specs.Calls.{OnlyReads};
ghost use Rattle.object_table.specs.declared.form.Form.TheVariants.{ByLives, ByIds};
ghost use Rattle.object_table.specs.Damage.{FitsPlace, LeadsTo, IsDamagedOnPath};
ghost use Rattle.object_table.specs.Keys.{greatest_key};
ghost use Rattle.object_table.specs.Lives.{last_life, lives_below};
ghost use Rattle.object_table.specs.Nodes.{objects_in};
ghost use Rattle.object_table.specs.Stands.{StandsBelow, TableStands};

use crate::form::Form;
use crate::key::key_of;
use crate::path::{begun_count, step_to};
use crate::place::{Place, root_place};
use crate::placed::view_node;
use crate::view::NodeView;
use bw_types::{Dated, Tree};
use ports::{Page, PageFault, Pages, blank_page};

/// The last life of the id in a table by lives, or `None` exactly where it has none. It gets at most as
/// many pages as the table has levels.
///
/// `Disk` comes only where the count of faults rose. `Damaged` carries the first page on the way down
/// that is missing, is no node of its level, or does not keep to the keys for which it is reached.
pub fn find<P: Pages>(pages: &mut P, table: &Tree, id: u64) -> Result<Option<Dated>, PageFault>
    ensures last { IfOk result (λ found. IsTrue (P.tells pages.old) → (lives : List Dated)
        → TableStands ByLives (P.map pages.old) table.now lives → found ≡ last_life id lives) }
    // Whatever the pages hold, what is found may be entered.
    ensures fits { IfOk result (λ found. IfSome found (λ d. IsTrue (by_life_fits d))) }
    ensures damaged { (page : ℕ) → result ≡ Err (PageFault.Damaged page) → IsTrue (P.tells pages.old)
        → IsDamagedOnPath ByLives (P.map pages.old) table.now (greatest_key id) page }
    ensures sound { (lives : List Dated) (page : ℕ) → IsTrue (P.tells pages.old)
        → TableStands ByLives (P.map pages.old) table.now lives → result ≢ Err (PageFault.Damaged page) }
    ensures reads { OnlyReads P.Pages table.now.levels pages.old pages.new result }
{
    find_in(pages, Form::ByLives, table, id)
}

/// The life of the id in a table by ids, or `None` exactly where it has none. It gets at most as many
/// pages as the table has levels, and is refused as `find` is.
pub fn find_old<P: Pages>(pages: &mut P, table: &Tree, id: u64) -> Result<Option<Dated>, PageFault>
    ensures last { IfOk result (λ found. IsTrue (P.tells pages.old) → (lives : List Dated)
        → TableStands ByIds (P.map pages.old) table.now lives → found ≡ last_life id lives) }
    // Whatever the pages hold, what is found may be entered in a table by lives.
    ensures fits { IfOk result (λ found. IfSome found (λ d. IsTrue (by_life_fits d))) }
    ensures damaged { (page : ℕ) → result ≡ Err (PageFault.Damaged page) → IsTrue (P.tells pages.old)
        → IsDamagedOnPath ByIds (P.map pages.old) table.now (greatest_key id) page }
    ensures sound { (lives : List Dated) (page : ℕ) → IsTrue (P.tells pages.old)
        → TableStands ByIds (P.map pages.old) table.now lives → result ≢ Err (PageFault.Damaged page) }
    ensures reads { OnlyReads P.Pages table.now.levels pages.old pages.new result }
{
    find_in(pages, Form::ByIds, table, id)
}

fn find_in<P: Pages>(
    pages: &mut P,
    form: Form,
    table: &Tree,
    id: u64,
) -> Result<Option<Dated>, PageFault>
    ensures last { IfOk result (λ found. IsTrue (P.tells pages.old) → (lives : List Dated)
        → TableStands form (P.map pages.old) table.now lives → found ≡ last_life id lives) }
    ensures fits { IfOk result (λ found. IfSome found (λ d. IsTrue (by_life_fits d))) }
    ensures damaged { (page : ℕ) → result ≡ Err (PageFault.Damaged page) → IsTrue (P.tells pages.old)
        → IsDamagedOnPath form (P.map pages.old) table.now (greatest_key id) page }
    ensures sound { (lives : List Dated) (page : ℕ) → IsTrue (P.tells pages.old)
        → TableStands form (P.map pages.old) table.now lives → result ≢ Err (PageFault.Damaged page) }
    ensures reads { OnlyReads P.Pages table.now.levels pages.old pages.new result }
{
    if table.levels == 0 {
        return Ok(None);
    }
    let place = root_place(key_of(id, u32::MAX));
    let mut bytes = blank_page();
    let found = find_below(pages, form, table.root, table.levels, place, id, &mut bytes)?;
    Ok(found)
}

// The last life of the id in the leaves from the page down; the greatest key of the id is sought. Each page
// is read in place in these bytes.
fn find_below<P: Pages>(
    pages: &mut P,
    form: Form,
    page: u64,
    level: u8,
    place: Place,
    id: u64,
    bytes: &mut Page,
) -> Result<Option<Dated>, PageFault>
    ensures last { IfOk result (λ found. IsTrue (P.tells pages.old) → (least : ℕ) → place.sought ≡ greatest_key id
        → StandsBelow form level (P.map pages.old) page place.low place.high least
        → found ≡ last_life id (lives_below form level (P.map pages.old) page)) }
    ensures fits { IfOk result (λ found. IfSome found (λ d. IsTrue (by_life_fits d))) }
    ensures damaged { (damaged : ℕ) → result ≡ Err (PageFault.Damaged damaged) → IsTrue (P.tells pages.old)
        → IsDamagedBelow (FitsPlace form) LeadsTo NothingBeside (P.map pages.old) level place page damaged }
    ensures reads { OnlyReads P.Pages level pages.old pages.new result }
{
    if level == 0 {
        return Ok(None);
    }
    let node = view_node(pages, form, page, level, place, bytes)?;
    if level == 1 {
        return Ok(last_of(&node, id));
    }
    let begun = begun_count(&node, place.sought);
    let step = step_to(&node, begun - 1, place, place.sought);
    let found = find_below(pages, form, step.child, level - 1, step.place, id, bytes)?;
    Ok(found)
}

// The last of the objects of a leaf that has the id.
fn last_of(node: &NodeView, id: u64) -> Option<Dated>
    requires { All (λ d. IsTrue (by_life_fits d)) (objects_in node.now) }
    ensures last { result ≡ last_life id (objects_in node.now) }
    ensures fits { IfSome result (λ d. IsTrue (by_life_fits d)) }
{
    let mut last = None;
    for index in 0..node.object_count() {
        if node.object_id(index) == id {
            last = Some(node.object(index));
        }
    }
    last
}

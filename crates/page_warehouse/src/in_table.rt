//! The changes of a batch in the table; what they enter in the trees waits.
ghost use Rattle.std.specs.Prelude.{◌≡◌, ◌+◌, ◌-◌, ◌*◌, ◌^◌, ◌<◌, ◌≤◌, List, [], ◌∷◌, ◌++◌, length, IsTrue, IfOk, OnOk, IfSome, Some, None};
ghost use Rattle.std.specs.List.{All, list_all};
ghost use Rattle.std.specs.Option.{option_map_or};
ghost use Rattle.page_layout.specs.Dated.{by_life_fits};
ghost use Rattle.bw_types.specs.declared.dated.Dated.{Dated};
ghost use Rattle.bw_types.specs.Fits.{IsInRange, object_fits, row_fits};
ghost use Rattle.bw_types.specs.History.{History, changes, flat, flat_row};
ghost use Rattle.bw_types.specs.Lawful.{IsLawful, IsLawfulBatch};
ghost use Rattle.bw_types.specs.declared.change.Change.{Change};
ghost use Rattle.bw_types.specs.declared.change.Change.TheVariants as change;
ghost use Rattle.bw_types.specs.declared.row.Row.{Row};
ghost use Rattle.ports.specs.Calls.{Changes};
ghost use Rattle.page_warehouse.specs.Begun.{next_event, next_version, with_changes};
ghost use Rattle.page_warehouse.specs.Entering.{KeepsOn, PagesKeep, PagesWait, RootsFit, StayRoots};
ghost use Rattle.page_warehouse.specs.Waiting.{CanWait};

use crate::ids::table_tells_ids;
use crate::next_change::{batches_begin_alike, changes_go_on};
use crate::roots::Roots;
use crate::waiting::{Waiting, wait};
use bw_types::{Dated, Object, Params, Row, object_fits};
use corner_forest::laws::forest_laws;
use dom_index::DomIndex;
use object_table::{enter, find, last_life_laws, mark_withdrawn, table_laws};
use page_layout::footprint_laws;
use ports::{Stage, StageFault, changes_compose};

// The number of the life that comes after the last one of an id; `None` where there are no more numbers.
fn life_after(last: Option<Dated>) -> Option<u32>
    ensures number { IfSome result (λ life. life ≡ 1 + option_map_or (λ d. d.life) last 0) }
    ensures none { result ≡ None → 2 ^ 32 ≤ 1 + option_map_or (λ d. d.life) last 0 }
{
    match last {
        None => Some(1),
        Some(last) => last.life.checked_add(1),
    }
}

// The life that begins with an add of the object.
fn begun(params: &Params, object: &Object, life: u32, event: u32, version: u32) -> Dated
    requires dims { (1 ≤ params.now.dims) × (params.now.dims ≤ 3) }
    requires fits { IsTrue (object_fits params.now object.now) }
    requires life { 1 ≤ life }
    requires version { 1 ≤ version }
    ensures value { result ≡ record { object = object.now; life = life; added = version; add_event = event; withdrawn = 0; withdraw_event = 0 } }
    ensures rules { IsTrue (by_life_fits result) }
{
    Dated {
        object: *object,
        life,
        added: version,
        add_event: event,
        withdrawn: 0,
        withdraw_event: 0,
    }
}

// The last life of an id, where its object is one of such a warehouse.
fn fitting(params: &Params, last: Option<Dated>) -> Option<Dated>
    requires { IsInRange params.now }
    ensures found { (d : Dated) → last ≡ Some d → IsTrue (object_fits params.now d.object) → result ≡ Some d }
    ensures fits { IfSome result (λ d. IsTrue (object_fits params.now d.object)) }
{
    let last = last?;
    if !object_fits(&last.object, params) {
        return None;
    }
    Some(last)
}

/// Adds the object, as the next change of a batch: a life of its id in the table, and an entry that waits.
pub(crate) fn add_object<X: DomIndex, S: Stage>(
    stage: &mut S,
    roots: &mut Roots,
    waiting: &mut Vec<Waiting>,
    object: &Object,
    event: u32,
    version: u32,
) -> Result<(), StageFault>
    requires roots { RootsFit X.DIMS roots.old }
    requires waiting { All (CanWait roots.old.forest.params) waiting.old.items }
    requires fits { IsTrue (object_fits roots.old.forest.params object.now) }
    requires event { event < 2 ^ 28 }
    requires version { (1 ≤ version) × (version < 2 ^ 32 - 1) }
    ensures keeps_on { IsTrue (S.tells stage.old) → (h : History) (done later : List Change) → IsLawful roots.old.forest.params h
        → IsLawfulBatch roots.old.forest.params h (done ++ change.Add object.now ∷ later) → version ≡ next_version h → event ≡ next_event h done
        → PagesWait X.DomIndex (S.map stage.old) roots.old version (with_changes h done) waiting.old.items
        → KeepsOn S.Pages 8 stage.old stage.new result
        (PagesWait X.DomIndex (S.map stage.new) roots.new version (with_changes h (done ++ change.Add object.now ∷ [])) waiting.new.items) }
    ensures waiting { OnOk result (All (CanWait roots.old.forest.params) waiting.new.items × (length waiting.new.items ≡ length waiting.old.items + 1)) }
    ensures trees { roots.new.forest ≡ roots.old.forest }
    ensures roots { StayRoots X.DIMS roots.old roots.new result }
    ensures changes { Changes S.Pages (S.allotted stage.new + 1) stage.old stage.new result }
{
    table_laws();
    last_life_laws();
    forest_laws::<X>();
    footprint_laws();
    changes_compose();
    changes_go_on();
    table_tells_ids();
    let Some(life) = life_after(find(stage, &roots.table, object.id)?) else {
        return Err(StageFault::Damaged(roots.table.root));
    };
    let dated = begun(&roots.forest.params, object, life, event, version);
    enter(stage, &mut roots.table, &dated)?;
    wait(
        waiting,
        Waiting {
            object: *object,
            minus: false,
            event,
        },
    )
}

/// Withdraws the id, as the next change of a batch: its last life ends in the table, and what that entered in the trees
/// waits to be entered once more with the opposite sign.
pub(crate) fn withdraw_id<X: DomIndex, S: Stage>(
    stage: &mut S,
    roots: &Roots,
    waiting: &mut Vec<Waiting>,
    id: u64,
    event: u32,
    version: u32,
) -> Result<(), StageFault>
    requires roots { RootsFit X.DIMS roots.now }
    requires waiting { All (CanWait roots.now.forest.params) waiting.old.items }
    requires event { event < 2 ^ 28 }
    requires version { (1 ≤ version) × (version < 2 ^ 32 - 1) }
    ensures keeps_on { IsTrue (S.tells stage.old) → (h : History) (done later : List Change) → IsLawful roots.now.forest.params h
        → IsLawfulBatch roots.now.forest.params h (done ++ change.Withdraw id ∷ later) → version ≡ next_version h → event ≡ next_event h done
        → PagesWait X.DomIndex (S.map stage.old) roots.now version (with_changes h done) waiting.old.items
        → KeepsOn S.Pages 8 stage.old stage.new result
        (PagesWait X.DomIndex (S.map stage.new) roots.now version (with_changes h (done ++ change.Withdraw id ∷ [])) waiting.new.items) }
    ensures waiting { OnOk result (All (CanWait roots.now.forest.params) waiting.new.items × (length waiting.new.items ≡ length waiting.old.items + 1)) }
    ensures changes { Changes S.Pages (S.allotted stage.new + 1) stage.old stage.new result }
{
    table_laws();
    last_life_laws();
    forest_laws::<X>();
    footprint_laws();
    changes_compose();
    changes_go_on();
    table_tells_ids();
    let Some(last) = fitting(&roots.forest.params, find(stage, &roots.table, id)?) else {
        return Err(StageFault::Damaged(roots.table.root));
    };
    mark_withdrawn(stage, &roots.table, id, version, event)?;
    wait(
        waiting,
        Waiting {
            object: last.object,
            minus: true,
            event,
        },
    )
}

/// Enters a row in the table as the next changes of a batch, a move being two.
pub(crate) fn enter_row<X: DomIndex, S: Stage>(
    stage: &mut S,
    roots: &mut Roots,
    waiting: &mut Vec<Waiting>,
    row: &Row,
    event: u32,
    version: u32,
) -> Result<u32, StageFault>
    requires roots { RootsFit X.DIMS roots.old }
    requires waiting { All (CanWait roots.old.forest.params) waiting.old.items }
    requires fits { IsTrue (row_fits roots.old.forest.params row.now) }
    requires event { event + length (flat_row row.now) ≤ 2 ^ 28 }
    requires version { (1 ≤ version) × (version < 2 ^ 32 - 1) }
    ensures event { IfOk result (λ next. next ≡ event + length (flat_row row.now)) }
    ensures keeps_on { IsTrue (S.tells stage.old) → (h : History) (done later : List Change) → IsLawful roots.old.forest.params h
        → IsLawfulBatch roots.old.forest.params h (done ++ (flat_row row.now ++ later)) → version ≡ next_version h → event ≡ next_event h done
        → PagesWait X.DomIndex (S.map stage.old) roots.old version (with_changes h done) waiting.old.items
        → KeepsOn S.Pages (8 * length (flat_row row.now)) stage.old stage.new result
        (PagesWait X.DomIndex (S.map stage.new) roots.new version (with_changes h (done ++ flat_row row.now)) waiting.new.items) }
    ensures waiting { OnOk result (All (CanWait roots.old.forest.params) waiting.new.items
        × (length waiting.new.items ≡ length waiting.old.items + length (flat_row row.now))) }
    ensures trees { roots.new.forest ≡ roots.old.forest }
    ensures roots { StayRoots X.DIMS roots.old roots.new result }
    ensures changes { Changes S.Pages (S.allotted stage.new + 1) stage.old stage.new result }
{
    match row {
        Row::Add(object) => {
            add_object::<X, S>(stage, roots, waiting, object, event, version)?;
            Ok(event + 1)
        }
        Row::Withdraw(id) => {
            withdraw_id::<X, S>(stage, roots, waiting, *id, event, version)?;
            Ok(event + 1)
        }
        Row::Move(object) => {
            withdraw_id::<X, S>(stage, roots, waiting, object.id, event, version)?;
            add_object::<X, S>(stage, roots, waiting, object, event + 1, version)?;
            Ok(event + 2)
        }
    }
}

/// Enters the rows of a batch in the table, the first change of which has this event number; answers the number after
/// the last.
pub(crate) fn enter_table<X: DomIndex, S: Stage>(
    stage: &mut S,
    roots: &mut Roots,
    waiting: &mut Vec<Waiting>,
    rows: &[Row],
    event: u32,
    version: u32,
) -> Result<u32, StageFault>
    requires roots { RootsFit X.DIMS roots.old }
    requires waiting { waiting.old.items ≡ [] }
    requires fit { IsTrue (list_all (row_fits roots.old.forest.params) rows.now) }
    requires event { event + length (flat rows.now) ≤ 2 ^ 28 }
    requires version { (1 ≤ version) × (version < 2 ^ 32 - 1) }
    ensures event { IfOk result (λ next. next ≡ event + length (flat rows.now)) }
    ensures keeps_on { IsTrue (S.tells stage.old) → (h : History) → IsLawful roots.old.forest.params h
        → IsLawfulBatch roots.old.forest.params h (flat rows.now) → version ≡ next_version h → event ≡ length (changes h)
        → PagesKeep X.DomIndex (S.map stage.old) roots.old h
        → KeepsOn S.Pages (8 * length (flat rows.now)) stage.old stage.new result
        (PagesWait X.DomIndex (S.map stage.new) roots.new version (with_changes h (flat rows.now)) waiting.new.items) }
    ensures waiting { OnOk result (All (CanWait roots.old.forest.params) waiting.new.items × (length waiting.new.items ≡ length (flat rows.now))) }
    ensures trees { roots.new.forest ≡ roots.old.forest }
    ensures roots { StayRoots X.DIMS roots.old roots.new result }
    ensures changes { Changes S.Pages (S.allotted stage.new + 1) stage.old stage.new result }
{
    batches_begin_alike();
    let mut event = event;
    for row in rows {
        event = enter_row::<X, S>(stage, roots, waiting, row, event, version)?;
    }
    Ok(event)
}

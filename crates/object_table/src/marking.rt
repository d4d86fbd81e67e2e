//! Marking a withdrawal.
ghost use Rattle.std.specs.Prelude.{◌≡◌, ◌≢◌, ◌↔◌, ◌≤◌, ◌<◌, ◌^◌, true, false, ℕ, List, length, Err, IsTrue, IsSome, IfOk, OnOk};
ghost use Rattle.std.specs.List.{All, AllAdjacentBelow};
ghost use Rattle.bw_types.specs.declared.dated.Dated.{Dated};
ghost use Rattle.ports.specs.Calls.{Grows};
ghost use Rattle.ports.specs.Frame.{Replaces};
ghost use Rattle.page_layout.specs.Damage.{IsDamagedBelow, NothingBeside};
ghost use Rattle.page_layout.specs.Dated.{IsDatedTyped};
ghost use Rattle.page_layout.specs.Footprint.{NamesNoneTwice};
ghost use Rattle.page_layout.specs.LifeNode.{IsLifeLeaf};
ghost use Rattle.object_table.specs.declared.form.Form.TheVariants.{ByLives};
ghost use Rattle.object_table.specs.Damage.{FitsAsked, IsDamagedForMark, LeadsTo};
ghost use Rattle.object_table.specs.Edits.{CanWithdraw, IsMarked, with_withdrawal, withdrawn_at};
ghost use Rattle.object_table.specs.Keys.{greatest_key, key as spec_key};
ghost use Rattle.object_table.specs.Lives.{pages_below, table_pages};
ghost use Rattle.object_table.specs.Marked.{IsMarkedBelow};
ghost use Rattle.object_table.specs.Stands.{StandsBelow, TableStands};
ghost use Rattle.object_table.specs.Stored.{IsMarkedInLeaf, OthersStay};

use crate::form::Form;
use crate::key::key_of;
use crate::path::{begun_count, step_to};
use crate::place::{Place, root_place};
use crate::placed::view_node;
use crate::taking::begun_objects;
use arrayvec::ArrayVec;
use bw_types::{Dated, Tree};
use page_layout::{LifeNode, put_page};
use ports::{Page, Stage, StageFault, blank_page};

/// Marks the last life of the id as withdrawn in a version, by the event of this number.
///
/// Where the table stood it stands for the same objects but for that one life, in the same pages. After
/// a refusal the stage is to be abandoned. `Disk` comes only where the count of faults rose, and
/// `PageLimit` never; `Damaged` carries a page on the way down as for `find`, or the leaf there where it
/// has no life of the id that can be withdrawn in the version, or the root where the table has no pages.
pub fn mark_withdrawn<S: Stage>(
    stage: &mut S,
    table: &Tree,
    id: u64,
    version: u32,
    event: u32,
) -> Result<(), StageFault>
    ensures stands { OnOk result (IsTrue (S.tells stage.old) → (lives : List Dated) → TableStands ByLives (S.map stage.old) table.now lives
        → CanWithdraw id version lives × TableStands ByLives (S.map stage.new) table.now (with_withdrawal id version event lives)) }
    // The table has the pages that it had, and no other page changes.
    ensures change { OnOk result (IsTrue (S.tells stage.old) → (lives : List Dated) → TableStands ByLives (S.map stage.old) table.now lives
        → (table_pages ByLives (S.map stage.new) table.now ≡ table_pages ByLives (S.map stage.old) table.now)
        × Replaces (table_pages ByLives (S.map stage.old) table.now) (table_pages ByLives (S.map stage.old) table.now) (S.map stage.old) (S.map stage.new)) }
    // Whatever the pages hold, those outside the table stay as they are.
    ensures apart { OnOk result (IsTrue (S.tells stage.old) → OthersStay (table_pages ByLives (S.map stage.old) table.now) (S.map stage.old) (S.map stage.new)) }
    ensures damaged { (page : ℕ) → result ≡ Err (StageFault.Damaged page) → IsTrue (S.tells stage.old)
        → IsDamagedForMark (S.map stage.old) table.now id version page }
    ensures sound { (lives : List Dated) (page : ℕ) → IsTrue (S.tells stage.old) → TableStands ByLives (S.map stage.old) table.now lives
        → CanWithdraw id version lives → result ≢ Err (StageFault.Damaged page) }
    ensures grows { Grows S.Pages 0 stage.old stage.new result }
{
    if table.levels == 0 {
        return Err(StageFault::Damaged(table.root));
    }
    let place = root_place(key_of(id, u32::MAX));
    let mut bytes = blank_page();
    mark_below(
        stage,
        table.root,
        table.levels,
        place,
        id,
        version,
        event,
        &mut bytes,
    )
}

// Marks the last life of the id in the leaves from the page down. Each page is read in place in these bytes.
fn mark_below<S: Stage>(
    stage: &mut S,
    page: u64,
    level: u8,
    place: Place,
    id: u64,
    version: u32,
    event: u32,
    bytes: &mut Page,
) -> Result<(), StageFault>
    requires level { 1 ≤ level }
    requires place { (place.sought < place.high) × (place.sought ≡ greatest_key id) }
    ensures marked { OnOk result (IsTrue (S.tells stage.old) → (least : ℕ)
        → StandsBelow ByLives level (S.map stage.old) page place.low place.high least → NamesNoneTwice (pages_below ByLives level (S.map stage.old) page)
        → IsMarkedBelow level (S.map stage.old) (S.map stage.new) page place.low place.high least id version event) }
    ensures apart { OnOk result (IsTrue (S.tells stage.old) → OthersStay (pages_below ByLives level (S.map stage.old) page) (S.map stage.old) (S.map stage.new)) }
    ensures damaged { (damaged : ℕ) → result ≡ Err (StageFault.Damaged damaged) → IsTrue (S.tells stage.old)
        → IsDamagedBelow (FitsAsked (CanWithdraw id version) ByLives) LeadsTo NothingBeside (S.map stage.old) level place page damaged }
    ensures grows { Grows S.Pages 0 stage.old stage.new result }
{
    let node = view_node(stage, Form::ByLives, page, level, place, bytes)?;
    if level == 1 {
        return mark_leaf(stage, page, node.objects(), id, version, event);
    }
    let begun = begun_count(&node, place.sought);
    let step = step_to(&node, begun - 1, place, place.sought);
    mark_below(
        stage,
        step.child,
        level - 1,
        step.place,
        id,
        version,
        event,
        bytes,
    )
}

// Marks the last life of the id in the leaf that the page holds.
fn mark_leaf<S: Stage>(
    stage: &mut S,
    page: u64,
    objects: ArrayVec<Dated, 15>,
    id: u64,
    version: u32,
    event: u32,
) -> Result<(), StageFault>
    requires leaf { IsLifeLeaf 14 objects.items }
    requires typed { All IsDatedTyped objects.items }
    requires in_map { IsTrue (S.tells stage.old) → IsSome (S.map stage.old page) }
    ensures stored { OnOk result (IsMarkedInLeaf objects.items id version event (S.tells stage.old) (S.map stage.old) (S.map stage.new) page) }
    ensures damaged { (p : ℕ) → result ≡ Err (StageFault.Damaged p) → IsTrue (S.tells stage.old) → (p ≡ page) × (¬ CanWithdraw id version objects.items) }
    ensures grows { Grows S.Pages 0 stage.old stage.new result }
{
    let mut objects = objects;
    if !withdraw_last(&mut objects, id, version, event) {
        return Err(StageFault::Damaged(page));
    }
    put_page(stage, page, &LifeNode::Leaf { objects })
}

// Withdraws the last life of the id among the objects. It answers whether that can be done; where it
// cannot, nothing changes.
fn withdraw_last(objects: &mut ArrayVec<Dated, 15>, id: u64, version: u32, event: u32) -> bool
    requires order { AllAdjacentBelow (λ d next. spec_key d < spec_key next) objects.old.items (length objects.old.items) }
    requires typed { All IsDatedTyped objects.old.items }
    ensures marked { result ≡ true → IsMarked objects.old.items objects.new.items id version event }
    ensures refused { result ≡ false → ¬ CanWithdraw id version objects.old.items }
{
    let begun = begun_objects(objects.as_slice(), key_of(id, u32::MAX));
    if begun == 0 {
        return false;
    }
    if !can_withdraw(&objects.as_slice()[begun - 1], id, version) {
        return false;
    }
    let life = withdrawn(&objects.as_slice()[begun - 1], version, event);
    objects.as_mut_slice()[begun - 1] = life;
    true
}

// Whether the object is a life of the id that can be withdrawn in the version.
fn can_withdraw(life: &Dated, id: u64, version: u32) -> bool
    ensures { IsTrue result ↔ ((life.now.object.id ≡ id) × (life.now.withdrawn ≡ 0) × (life.now.added < version)) }
{
    life.object.id == id && life.withdrawn == 0 && life.added < version
}

fn withdrawn(life: &Dated, version: u32, event: u32) -> Dated
    ensures { result ≡ withdrawn_at version event life.now }
{
    Dated {
        withdrawn: version,
        withdraw_event: event,
        ..*life
    }
}

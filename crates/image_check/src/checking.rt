//! The check of a disk, part by part.
ghost use Rattle.std.specs.Prelude.{◌≡◌, ◌≤◌, ◌⊎◌, ◌↔◌, ℕ, true, Ok, Err, IsTrue};
ghost use Rattle.std.specs.List.{All};
ghost use Rattle.bw_types.specs.Fits.{IsInRange};
ghost use Rattle.redo_journal.specs.Gates.{gate_of, is_empty};
ghost use Rattle.redo_journal.specs.declared.gate.Gate.TheVariants.{Armed};
ghost use Rattle.settled_pages.specs.Looked.{disk_of, looked_at, meta_of, params_of};
ghost use Rattle.page_warehouse.specs.Holds.{table_form};
ghost use Rattle.image_check.specs.Looks.{OnlyLooks};
ghost use Rattle.image_check.specs.Parts.{HasRoots, IsBrokenAt, IsGood};
ghost use Rattle.image_check.specs.Shown.{IsShown};

use crate::checked_index::CheckedIndex;
use crate::judging::{Told, judge};
use crate::reading::read_table;
use crate::trees::trees_stand;
use crate::verdict::Verdict;
use bw_types::{Dated, Params};
use corner_forest::root_count;
use history_laws::lives_name_changes;
use object_table::Form;
use page_checks::CheckFault;
use page_disk::Disk;
use page_layout::Meta;
use page_space::holds_one;
use settled_pages::{SettleFault, SettledPages, SettledSpace};
use std::alloc::Global;

/// Finds out whether the disk holds a history, from what is on it alone.
///
/// The parts are tried in order, and the first that is broken is told: see `Verdict`. At most one verdict is right of a disk
/// (`verdicts_are_right`), and it holds one history at most, which its table tells (`table_tells` of page_warehouse). The disk is
/// only read: nothing is written, and no sync is made. What is looked at is the disk as it reads, and not what a crash might leave
/// of it. Of a disk that does not tell its image no verdict says anything. Where the params ask for more dimensions than the index
/// has, the trees are broken.
///
/// `Disk` comes only where the count of the disk's faults rose, `NoMemory` where there is no memory. It takes memory for the events,
/// for the points of one tree up to three times, for the numbers of all pages, and for the places of the images in an open journal:
/// in two dimensions some hundred bytes an event, and in three with a degree up to some thousand.
pub fn check<X: CheckedIndex, D: Disk>(alloc: Global, disk: &mut D) -> Result<Verdict, CheckFault>
    ensures good { (version rows : ℕ) → result ≡ Ok (Verdict.Good version rows) → IsTrue (D.tells disk.old)
        → IsGood X.DomIndex (D.image disk.old) version rows }
    ensures empty { result ≡ Ok Verdict.Empty → IsTrue (D.tells disk.old) → is_empty (D.image disk.old) ≡ true }
    // An empty disk is answered so, unless the device failed.
    ensures always_empty { IsTrue (D.tells disk.old) → is_empty (D.image disk.old) ≡ true
        → (result ≡ Ok Verdict.Empty) ⊎ (result ≡ Err CheckFault.Disk) }
    ensures broken { (part : ℕ) → result ≡ Ok (Verdict.Broken part) → IsTrue (D.tells disk.old)
        → IsBrokenAt X.DomIndex part (D.image disk.old) }
    // The parts are five, whatever the disk tells.
    ensures parts { (part : ℕ) → result ≡ Ok (Verdict.Broken part) → (1 ≤ part) × (part ≤ 5) }
    // Memory is asked for the images of an open journal, and else only once the first two parts are there.
    ensures no_memory { result ≡ Err CheckFault.NoMemory → IsTrue (D.tells disk.old)
        → (gate_of (D.image disk.old) ≡ Armed) ⊎ HasRoots (D.image disk.old) }
    ensures looks { OnlyLooks D.Disk disk.old disk.new result }
{
    holds_one();
    let settled = match SettledPages::find(alloc, disk) {
        Ok(settled) => settled,
        Err(SettleFault::Empty) => return Ok(Verdict::Empty),
        Err(SettleFault::BadJournal(_)) => return Ok(Verdict::Broken(1)),
        Err(SettleFault::Disk) => return Err(CheckFault::Disk),
        Err(SettleFault::NoMemory) => return Err(CheckFault::NoMemory),
    };
    let (params, meta) = match settled.roots(disk) {
        Ok(Some(roots)) => roots,
        Ok(None) => return Ok(Verdict::Broken(2)),
        Err(_) => return Err(CheckFault::Disk),
    };
    if meta.roots.len() != root_count(&params) {
        return Ok(Verdict::Broken(2));
    }
    let mut space = SettledSpace::new(disk, &settled, params, &meta);
    check_table::<X, D>(alloc, &mut space, &params, &meta)
}

// The form of the object table of which the meta page tells.
fn form_of(meta: &Meta) -> Form
    ensures { result ≡ table_form meta.now }
{
    if meta.lives == 0 {
        Form::ByIds
    } else {
        Form::ByLives
    }
}

// From the object table on.
fn check_table<X: CheckedIndex, D: Disk>(
    alloc: Global,
    space: &mut SettledSpace<'_, D>,
    params: &Params,
    meta: &Meta,
) -> Result<Verdict, CheckFault>
    requires range { IsInRange params.now }
    requires params { params_of space.old ≡ params.now }
    requires meta { meta_of space.old ≡ meta.now }
    requires shown { IsTrue (D.tells (disk_of space.old)) → IsShown space.old }
    ensures good { (version rows : ℕ) → result ≡ Ok (Verdict.Good version rows) → IsTrue (D.tells (disk_of space.old))
        → IsGood X.DomIndex (D.image (disk_of space.old)) version rows }
    ensures empty { result ≡ Ok Verdict.Empty → ⊥ }
    ensures broken { (part : ℕ) → result ≡ Ok (Verdict.Broken part) → IsTrue (D.tells (disk_of space.old))
        → IsBrokenAt X.DomIndex part (D.image (disk_of space.old)) }
    ensures parts { (part : ℕ) → result ≡ Ok (Verdict.Broken part) → (1 ≤ part) × (part ≤ 5) }
    ensures looked { looked_at space.new ≡ looked_at space.old }
    ensures looks { OnlyLooks D.Disk (disk_of space.old) (disk_of space.new) result }
{
    holds_one();
    lives_name_changes();
    X::index_laws();
    let Some(table) = read_table(alloc, space, form_of(meta), &meta.table)? else {
        return Ok(Verdict::Broken(3));
    };
    match judge(alloc, params, meta, table.lives.as_slice())? {
        Told::Nothing => return Ok(Verdict::Broken(3)),
        Told::Unlawful => return Ok(Verdict::Broken(4)),
        Told::Lawful => {}
    }
    if meta.lives == 0 && !are_first(table.lives.as_slice()) {
        return Ok(Verdict::Broken(4));
    }
    if trees_stand::<X, D>(alloc, space, params, meta, table)? {
        Ok(Verdict::Good {
            version: meta.version,
            rows: meta.rows,
        })
    } else {
        Ok(Verdict::Broken(5))
    }
}

// Whether each life is its id's first.
fn are_first(lives: &[Dated]) -> bool
    ensures { IsTrue result ↔ All (λ d. d.life ≡ 1) lives.now }
{
    lives.iter().all(|dated| dated.life == 1)
}

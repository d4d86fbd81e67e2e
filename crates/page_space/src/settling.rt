//! The journal of a disk that is opened.
ghost use Rattle.std.specs.Prelude.{◌≡◌, ◌≢◌, ◌⊎◌, ◌+◌, ◌*◌, ◌≤◌, ◌<◌, ℕ, true, length, Ok, Err, IsTrue, IfErr, OnOk};
ghost use Rattle.page_disk.specs.Calls.{WritesAsTold};
ghost use Rattle.page_disk.specs.Image.{PageList};
ghost use Rattle.page_disk.specs.Since.{LeavesNow, LeavesOnly};
ghost use Rattle.redo_journal.specs.Gates.{gate_of, is_empty};
ghost use Rattle.redo_journal.specs.declared.gate.Gate.TheVariants.{Armed, Idle};
ghost use Rattle.redo_journal.specs.Groups.{BreaksRulesAt};
ghost use Rattle.redo_journal.specs.Settled.{SettlesTo};
ghost use Rattle.page_space.specs.Faults.{AtBadJournal, AtDamaged, AtEmpty, AtNoMemory, is_disk};
ghost use Rattle.page_space.specs.Settling.{HasNoReplay, IsBadAt, replay_reads};

use crate::OpenFault;
use page_disk::Disk;
use redo_journal::{Gate, JournalFault, ready, replay};

// Replays an open journal.
fn replay_journal<D: Disk>(disk: &mut D) -> Result<(), OpenFault>
    requires armed { IsTrue (D.tells disk.old) → gate_of (D.image disk.old) ≡ Armed }
    requires settled { LeavesNow (D.moments disk.old) (D.image disk.old) }
    ensures idle { OnOk result (IsTrue (D.tells disk.old) → gate_of (D.image disk.new) ≡ Idle) }
    ensures same { OnOk result (IsTrue (D.tells disk.old) → SettlesTo (D.image disk.old) (D.image disk.new).pages) }
    ensures journal { OnOk result (IsTrue (D.tells disk.old) → length (D.image disk.new).journal ≡ length (D.image disk.old).journal) }
    ensures settled { OnOk result (LeavesNow (D.moments disk.new) (D.image disk.new)) }
    ensures bad { IfErr result (λ fault. AtBadJournal fault (λ page. IsTrue (D.tells disk.old) → BreaksRulesAt (D.image disk.old) page)) }
    ensures only { IfErr result (λ fault. AtEmpty fault ⊥ × AtDamaged fault (λ _. ⊥) × AtNoMemory fault ⊥) }
    ensures refused { IfErr result (λ fault. fault ≢ OpenFault.Disk → IsTrue (D.tells disk.old) → D.image disk.new ≡ D.image disk.old) }
    ensures refused_settled { IfErr result (λ fault. fault ≢ OpenFault.Disk → IsTrue (D.tells disk.old) → LeavesNow (D.moments disk.new) (D.image disk.new)) }
    ensures untouched { IsTrue (D.tells disk.old) → (page : ℕ) → BreaksRulesAt (D.image disk.old) page
        → (D.image disk.new ≡ D.image disk.old) × (D.moments disk.new ≡ D.moments disk.old) }
    ensures any_moment { (pages : PageList) → SettlesTo (D.image disk.old) pages
        → LeavesOnly (λ x. SettlesTo x pages) (D.moments disk.old) (D.moments disk.new) }
    ensures writes { WritesAsTold D.Disk is_disk (replay_reads (D.image disk.old)) disk.old disk.new result }
{
    match replay(disk) {
        Ok(_) => Ok(()),
        Err(JournalFault::Disk) => Err(OpenFault::Disk),
        Err(JournalFault::Damaged(page)) => Err(OpenFault::BadJournal(page)),
    }
}

/// Leaves nothing pending and nothing to replay.
pub(crate) fn settle<D: Disk>(disk: &mut D) -> Result<(), OpenFault>
    ensures idle { OnOk result (IsTrue (D.tells disk.old) → gate_of (D.image disk.new) ≡ Idle) }
    ensures same { OnOk result (IsTrue (D.tells disk.old) → SettlesTo (D.image disk.old) (D.image disk.new).pages) }
    ensures journal { OnOk result (IsTrue (D.tells disk.old) → length (D.image disk.new).journal ≡ length (D.image disk.old).journal) }
    ensures settled { OnOk result (LeavesNow (D.moments disk.new) (D.image disk.new)) }
    ensures empty { IfErr result (λ fault. AtEmpty fault (IsTrue (D.tells disk.old) → is_empty (D.image disk.old) ≡ true)) }
    ensures bad { IfErr result (λ fault. AtBadJournal fault (λ page. IsTrue (D.tells disk.old) → IsBadAt (D.image disk.old) page)) }
    ensures only { IfErr result (λ fault. AtDamaged fault (λ _. ⊥) × AtNoMemory fault ⊥) }
    ensures refused { IfErr result (λ fault. fault ≢ OpenFault.Disk → IsTrue (D.tells disk.old) → D.image disk.new ≡ D.image disk.old) }
    ensures refused_settled { IfErr result (λ fault. fault ≢ OpenFault.Disk → IsTrue (D.tells disk.old) → LeavesNow (D.moments disk.new) (D.image disk.new)) }
    ensures untouched { IsTrue (D.tells disk.old) → HasNoReplay (D.image disk.old) → D.image disk.new ≡ D.image disk.old }
    ensures untouched_moments { IsTrue (D.tells disk.old) → HasNoReplay (D.image disk.old)
        → LeavesOnly (λ x. x ≡ D.image disk.old) (D.moments disk.old) (D.moments disk.new) }
    ensures any_moment { IsTrue (D.tells disk.old) → (pages : PageList) → SettlesTo (D.image disk.old) pages
        → LeavesOnly (λ x. SettlesTo x pages) (D.moments disk.old) (D.moments disk.new) }
    ensures writes { WritesAsTold D.Disk is_disk (2 + replay_reads (D.image disk.old)) disk.old disk.new result }
{
    match ready(disk) {
        Ok(Gate::Idle) => Ok(()),
        Ok(Gate::Armed) => replay_journal(disk),
        Ok(Gate::NoJournal) => Err(OpenFault::BadJournal(0)),
        Ok(Gate::Blank) => Err(OpenFault::Empty),
        Err(_) => Err(OpenFault::Disk),
    }
}

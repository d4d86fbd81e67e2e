//! What the gates of a disk say.
ghost use Rattle.std.specs.Prelude.{◌≡◌, ◌≤◌, ◌+◌, Bool, true, IsTrue, IfOk, OnOk};
ghost use Rattle.page_disk.specs.Calls.{OnlyReads, Writes, any_error};
ghost use Rattle.page_disk.specs.Image.{area_of};
ghost use Rattle.page_disk.specs.Since.{LeavesNow, LeavesOnly};
ghost use Rattle.redo_journal.specs.Gates.{gate_bytes, gate_of, is_open};

use page_disk::{Area, Disk, Failed};
use ports::{Page, blank_page};

/// What a disk holds, as its two gates say.
#[derive(Clone, Copy, Debug, PartialEq, Eq)]
pub enum Gate {
    /// No warehouse.
    Blank,
    /// A warehouse whose Journal area has no page.
    NoJournal,
    /// A warehouse with nothing to replay.
    Idle,
    /// A warehouse whose journal is to be replayed.
    Armed,
}

#[tactic(auto, unfolding(crate::specs::Gates::gate_bytes))]
pub(crate) fn gate_page(opens: bool) -> Page
    ensures { result ≡ gate_bytes opens }
{
    let mut page = blank_page();
    page[0] = if opens { 1 } else { 0 };
    page
}

// Whether the gate of an area is open. At most one read.
fn opened<D: Disk>(disk: &mut D, area: Area) -> Result<bool, Failed>
    ensures ok { IfOk result (λ b. IsTrue (D.tells disk.old) → b ≡ is_open (area_of area (D.image disk.old))) }
    ensures reads { OnlyReads D.Disk any_error 1 disk.old disk.new result }
{
    let mut page = blank_page();
    let found = disk.read(area, 0, &mut page)?;
    Ok(found && page[0] == 1)
}

// What the gates say of a disk that is synced. At most two reads.
fn looked<D: Disk>(disk: &mut D) -> Result<Gate, Failed>
    ensures ok { IfOk result (λ gate. IsTrue (D.tells disk.old) → gate ≡ gate_of (D.image disk.old)) }
    ensures reads { OnlyReads D.Disk any_error 2 disk.old disk.new result }
{
    if disk.len(Area::Pages)? < 3 || !opened(disk, Area::Pages)? {
        return Ok(Gate::Blank);
    }
    if disk.len(Area::Journal)? == 0 {
        return Ok(Gate::NoJournal);
    }
    Ok(if opened(disk, Area::Journal)? {
        Gate::Armed
    } else {
        Gate::Idle
    })
}

/// Syncs the disk, since a stopped program may have left writes pending, and looks what it holds.
///
/// At most two reads. After Ok nothing is pending.
pub fn ready<D: Disk>(disk: &mut D) -> Result<Gate, Failed>
    ensures ok { IfOk result (λ gate. IsTrue (D.tells disk.old) → gate ≡ gate_of (D.image disk.old)) }
    ensures settled { OnOk result (LeavesNow (D.moments disk.new) (D.image disk.new)) }
    ensures any_moment { LeavesOnly (λ x. x ≡ D.image disk.old) (D.moments disk.old) (D.moments disk.new) }
    ensures writes { Writes D.Disk any_error 2 disk.old disk.new result }
    ensures image { D.image disk.new ≡ D.image disk.old }
{
    disk.sync()?;
    let gate = looked(disk)?;
    Ok(gate)
}

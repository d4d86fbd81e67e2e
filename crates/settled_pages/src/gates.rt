//! The gates of a disk that is not synced first.
ghost use Rattle.std.specs.Prelude.{◌≡◌, IsTrue, IfOk};
ghost use Rattle.page_disk.specs.Calls.{OnlyReads, any_error};
ghost use Rattle.page_disk.specs.Image.{area_of};
ghost use Rattle.redo_journal.specs.Gates.{gate_of, is_open};

use page_disk::{Area, Disk, Failed};
use ports::blank_page;
use redo_journal::Gate;

// Whether the gate of an area is open. At most one read.
fn stands_open<D: Disk>(disk: &mut D, area: Area) -> Result<bool, Failed>
    ensures ok { IfOk result (λ opens. IsTrue (D.tells disk.old) → opens ≡ is_open (area_of area (D.image disk.old))) }
    ensures reads { OnlyReads D.Disk any_error 1 disk.old disk.new result }
{
    let mut page = blank_page();
    let found = disk.read(area, 0, &mut page)?;
    Ok(found && page[0] == 1)
}

/// What the gates say. At most two reads.
pub(crate) fn gate_on<D: Disk>(disk: &mut D) -> Result<Gate, Failed>
    ensures ok { IfOk result (λ gate. IsTrue (D.tells disk.old) → gate ≡ gate_of (D.image disk.old)) }
    ensures reads { OnlyReads D.Disk any_error 2 disk.old disk.new result }
{
    if disk.len(Area::Pages)? < 3 || !stands_open(disk, Area::Pages)? {
        return Ok(Gate::Blank);
    }
    if disk.len(Area::Journal)? == 0 {
        return Ok(Gate::NoJournal);
    }
    Ok(if stands_open(disk, Area::Journal)? {
        Gate::Armed
    } else {
        Gate::Idle
    })
}

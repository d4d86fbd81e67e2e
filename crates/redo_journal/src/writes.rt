//! The writes of a commit and of a replay: the journal's gate, a page behind it, and an image's home.
ghost use Rattle.std.specs.Prelude.{◌≡◌, ◌≤◌, ◌+◌, Bool, IsTrue, IsSome, OnOk, length};
ghost use Rattle.ports.specs.Pages.{PageMap};
ghost use Rattle.page_disk.specs.declared.disk.Area.TheVariants.{Pages, Journal};
ghost use Rattle.page_disk.specs.Calls.{Writes, any_error};
ghost use Rattle.page_disk.specs.Image.{Image, page_at, with_area, written_at};
ghost use Rattle.page_disk.specs.Since.{LeavesNow, LeavesOnly};
ghost use Rattle.redo_journal.specs.Gates.{gate_bytes, is_open};
ghost use Rattle.redo_journal.specs.Pending.{AtNewest, BodyPends, DiffersInGate, HomesPend, IsInPlacing, KeepsGate};

use crate::gate::gate_page;
use page_disk::{Area, Disk, Failed};
use ports::Page;

/// Writes the journal's gate.
pub(crate) fn write_gate<D: Disk>(disk: &mut D, opens: bool) -> Result<(), Failed>
    requires has_gate { IsTrue (D.tells disk.old) → 1 ≤ length (D.image disk.old).journal }
    requires settled { LeavesNow (D.moments disk.old) (D.image disk.old) }
    ensures gate { OnOk result (IsTrue (D.tells disk.old) → is_open (D.image disk.new).journal ≡ opens) }
    ensures bytes { OnOk result (IsTrue (D.tells disk.old) → page_at (D.image disk.new).journal 0 ≡ gate_bytes opens) }
    ensures only { OnOk result (IsTrue (D.tells disk.old) → DiffersInGate (D.image disk.old) (D.image disk.new)) }
    ensures settled { OnOk result (LeavesNow (D.moments disk.new) (D.image disk.new)) }
    ensures any_moment { LeavesOnly (DiffersInGate (D.image disk.old)) (D.moments disk.old) (D.moments disk.new) }
    ensures writes { Writes D.Disk any_error 0 disk.old disk.new result }
{
    disk.write(Area::Journal, 0, &gate_page(opens))?;
    disk.sync()
}

/// Writes a page of the journal's body.
pub(crate) fn put_behind<D: Disk>(disk: &mut D, at: u64, page: &Page) -> Result<(), Failed>
    requires behind { 1 ≤ at }
    requires room { IsTrue (D.tells disk.old) → at ≤ length (D.image disk.old).journal }
    ensures image { OnOk result (IsTrue (D.tells disk.old)
        → D.image disk.new ≡ with_area Journal (written_at (D.image disk.old).journal at page.now) (D.image disk.old)) }
    ensures pends { (start : Image) → AtNewest (BodyPends start) (D.moments disk.old)
        → LeavesOnly (KeepsGate start) (D.moments disk.old) (D.moments disk.new) × AtNewest (BodyPends start) (D.moments disk.new) }
    ensures writes { Writes D.Disk any_error 0 disk.old disk.new result }
{
    disk.write(Area::Journal, at, page)?;
    Ok(())
}

/// Writes a page to its home.
pub(crate) fn put_home<D: Disk>(disk: &mut D, home: u64, page: &Page) -> Result<(), Failed>
    requires { IsTrue (D.tells disk.old) → home ≤ length (D.image disk.old).pages }
    ensures image { OnOk result (IsTrue (D.tells disk.old)
        → D.image disk.new ≡ with_area Pages (written_at (D.image disk.old).pages home page.now) (D.image disk.old)) }
    ensures pends { (images : PageMap) (start : Image) → IsSome (images home) → AtNewest (HomesPend images start) (D.moments disk.old)
        → LeavesOnly (IsInPlacing images start) (D.moments disk.old) (D.moments disk.new) × AtNewest (HomesPend images start) (D.moments disk.new) }
    ensures writes { Writes D.Disk any_error 0 disk.old disk.new result }
{
    disk.write(Area::Pages, home, page)?;
    Ok(())
}

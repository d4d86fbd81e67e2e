//! A new warehouse on an empty disk.
ghost use Rattle.std.specs.Prelude.{◌≡◌, ◌⊎◌, ◌≤◌, ℕ, List, true, false, length, max, IsTrue, OnOk};
ghost use Rattle.page_disk.specs.Calls.{Writes, any_error};
ghost use Rattle.page_disk.specs.Image.{page_at};
ghost use Rattle.page_disk.specs.Since.{LeavesNow, LeavesOnly};
ghost use Rattle.redo_journal.specs.Gates.{IsCreated, gate_bytes, is_empty, is_open};
ghost use Rattle.redo_journal.specs.Phases.{HasIdleJournal, IsEmptyOrCreated, IsShut, IsWritten, SettledAt};

use crate::gate::gate_page;
use page_disk::{Area, Disk, Failed};
use ports::Page;

// Writes the closed journal gate.
fn close_journal<D: Disk>(disk: &mut D) -> Result<(), Failed>
    requires empty { IsTrue (D.tells disk.old) → is_empty (D.image disk.old) ≡ true }
    requires settled { SettledAt (D.moments disk.old) (D.image disk.old) }
    ensures idle { OnOk result (IsTrue (D.tells disk.old) → HasIdleJournal (D.image disk.new)) }
    ensures gate { OnOk result (IsTrue (D.tells disk.old) → page_at (D.image disk.new).journal 0 ≡ gate_bytes false) }
    ensures length { OnOk result (IsTrue (D.tells disk.old) → length (D.image disk.new).journal ≡ max 1 (length (D.image disk.old).journal)) }
    ensures pages { OnOk result (IsTrue (D.tells disk.old) → (D.image disk.new).pages ≡ (D.image disk.old).pages) }
    ensures settled { OnOk result (SettledAt (D.moments disk.new) (D.image disk.new)) }
    ensures any_moment { LeavesOnly (λ x. is_empty x ≡ true) (D.moments disk.old) (D.moments disk.new) }
    ensures writes { Writes D.Disk any_error 0 disk.old disk.new result }
{
    disk.write(Area::Journal, 0, &gate_page(false))?;
    disk.sync()?;
    Ok(())
}

// Writes the closed creation gate, where the disk may have none.
fn close_pages<D: Disk>(disk: &mut D) -> Result<(), Failed>
    requires empty { IsTrue (D.tells disk.old) → is_empty (D.image disk.old) ≡ true }
    requires settled { SettledAt (D.moments disk.old) (D.image disk.old) }
    ensures shut { OnOk result (IsTrue (D.tells disk.old) → IsShut (D.image disk.new)) }
    ensures length { OnOk result (IsTrue (D.tells disk.old) → length (D.image disk.new).pages ≡ max 1 (length (D.image disk.old).pages)) }
    ensures journal { OnOk result (IsTrue (D.tells disk.old) → (D.image disk.new).journal ≡ (D.image disk.old).journal) }
    ensures settled { OnOk result (SettledAt (D.moments disk.new) (D.image disk.new)) }
    ensures any_moment { LeavesOnly (λ x. is_empty x ≡ true) (D.moments disk.old) (D.moments disk.new) }
    ensures writes { Writes D.Disk any_error 0 disk.old disk.new result }
{
    if disk.len(Area::Pages)? < 3 {
        disk.write(Area::Pages, 0, &gate_page(false))?;
        disk.sync()?;
    }
    Ok(())
}

// Writes the two pages behind the closed creation gate.
fn write_roots<D: Disk>(disk: &mut D, superblock: &Page, meta: &Page) -> Result<(), Failed>
    requires shut { IsTrue (D.tells disk.old) → IsShut (D.image disk.old) }
    requires settled { SettledAt (D.moments disk.old) (D.image disk.old) }
    ensures written { OnOk result (IsTrue (D.tells disk.old) → IsWritten superblock.now meta.now (D.image disk.new)) }
    ensures length { OnOk result (IsTrue (D.tells disk.old) → length (D.image disk.new).pages ≡ max 3 (length (D.image disk.old).pages)) }
    ensures journal { OnOk result (IsTrue (D.tells disk.old) → (D.image disk.new).journal ≡ (D.image disk.old).journal) }
    ensures settled { OnOk result (SettledAt (D.moments disk.new) (D.image disk.new)) }
    ensures any_moment { LeavesOnly (λ x. is_empty x ≡ true) (D.moments disk.old) (D.moments disk.new) }
    ensures writes { Writes D.Disk any_error 0 disk.old disk.new result }
{
    disk.write(Area::Pages, 1, superblock)?;
    disk.write(Area::Pages, 2, meta)?;
    disk.sync()
}

// Writes all but the open creation gate.
fn prepare<D: Disk>(disk: &mut D, superblock: &Page, meta: &Page) -> Result<(), Failed>
    requires blank { IsTrue (D.tells disk.old) → is_empty (D.image disk.old) ≡ true }
    ensures written { OnOk result (IsTrue (D.tells disk.old) → IsWritten superblock.now meta.now (D.image disk.new)) }
    ensures idle { OnOk result (IsTrue (D.tells disk.old) → HasIdleJournal (D.image disk.new)) }
    ensures gate { OnOk result (IsTrue (D.tells disk.old) → page_at (D.image disk.new).journal 0 ≡ gate_bytes false) }
    ensures lengths { OnOk result (IsTrue (D.tells disk.old) → (length (D.image disk.new).pages ≡ max 3 (length (D.image disk.old).pages))
        × (length (D.image disk.new).journal ≡ max 1 (length (D.image disk.old).journal))) }
    ensures settled { OnOk result (SettledAt (D.moments disk.new) (D.image disk.new)) }
    ensures any_moment { LeavesOnly (λ x. is_empty x ≡ true) (D.moments disk.old) (D.moments disk.new) }
    ensures writes { Writes D.Disk any_error 0 disk.old disk.new result }
{
    disk.sync()?;
    close_journal(disk)?;
    close_pages(disk)?;
    write_roots(disk, superblock, meta)?;
    Ok(())
}

// Writes the open creation gate before the two pages.
fn open_creation<D: Disk>(disk: &mut D) -> Result<(), Failed>
    requires long { IsTrue (D.tells disk.old) → 3 ≤ length (D.image disk.old).pages }
    requires idle { IsTrue (D.tells disk.old) → HasIdleJournal (D.image disk.old) }
    requires settled { SettledAt (D.moments disk.old) (D.image disk.old) }
    ensures created { OnOk result (IsTrue (D.tells disk.old) → (superblock : List ℕ) → (meta : List ℕ)
        → IsWritten superblock meta (D.image disk.old) → IsCreated superblock meta (D.image disk.new)) }
    ensures gate { OnOk result (IsTrue (D.tells disk.old) → page_at (D.image disk.new).pages 0 ≡ gate_bytes true) }
    ensures length { OnOk result (IsTrue (D.tells disk.old) → length (D.image disk.new).pages ≡ length (D.image disk.old).pages) }
    ensures journal { OnOk result (IsTrue (D.tells disk.old) → (D.image disk.new).journal ≡ (D.image disk.old).journal) }
    ensures settled { OnOk result (LeavesNow (D.moments disk.new) (D.image disk.new)) }
    ensures any_moment { (superblock : List ℕ) → (meta : List ℕ) → (IsTrue (D.tells disk.old) → IsWritten superblock meta (D.image disk.old))
        → LeavesOnly (IsEmptyOrCreated superblock meta) (D.moments disk.old) (D.moments disk.new) }
    ensures writes { Writes D.Disk any_error 0 disk.old disk.new result }
{
    disk.write(Area::Pages, 0, &gate_page(true))?;
    disk.sync()?;
    Ok(())
}

/// Makes a warehouse of these two pages, the superblock and the meta page, on an empty disk.
///
/// A crash at any moment leaves an empty disk or the warehouse. From Ok on it leaves the warehouse.
pub fn create<D: Disk>(disk: &mut D, superblock: &Page, meta: &Page) -> Result<(), Failed>
    requires blank { IsTrue (D.tells disk.old) → is_empty (D.image disk.old) ≡ true }
    requires settled { LeavesNow (D.moments disk.old) (D.image disk.old) }
    ensures created { OnOk result (IsTrue (D.tells disk.old) → IsCreated superblock.now meta.now (D.image disk.new)) }
    // The gates are these bytes to the last.
    ensures gate { OnOk result (IsTrue (D.tells disk.old) → page_at (D.image disk.new).pages 0 ≡ gate_bytes true) }
    ensures journal_gate { OnOk result (IsTrue (D.tells disk.old) → page_at (D.image disk.new).journal 0 ≡ gate_bytes false) }
    // Neither area grows further than the new pages need.
    ensures lengths { OnOk result (IsTrue (D.tells disk.old) → (length (D.image disk.new).pages ≡ max 3 (length (D.image disk.old).pages))
        × (length (D.image disk.new).journal ≡ max 1 (length (D.image disk.old).journal))) }
    ensures settled { OnOk result (LeavesNow (D.moments disk.new) (D.image disk.new)) }
    ensures any_moment { LeavesOnly (IsEmptyOrCreated superblock.now meta.now) (D.moments disk.old) (D.moments disk.new) }
    ensures writes { Writes D.Disk any_error 0 disk.old disk.new result }
{
    prepare(disk, superblock, meta)?;
    open_creation(disk)?;
    Ok(())
}

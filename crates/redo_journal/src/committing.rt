//! A commit: all images or none.
ghost use Rattle.std.specs.Prelude.{◌≡◌, ◌⊎◌, ◌≤◌, ◌+◌, ◌-◌, ◌<◌, ◌^◌, ℕ, false, IsTrue, IsSome, OnOk, length, max, take, drop};
ghost use Rattle.page_layout.specs.Head.{IsTyped};
ghost use Rattle.page_disk.specs.Calls.{Writes, any_error};
ghost use Rattle.page_disk.specs.Image.{Image, PageList, page_at};
ghost use Rattle.page_disk.specs.Since.{LeavesNow, LeavesOnly};
ghost use Rattle.redo_journal.specs.Committing.{BeforeOrAfter, HasGate, IsArmed, IsHeld};
ghost use Rattle.redo_journal.specs.Gates.{gate_bytes, gate_of};
ghost use Rattle.redo_journal.specs.declared.gate.Gate.TheVariants.{Idle};
ghost use Rattle.redo_journal.specs.Images.{coming, image_list, image_map};
ghost use Rattle.redo_journal.specs.Lengths.{journal_length};
ghost use Rattle.redo_journal.specs.Pending.{AtNewest, BodyPends, IsInPlacing, KeepsGate, SameBody};
ghost use Rattle.redo_journal.specs.Placing.{ArePlaced, AreInReach, AreWritable, Ascend, bytes_of, homes_of, map_of, with_images, with_row};
ghost use Rattle.redo_journal.specs.Groups.{HoldsGroups, homes_in};
ghost use Rattle.redo_journal.specs.Settled.{SettlesTo};

use crate::images::Images;
use crate::in_order::InOrder;
use crate::writes::{put_behind, put_home, write_gate};
use arrayvec::ArrayVec;
use page_disk::{Disk, Failed};
use page_layout::{JournalHead, Spelled};
use ports::blank_page;

// The most images in a group.
const MOST: usize = 500;

// The head of a group of so many images.
fn next_head(homes: &mut InOrder<'_>, count: usize, more: bool) -> JournalHead
    requires few { count ≤ 500 }
    requires there { count ≤ length (coming homes.old) }
    ensures homes { homes_in result ≡ take count (homes_of (coming homes.old)) }
    ensures rest { coming homes.new ≡ drop count (coming homes.old) }
    ensures more { result.more ≡ more }
    ensures typed { IsTyped result }
{
    let mut named = ArrayVec::new();
    for _ in 0..count {
        let (home, _) = homes.next().unwrap();
        named.push(home);
    }
    JournalHead { more, homes: named }
}

// Writes so many of the images in a row, from this page of the journal on.
fn write_images<D: Disk>(
    disk: &mut D,
    at: u64,
    images: &mut InOrder<'_>,
    count: usize,
) -> Result<(), Failed>
    requires behind { 1 ≤ at }
    requires fits { at + count < 2 ^ 64 }
    requires there { count ≤ length (coming images.old) }
    requires room { IsTrue (D.tells disk.old) → at ≤ length (D.image disk.old).journal }
    ensures rest { OnOk result (coming images.new ≡ drop count (coming images.old)) }
    ensures pages { OnOk result (IsTrue (D.tells disk.old) → (D.image disk.new).pages ≡ (D.image disk.old).pages) }
    ensures journal { OnOk result (IsTrue (D.tells disk.old)
        → (D.image disk.new).journal ≡ with_row (D.image disk.old).journal at (bytes_of (take count (coming images.old)))) }
    ensures pends { (start : Image) → AtNewest (BodyPends start) (D.moments disk.old)
        → LeavesOnly (KeepsGate start) (D.moments disk.old) (D.moments disk.new) × AtNewest (BodyPends start) (D.moments disk.new) }
    ensures writes { Writes D.Disk any_error 0 disk.old disk.new result }
{
    for i in 0..count {
        let (_, page) = images.next().unwrap();
        put_behind(disk, at + i as u64, page)?;
    }
    Ok(())
}

// Writes the body: groups of at most 500 images, each behind its head.
fn write_groups<D: Disk>(disk: &mut D, images: &Images) -> Result<(), Failed>
    requires ascend { Ascend 0 (homes_of (image_list images.now)) }
    requires has_gate { IsTrue (D.tells disk.old) → 1 ≤ length (D.image disk.old).journal }
    ensures held { OnOk result (IsTrue (D.tells disk.old) → (len : ℕ) → AreInReach len 0 (homes_of (image_list images.now))
        → 0 < length (image_list images.now) → HoldsGroups len (D.image disk.new).journal 1 0 (image_list images.now)) }
    ensures kept { OnOk result (IsTrue (D.tells disk.old) → KeepsGate (D.image disk.old) (D.image disk.new)) }
    ensures length { OnOk result (IsTrue (D.tells disk.old) → length (D.image disk.new).journal
        ≡ max (length (D.image disk.old).journal) (journal_length (length (image_list images.now)))) }
    ensures pends { (start : Image) → AtNewest (BodyPends start) (D.moments disk.old)
        → LeavesOnly (KeepsGate start) (D.moments disk.old) (D.moments disk.new) × AtNewest (BodyPends start) (D.moments disk.new) }
    ensures writes { Writes D.Disk any_error 0 disk.old disk.new result }
{
    let mut homes = images.in_order();
    let mut rest = images.in_order();
    let mut left = images.len();
    let mut at = 1;
    while left > 0 {
        let count = left.min(MOST);
        let head = next_head(&mut homes, count, left > count);
        let mut page = blank_page();
        head.write(&mut page);
        put_behind(disk, at, &page)?;
        write_images(disk, at + 1, &mut rest, count)?;
        at += 1 + count as u64;
        left -= count;
    }
    Ok(())
}

// Writes the body behind the closed gate, and makes sure of it.
fn write_body<D: Disk>(disk: &mut D, images: &Images) -> Result<(), Failed>
    requires ascend { Ascend 0 (homes_of (image_list images.now)) }
    requires some { 0 < length (image_list images.now) }
    requires reach { IsTrue (D.tells disk.old) → AreInReach (length (D.image disk.old).pages) 0 (homes_of (image_list images.now)) }
    requires idle { IsTrue (D.tells disk.old) → HasGate (D.image disk.old) false }
    requires settled { LeavesNow (D.moments disk.old) (D.image disk.old) }
    ensures held { OnOk result (IsTrue (D.tells disk.old) → IsHeld (image_list images.now) (D.image disk.new)) }
    ensures kept { OnOk result (IsTrue (D.tells disk.old) → KeepsGate (D.image disk.old) (D.image disk.new)) }
    ensures length { OnOk result (IsTrue (D.tells disk.old) → length (D.image disk.new).journal
        ≡ max (length (D.image disk.old).journal) (journal_length (length (image_list images.now)))) }
    ensures settled { OnOk result (LeavesNow (D.moments disk.new) (D.image disk.new)) }
    ensures any_moment { LeavesOnly (KeepsGate (D.image disk.old)) (D.moments disk.old) (D.moments disk.new) }
    ensures writes { Writes D.Disk any_error 0 disk.old disk.new result }
{
    write_groups(disk, images)?;
    disk.sync()
}

// Writes the images to their homes, and makes sure of them.
fn write_homes<D: Disk>(disk: &mut D, images: &Images) -> Result<(), Failed>
    requires writable { IsTrue (D.tells disk.old) → AreWritable (length (D.image disk.old).pages) (homes_of (image_list images.now)) }
    requires settled { LeavesNow (D.moments disk.old) (D.image disk.old) }
    ensures placed { OnOk result (IsTrue (D.tells disk.old)
        → (D.image disk.new).pages ≡ with_images (D.image disk.old).pages (image_list images.now)) }
    ensures journal { OnOk result (IsTrue (D.tells disk.old) → (D.image disk.new).journal ≡ (D.image disk.old).journal) }
    ensures settled { OnOk result (LeavesNow (D.moments disk.new) (D.image disk.new)) }
    ensures any_moment { LeavesOnly (IsInPlacing (map_of (image_list images.now)) (D.image disk.old)) (D.moments disk.old) (D.moments disk.new) }
    ensures writes { Writes D.Disk any_error 0 disk.old disk.new result }
{
    let mut rest = images.in_order();
    while let Some((home, page)) = rest.next() {
        put_home(disk, home, page)?;
    }
    disk.sync()
}

// The homes ascend, since they are the keys of an ordered map.
fn are_ordered(images: &Images)
    requires { (page : ℕ) → IsSome (image_map images.now page) → 1 ≤ page }
    ensures { Ascend 0 (homes_of (image_list images.now)) }
{
    let _ = images.pages.len();
}

// Writes the body, and then the open gate.
fn arm<D: Disk>(disk: &mut D, images: &Images) -> Result<(), Failed>
    requires ascend { Ascend 0 (homes_of (image_list images.now)) }
    requires some { 0 < length (image_list images.now) }
    requires reach { IsTrue (D.tells disk.old) → AreInReach (length (D.image disk.old).pages) 0 (homes_of (image_list images.now)) }
    requires idle { IsTrue (D.tells disk.old) → HasGate (D.image disk.old) false }
    requires settled { LeavesNow (D.moments disk.old) (D.image disk.old) }
    ensures armed { OnOk result (IsTrue (D.tells disk.old) → IsArmed (image_list images.now) (D.image disk.new)) }
    ensures pages { OnOk result (IsTrue (D.tells disk.old) → (D.image disk.new).pages ≡ (D.image disk.old).pages) }
    ensures length { OnOk result (IsTrue (D.tells disk.old) → length (D.image disk.new).journal
        ≡ max (length (D.image disk.old).journal) (journal_length (length (image_list images.now)))) }
    ensures settled { OnOk result (LeavesNow (D.moments disk.new) (D.image disk.new)) }
    ensures any_moment { (after : PageList) → ArePlaced (map_of (image_list images.now)) (D.image disk.old).pages after
        → LeavesOnly (BeforeOrAfter (D.image disk.old).pages after) (D.moments disk.old) (D.moments disk.new) }
    ensures writes { Writes D.Disk any_error 0 disk.old disk.new result }
{
    write_body(disk, images)?;
    write_gate(disk, true)
}

// Writes the images of an armed disk home, and then closes the gate.
fn bring_home<D: Disk>(disk: &mut D, images: &Images) -> Result<(), Failed>
    requires armed { IsTrue (D.tells disk.old) → IsArmed (image_list images.now) (D.image disk.old) }
    requires settled { LeavesNow (D.moments disk.old) (D.image disk.old) }
    ensures placed { OnOk result (IsTrue (D.tells disk.old)
        → ArePlaced (map_of (image_list images.now)) (D.image disk.old).pages (D.image disk.new).pages) }
    ensures idle { OnOk result (IsTrue (D.tells disk.old) → gate_of (D.image disk.new) ≡ Idle) }
    ensures gate { OnOk result (IsTrue (D.tells disk.old) → page_at (D.image disk.new).journal 0 ≡ gate_bytes false) }
    ensures body { OnOk result (IsTrue (D.tells disk.old) → SameBody (D.image disk.old).journal (D.image disk.new).journal) }
    ensures settled { OnOk result (LeavesNow (D.moments disk.new) (D.image disk.new)) }
    ensures any_moment { (after : PageList) → ArePlaced (map_of (image_list images.now)) (D.image disk.old).pages after
        → LeavesOnly (λ x. SettlesTo x after) (D.moments disk.old) (D.moments disk.new) }
    ensures writes { Writes D.Disk any_error 0 disk.old disk.new result }
{
    write_homes(disk, images)?;
    write_gate(disk, false)
}

/// Writes all images to their homes, or none.
///
/// A crash at any moment leaves a disk that stands for the pages of before, or for those with all
/// images in their places. From Ok on it is the latter. Takes no memory and makes no read.
pub fn commit<D: Disk>(disk: &mut D, images: &Images) -> Result<(), Failed>
    requires idle { IsTrue (D.tells disk.old) → gate_of (D.image disk.old) ≡ Idle }
    requires settled { LeavesNow (D.moments disk.old) (D.image disk.old) }
    requires some { (page : ℕ) × IsSome (image_map images.now page) }
    requires homes { (page : ℕ) → IsSome (image_map images.now page) → 1 ≤ page }
    // A home past the end directly follows another home.
    requires near { IsTrue (D.tells disk.old) → (page : ℕ) → IsSome (image_map images.now page)
        → length (D.image disk.old).pages < page → IsSome (image_map images.now (page - 1)) }
    ensures placed { OnOk result (IsTrue (D.tells disk.old)
        → ArePlaced (image_map images.now) (D.image disk.old).pages (D.image disk.new).pages) }
    ensures idle { OnOk result (IsTrue (D.tells disk.old) → gate_of (D.image disk.new) ≡ Idle) }
    // The gate is closed, to its last byte.
    ensures gate { OnOk result (IsTrue (D.tells disk.old) → page_at (D.image disk.new).journal 0 ≡ gate_bytes false) }
    // The journal grows no longer than its images need.
    ensures journal { OnOk result (IsTrue (D.tells disk.old) → length (D.image disk.new).journal
        ≡ max (length (D.image disk.old).journal) (journal_length (length (image_list images.now)))) }
    ensures settled { OnOk result (LeavesNow (D.moments disk.new) (D.image disk.new)) }
    ensures any_moment { (after : PageList) → ArePlaced (image_map images.now) (D.image disk.old).pages after
        → LeavesOnly (λ x. SettlesTo x (D.image disk.old).pages ⊎ SettlesTo x after) (D.moments disk.old) (D.moments disk.new) }
    // There are pages with all images in their places, whatever the answer.
    ensures placeable { IsTrue (D.tells disk.old)
        → (after : PageList) × ArePlaced (image_map images.now) (D.image disk.old).pages after }
    ensures writes { Writes D.Disk any_error 0 disk.old disk.new result }
{
    are_ordered(images);
    arm(disk, images)?;
    bring_home(disk, images)
}

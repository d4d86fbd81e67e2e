//! A replay: the images of an open journal are written home.
ghost use Rattle.std.specs.Prelude.{◌≡◌, ◌≤◌, ◌+◌, ◌-◌, ◌*◌, ◌<◌, ◌^◌, ◌↔◌, ℕ, min, true, false, IsTrue, IsSome, IfOk, OnOk, length};
ghost use Rattle.std.specs.List.{All};
ghost use Rattle.page_layout.specs.declared.journal_head.JournalHead.{JournalHead};
ghost use Rattle.redo_journal.specs.declared.replaying.JournalFault.TheVariants.{Disk};
ghost use Rattle.ports.specs.Pages.{PageMap};
ghost use Rattle.page_disk.specs.Calls.{OnlyReads, Writes, WritesAsTold};
ghost use Rattle.page_disk.specs.Image.{Image, PageList, page_at};
ghost use Rattle.page_disk.specs.Since.{LeavesNow, LeavesOnly};
ghost use Rattle.redo_journal.specs.Committing.{HasGate};
ghost use Rattle.redo_journal.specs.Gates.{gate_bytes, gate_of};
ghost use Rattle.redo_journal.specs.declared.gate.Gate.TheVariants.{Armed, Idle};
ghost use Rattle.redo_journal.specs.Pending.{AtNewest, HomesPend, IsInPlacing, SameBody};
ghost use Rattle.redo_journal.specs.Placing.{AreInReach, ArePlaced, AreWritable, ImageList, map_of, with_images};
ghost use Rattle.redo_journal.specs.Groups.{BreaksAt, BreaksRulesAt, HeadAt, HoldsGroups, HoldsImages, group_at, homes_in, images_at, last_of};
ghost use Rattle.redo_journal.specs.Settled.{IsReplayed, SettlesTo};
ghost use Rattle.redo_journal.specs.Replay.{OnDamaged, is_disk};

use crate::laws::settling_laws;
use crate::writes::{put_home, write_gate};
use page_disk::{Area, Disk, Failed};
use page_layout::{JournalHead, Spelled};
use ports::blank_page;
use thiserror::Error;

/// Why a replay ended early.
#[derive(Clone, Copy, Debug, PartialEq, Eq, Error)]
pub enum JournalFault {
    /// The device failed. Comes only where the count of faults rose.
    #[error("the disk failed")]
    Disk,
    /// This page of the journal is the first head that is missing or breaks a rule. Nothing was
    /// written, if the disk tells its image.
    #[error("journal page {0} is damaged")]
    Damaged(u64),
}

impl From<Failed> for JournalFault {
    ghost from_gives = { λ _ fault. fault ≡ Disk };

    fn from(_failed: Failed) -> JournalFault {
        JournalFault::Disk
    }
}

// Whether the homes ascend from above the last one, each in reach of a Pages area of this length.
fn are_in_reach(len: u64, last: u64, homes: &[u64]) -> bool
    ensures reach { IsTrue result ↔ AreInReach len last homes.now }
    ensures typed { All (λ home. home < 2 ^ 64) homes.now }
{
    let mut before = last;
    for home in homes {
        if *home <= before || (*home > len && *home - before > 1) {
            return false;
        }
        before = *home;
    }
    true
}

// The last of the homes, or the one before them.
fn last_home(last: u64, homes: &[u64]) -> u64
    ensures { result ≡ last_of last homes.now }
{
    match homes.last() {
        Some(home) => *home,
        None => last,
    }
}

// The head at this page of a journal that ends at `end`, if it keeps the rules behind this home and over
// a Pages area of length `len`. At most one read.
fn head_at<D: Disk>(
    disk: &mut D,
    len: u64,
    end: u64,
    at: u64,
    last: u64,
) -> Result<JournalHead, JournalFault>
    requires { IsTrue (D.tells disk.old) → end ≡ length (D.image disk.old).journal }
    ensures ok { IfOk result (λ head. IsTrue (D.tells disk.old) → HeadAt len (D.image disk.old).journal at last head) }
    ensures only { IfOk result (λ head. IsTrue (D.tells disk.old)
        → (other : JournalHead) → HeadAt len (D.image disk.old).journal at last other → other ≡ head) }
    ensures within { IfOk result (λ head. at + length (homes_in head) < end) }
    ensures damaged { OnDamaged result (λ page. (page ≡ at) × (IsTrue (D.tells disk.old)
        → (head : JournalHead) → HeadAt len (D.image disk.old).journal at last head → ⊥)) }
    ensures reads { OnlyReads D.Disk is_disk (min 1 (end - at)) disk.old disk.new result }
{
    let mut page = blank_page();
    if at >= end || !disk.read(Area::Journal, at, &mut page)? {
        return Err(JournalFault::Damaged(at));
    }
    let Some(head) = JournalHead::read(&page) else {
        return Err(JournalFault::Damaged(at));
    };
    let homes = head.homes.as_slice();
    if end - at <= homes.len() as u64 || !are_in_reach(len, last, homes) {
        return Err(JournalFault::Damaged(at));
    }
    Ok(head)
}

// The number of images in the journal. Reads each head, and writes nothing.
fn count_images<D: Disk>(disk: &mut D, len: u64, end: u64) -> Result<u64, JournalFault>
    requires { IsTrue (D.tells disk.old) → end ≡ length (D.image disk.old).journal }
    ensures ok { IfOk result (λ count. IsTrue (D.tells disk.old) → (images : ImageList)
        × HoldsGroups len (D.image disk.old).journal 1 0 images × (count ≡ length images)) }
    ensures damaged { OnDamaged result (λ page. IsTrue (D.tells disk.old) → BreaksAt len (D.image disk.old).journal 1 0 page) }
    ensures reads { OnlyReads D.Disk is_disk end disk.old disk.new result }
{
    let mut at = 1;
    let mut last = 0;
    let mut count = 0;
    'groups: loop {
        let head = head_at(disk, len, end, at, last)?;
        let homes = head.homes.as_slice();
        count += homes.len() as u64;
        if !head.more {
            return Ok(count);
        }
        at += 1 + homes.len() as u64;
        last = last_home(last, homes);
    }
}

// Writes the images of a group home, which stand in a row from this page of the journal on.
fn restore_group<D: Disk>(disk: &mut D, at: u64, homes: &[u64]) -> Result<(), JournalFault>
    requires fits { at + length homes.now < 2 ^ 64 }
    requires there { IsTrue (D.tells disk.old) → at + length homes.now ≤ length (D.image disk.old).journal }
    requires writable { IsTrue (D.tells disk.old) → AreWritable (length (D.image disk.old).pages) homes.now }
    ensures placed { OnOk result (IsTrue (D.tells disk.old)
        → (D.image disk.new).pages ≡ with_images (D.image disk.old).pages (images_at (D.image disk.old).journal at homes.now)) }
    ensures journal { OnOk result (IsTrue (D.tells disk.old) → (D.image disk.new).journal ≡ (D.image disk.old).journal) }
    ensures pends { (images : PageMap) (start : Image) → All (λ home. IsSome (images home)) homes.now
        → AtNewest (HomesPend images start) (D.moments disk.old)
        → LeavesOnly (IsInPlacing images start) (D.moments disk.old) (D.moments disk.new) × AtNewest (HomesPend images start) (D.moments disk.new) }
    ensures damaged { OnDamaged result (λ _. IsTrue (D.tells disk.old) → ⊥) }
    ensures writes { Writes D.Disk is_disk (length homes.now) disk.old disk.new result }
{
    let mut page = blank_page();
    for (i, home) in homes.iter().enumerate() {
        let place = at + i as u64;
        if !disk.read(Area::Journal, place, &mut page)? {
            return Err(JournalFault::Damaged(place));
        }
        put_home(disk, *home, &page)?;
    }
    Ok(())
}

// Writes the images of the group at this page of the journal home. Answers its head, as `head_at` does.
fn restore_at<D: Disk>(
    disk: &mut D,
    len: u64,
    end: u64,
    at: u64,
    last: u64,
) -> Result<JournalHead, JournalFault>
    requires end { IsTrue (D.tells disk.old) → end ≡ length (D.image disk.old).journal }
    requires longer { IsTrue (D.tells disk.old) → len ≤ length (D.image disk.old).pages }
    requires low { IsTrue (D.tells disk.old) → last < length (D.image disk.old).pages }
    ensures ok { IfOk result (λ head. IsTrue (D.tells disk.old) → HeadAt len (D.image disk.old).journal at last head) }
    ensures only { IfOk result (λ head. IsTrue (D.tells disk.old)
        → (other : JournalHead) → HeadAt len (D.image disk.old).journal at last other → other ≡ head) }
    ensures within { IfOk result (λ head. at + length (homes_in head) < end) }
    ensures placed { IfOk result (λ head. IsTrue (D.tells disk.old)
        → (D.image disk.new).pages ≡ with_images (D.image disk.old).pages (group_at (D.image disk.old).journal at head)) }
    ensures journal { OnOk result (IsTrue (D.tells disk.old) → (D.image disk.new).journal ≡ (D.image disk.old).journal) }
    ensures pends { (images : PageMap) (start : Image) → (IsTrue (D.tells disk.old) → (head : JournalHead)
        → HeadAt len (D.image disk.old).journal at last head
        → ((other : JournalHead) → HeadAt len (D.image disk.old).journal at last other → other ≡ head)
        → All (λ home. IsSome (images home)) (homes_in head))
        → AtNewest (HomesPend images start) (D.moments disk.old)
        → LeavesOnly (IsInPlacing images start) (D.moments disk.old) (D.moments disk.new) × AtNewest (HomesPend images start) (D.moments disk.new) }
    ensures damaged { OnDamaged result (λ _. IsTrue (D.tells disk.old)
        → (head : JournalHead) → HeadAt len (D.image disk.old).journal at last head → ⊥) }
    ensures cost { IfOk result (λ head. D.reads disk.new ≤ D.reads disk.old + (1 + length (homes_in head))) }
    ensures writes { Writes D.Disk is_disk (end - at) disk.old disk.new result }
{
    let head = head_at(disk, len, end, at, last)?;
    restore_group(disk, at + 1, head.homes.as_slice())?;
    Ok(head)
}

// Writes the images of all groups home.
fn restore_groups<D: Disk>(disk: &mut D, len: u64, end: u64) -> Result<(), JournalFault>
    requires end { IsTrue (D.tells disk.old) → end ≡ length (D.image disk.old).journal }
    requires len { IsTrue (D.tells disk.old) → len ≡ length (D.image disk.old).pages }
    requires made { IsTrue (D.tells disk.old) → 1 ≤ length (D.image disk.old).pages }
    ensures placed { OnOk result (IsTrue (D.tells disk.old) → (all : ImageList) → HoldsGroups len (D.image disk.old).journal 1 0 all
        → (D.image disk.new).pages ≡ with_images (D.image disk.old).pages all) }
    ensures journal { OnOk result (IsTrue (D.tells disk.old) → (D.image disk.new).journal ≡ (D.image disk.old).journal) }
    ensures pends { (all : ImageList) → (IsTrue (D.tells disk.old) → HoldsGroups len (D.image disk.old).journal 1 0 all)
        → AtNewest (HomesPend (map_of all) (D.image disk.old)) (D.moments disk.old)
        → LeavesOnly (IsInPlacing (map_of all) (D.image disk.old)) (D.moments disk.old) (D.moments disk.new)
        × AtNewest (HomesPend (map_of all) (D.image disk.old)) (D.moments disk.new) }
    ensures damaged { OnDamaged result (λ _. IsTrue (D.tells disk.old) → (all : ImageList)
        → HoldsGroups len (D.image disk.old).journal 1 0 all → ⊥) }
    ensures writes { Writes D.Disk is_disk end disk.old disk.new result }
{
    let mut at = 1;
    let mut last = 0;
    'groups: loop {
        let head = restore_at(disk, len, end, at, last)?;
        let homes = head.homes.as_slice();
        if !head.more {
            return Ok(());
        }
        at += 1 + homes.len() as u64;
        last = last_home(last, homes);
    }
}

// Writes the images of all groups home, and makes sure of them.
fn restore<D: Disk>(disk: &mut D, len: u64, end: u64) -> Result<(), JournalFault>
    requires end { IsTrue (D.tells disk.old) → end ≡ length (D.image disk.old).journal }
    requires len { IsTrue (D.tells disk.old) → len ≡ length (D.image disk.old).pages }
    requires made { IsTrue (D.tells disk.old) → 1 ≤ length (D.image disk.old).pages }
    requires settled { LeavesNow (D.moments disk.old) (D.image disk.old) }
    ensures placed { OnOk result (IsTrue (D.tells disk.old) → (all : ImageList) → HoldsGroups len (D.image disk.old).journal 1 0 all
        → (D.image disk.new).pages ≡ with_images (D.image disk.old).pages all) }
    ensures journal { OnOk result (IsTrue (D.tells disk.old) → (D.image disk.new).journal ≡ (D.image disk.old).journal) }
    ensures settled { OnOk result (LeavesNow (D.moments disk.new) (D.image disk.new)) }
    ensures any_moment { (all : ImageList) → (IsTrue (D.tells disk.old) → HoldsGroups len (D.image disk.old).journal 1 0 all)
        → LeavesOnly (IsInPlacing (map_of all) (D.image disk.old)) (D.moments disk.old) (D.moments disk.new) }
    ensures damaged { OnDamaged result (λ _. IsTrue (D.tells disk.old) → (all : ImageList)
        → HoldsGroups len (D.image disk.old).journal 1 0 all → ⊥) }
    ensures writes { Writes D.Disk is_disk end disk.old disk.new result }
{
    restore_groups(disk, len, end)?;
    disk.sync()?;
    Ok(())
}

// Writes the images of an open journal home, and then closes its gate.
fn bring_back<D: Disk>(disk: &mut D, len: u64, end: u64) -> Result<(), JournalFault>
    requires end { IsTrue (D.tells disk.old) → end ≡ length (D.image disk.old).journal }
    requires len { IsTrue (D.tells disk.old) → len ≡ length (D.image disk.old).pages }
    requires armed { IsTrue (D.tells disk.old) → HasGate (D.image disk.old) true }
    requires settled { LeavesNow (D.moments disk.old) (D.image disk.old) }
    ensures placed { OnOk result (IsTrue (D.tells disk.old) → (all : ImageList) → HoldsImages (D.image disk.old) all
        → ArePlaced (map_of all) (D.image disk.old).pages (D.image disk.new).pages × (gate_of (D.image disk.new) ≡ Idle)) }
    ensures gate { OnOk result (IsTrue (D.tells disk.old) → page_at (D.image disk.new).journal 0 ≡ gate_bytes false) }
    ensures body { OnOk result (IsTrue (D.tells disk.old) → SameBody (D.image disk.old).journal (D.image disk.new).journal) }
    ensures settled { OnOk result (LeavesNow (D.moments disk.new) (D.image disk.new)) }
    ensures any_moment { (pages : PageList) → SettlesTo (D.image disk.old) pages
        → LeavesOnly (λ x. SettlesTo x pages) (D.moments disk.old) (D.moments disk.new) }
    ensures damaged { OnDamaged result (λ _. IsTrue (D.tells disk.old) → (all : ImageList)
        → HoldsImages (D.image disk.old) all → ⊥) }
    ensures writes { Writes D.Disk is_disk end disk.old disk.new result }
{
    restore(disk, len, end)?;
    write_gate(disk, false)?;
    Ok(())
}

/// Writes the images of an open journal to their homes, and closes its gate. Answers their number.
///
/// All heads are read and tested before the first write: where one breaks a rule the answer is
/// `Damaged` with its page. A crash at any moment leaves a disk that stands for the same pages. Takes
/// no memory, and makes at most two reads for each page of the journal.
pub fn replay<D: Disk>(disk: &mut D) -> Result<u64, JournalFault>
    requires armed { IsTrue (D.tells disk.old) → gate_of (D.image disk.old) ≡ Armed }
    requires settled { LeavesNow (D.moments disk.old) (D.image disk.old) }
    ensures ok { IfOk result (λ count. IsTrue (D.tells disk.old) → IsReplayed (D.image disk.old) count (D.image disk.new)) }
    // The gate is closed, to its last byte.
    ensures gate { OnOk result (IsTrue (D.tells disk.old) → page_at (D.image disk.new).journal 0 ≡ gate_bytes false) }
    ensures settled { OnOk result (LeavesNow (D.moments disk.new) (D.image disk.new)) }
    // The page is the first that breaks the rules, and nothing was written.
    ensures damaged { OnDamaged result (λ page. IsTrue (D.tells disk.old) → BreaksRulesAt (D.image disk.old) page) }
    ensures untouched { OnDamaged result (λ _. IsTrue (D.tells disk.old)
        → (D.image disk.new ≡ D.image disk.old) × (D.moments disk.new ≡ D.moments disk.old)) }
    // Where the journal breaks its rules, nothing was written, whatever the answer.
    ensures broken { (page : ℕ) → IsTrue (D.tells disk.old) → BreaksRulesAt (D.image disk.old) page
        → (D.image disk.new ≡ D.image disk.old) × (D.moments disk.new ≡ D.moments disk.old) }
    ensures any_moment { (pages : PageList) → SettlesTo (D.image disk.old) pages
        → LeavesOnly (λ x. SettlesTo x pages) (D.moments disk.old) (D.moments disk.new) }
    ensures writes { WritesAsTold D.Disk is_disk (2 * length (D.image disk.old).journal) disk.old disk.new result }
{
    // What the first pass finds whole breaks no rule.
    settling_laws();
    let len = disk.len(Area::Pages)?;
    let end = disk.len(Area::Journal)?;
    let count = count_images(disk, len, end)?;
    bring_back(disk, len, end)?;
    Ok(count)
}

//! The heads of the journal's groups.
ghost use Rattle.std.specs.Prelude.{◌≡◌, ◌+◌, ◌-◌, ◌<◌, ◌^◌, ◌↔◌, min, IsTrue, IfOk, IfErr, length};
ghost use Rattle.std.specs.List.{All};
ghost use Rattle.page_layout.specs.declared.journal_head.JournalHead.{JournalHead};
ghost use Rattle.page_disk.specs.Calls.{OnlyReads};
ghost use Rattle.redo_journal.specs.Placing.{AreInReach};
ghost use Rattle.redo_journal.specs.Groups.{HeadAt, homes_in, last_of};
ghost use Rattle.settled_pages.specs.Faults.{AtBadJournal, AtEmpty, AtNoMemory, is_disk};

use crate::SettleFault;
use page_disk::{Area, Disk};
use page_layout::{JournalHead, Spelled};
use ports::blank_page;

// Whether the homes ascend from above the last one, each in reach of a Pages area of this length.
fn are_in_reach(len: u64, last: u64, homes: &[u64]) -> bool
    ensures reach { IsTrue result ↔ AreInReach len last homes.now }
    ensures typed { All (λ home. home < 2 ^ 64) homes.now }
{
    let mut before = last;
    for home in homes {
        if *home <= before || (*home > len && *home - before > 1) {
            return false;
        }
        before = *home;
    }
    true
}

/// The last of the homes, or the one before them.
pub(crate) fn last_home(last: u64, homes: &[u64]) -> u64
    ensures { result ≡ last_of last homes.now }
{
    match homes.last() {
        Some(home) => *home,
        None => last,
    }
}

/// The head at this page of a journal that ends at `end`, if it keeps the rules behind this home and
/// over a Pages area of length `len`. At most one read.
pub(crate) fn head_at<D: Disk>(
    disk: &mut D,
    len: u64,
    end: u64,
    at: u64,
    last: u64,
) -> Result<JournalHead, SettleFault>
    requires { IsTrue (D.tells disk.old) → end ≡ length (D.image disk.old).journal }
    ensures ok { IfOk result (λ head. IsTrue (D.tells disk.old) → HeadAt len (D.image disk.old).journal at last head) }
    ensures reach { IfOk result (λ head. AreInReach len last (homes_in head)) }
    ensures within { IfOk result (λ head. at + length (homes_in head) < end) }
    ensures bad { IfErr result (λ fault. AtBadJournal fault (λ page. (page ≡ at) × (IsTrue (D.tells disk.old)
        → (head : JournalHead) → HeadAt len (D.image disk.old).journal at last head → ⊥))) }
    ensures only { IfErr result (λ fault. AtEmpty fault ⊥ × AtNoMemory fault ⊥) }
    ensures reads { OnlyReads D.Disk is_disk (min 1 (end - at)) disk.old disk.new result }
{
    let mut page = blank_page();
    if at >= end || !disk.read(Area::Journal, at, &mut page)? {
        return Err(SettleFault::BadJournal(at));
    }
    let Some(head) = JournalHead::read(&page) else {
        return Err(SettleFault::BadJournal(at));
    };
    let homes = head.homes.as_slice();
    if end - at <= homes.len() as u64 || !are_in_reach(len, last, homes) {
        return Err(SettleFault::BadJournal(at));
    }
    Ok(head)
}

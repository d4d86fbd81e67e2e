//! What a crash makes of the pages of an area.
ghost use Rattle.std.specs.Prelude.{◌≡◌, length, reverse, slice_set};
ghost use Rattle.page_disk.specs.Crash.{full_of};
ghost use Rattle.page_disk.specs.History.{refilled, undone};

use crate::entry::Entry;
use ports::Page;

#[tactic(auto, unfolding(crate::specs::Crash::full_of))]
fn full_page(byte: u8) -> Page
    ensures { result ≡ full_of byte }
{
    [byte; 4096]
}

fn set_page(pages: &mut Vec<Page>, place: usize, bytes: Page)
    ensures { pages.new.items ≡ slice_set pages.old.items place bytes }
{
    if place < pages.len() {
        pages[place] = bytes;
    }
}

/// Undoes the entries since the last sync.
pub(crate) fn undo(pages: &mut Vec<Page>, mut log: Vec<Entry>)
    ensures { pages.new.items ≡ undone pages.old.items (reverse log.items) }
{
    while let Some(entry) = log.pop() {
        match entry {
            Entry::Still => {}
            Entry::Synced => break,
            Entry::Appended => {
                let _ = pages.pop();
            }
            Entry::Overwrote(page, before) => set_page(pages, page as usize, *before),
        }
    }
}

/// Fills the pages that were written since the last sync with a byte.
pub(crate) fn fill(pages: &mut Vec<Page>, mut log: Vec<Entry>, byte: u8)
    ensures { pages.new.items ≡ refilled (length pages.old.items) (full_of byte) pages.old.items (reverse log.items) }
{
    let mut len = pages.len();
    while let Some(entry) = log.pop() {
        match entry {
            Entry::Still => {}
            Entry::Synced => break,
            Entry::Appended => {
                len = len.saturating_sub(1);
                set_page(pages, len, full_page(byte));
            }
            Entry::Overwrote(page, _) => set_page(pages, page as usize, full_page(byte)),
        }
    }
}

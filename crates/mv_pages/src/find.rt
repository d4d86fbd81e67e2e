//! Which entries of a node a key and a version find.
ghost use Rattle.std.specs.Prelude.{◌≡◌, ◌≤◌, nat_lt, position, insert, length};
ghost use Rattle.page_layout.specs.declared.mv_node.MvEntry.{MvEntry};
ghost use Rattle.mv_pages.specs.Alive.{is_alive, reaches, is_beyond, is_alive_from};
ghost use Rattle.mv_pages.specs.Edits.{IsPathIndex, put_in};

use page_layout::MvEntry;

/// The end of an entry that is not closed.
pub(crate) const OPEN: u32 = 4294967295;

/// Whether an entry has started at the version and is not closed there.
pub fn is_alive(e: &MvEntry, version: u32) -> bool
    ensures { result ≡ is_alive version e.now }
{
    // No branch: which entries are alive cannot be foreseen.
    (e.start <= version) & ((version < e.end) | (e.end == OPEN))
}

/// Whether the entry is alive at the version and begins at or below the key.
pub(crate) fn reaches(e: &MvEntry, key: u64, version: u32) -> bool
    ensures { result ≡ reaches key version e.now }
{
    (e.low <= key) & is_alive(e, version)
}

/// The index of the entry that is alive at the version and begins at the low.
pub(crate) fn alive_index(entries: &[MvEntry], low: u64, version: u32) -> Option<usize>
    ensures { result ≡ position (is_alive_from version low) entries.now }
{
    entries
        .iter()
        .position(|e| (e.low == low) & is_alive(e, version))
}

/// The index of the last entry that is alive at the version and begins at or below the key.
pub(crate) fn path_index(entries: &[MvEntry], key: u64, version: u32) -> Option<usize>
    ensures { IsPathIndex entries.now key version result }
{
    let mut last = None;
    for i in 0..entries.len() {
        if reaches(&entries[i], key, version) {
            last = Some(i);
        }
    }
    last
}

/// The index of the first entry that is alive at the version and begins above the key.
pub(crate) fn next_index(entries: &[MvEntry], key: u64, version: u32) -> Option<usize>
    ensures { result ≡ position (is_beyond key version) entries.now }
{
    entries
        .iter()
        .position(|e| (key < e.low) & is_alive(e, version))
}

/// The index of the first entry that begins above the low.
fn first_above(entries: &[MvEntry], low: u64) -> Option<usize>
    ensures { result ≡ position (λ e. nat_lt low e.low) entries.now }
{
    entries.iter().position(|e| low < e.low)
}

/// Where an entry of the low is put in: before the first that begins above it.
pub(crate) fn place_for(entries: &[MvEntry], low: u64) -> usize
    ensures bound { result ≤ length entries.now }
    ensures place { (entry : MvEntry) → entry.low ≡ low → insert entries.now result entry ≡ put_in entry entries.now }
{
    match first_above(entries, low) {
        Some(index) => index,
        None => entries.len(),
    }
}

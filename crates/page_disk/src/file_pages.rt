//! Pages in a file.
use ports::Page;
use std::fs::OpenFile;
use std::io;
use std::os::unix::fs::FileExt;

/// The bytes of a page.
const PAGE_BYTES: u64 = 4096;

/// How many whole pages a file has. A last part that is shorter than a page does not count.
pub(crate) fn page_count<F: OpenFile>(file: &F) -> io::Result<u64> {
    match file.metadata() {
        Ok(data) => Ok(data.len() / PAGE_BYTES),
        Err(error) => Err(error),
    }
}

// The first byte of a page in its file.
fn place_of(page: u64) -> io::Result<u64> {
    match page.checked_mul(PAGE_BYTES) {
        Some(place) => Ok(place),
        None => Err(io::Error::from(io::ErrorKind::FileTooLarge)),
    }
}

/// Reads a page where it stands, whatever was read or written before: one call of the system.
pub(crate) fn read_page<F: FileExt>(file: &F, page: u64, buf: &mut Page) -> io::Result<()> {
    match place_of(page) {
        Ok(place) => file.read_exact_at(buf, place),
        Err(error) => Err(error),
    }
}

/// Writes pages side by side from this one on, whatever was read or written before: one call of the
/// system.
pub(crate) fn write_pages<F: FileExt>(file: &F, first: u64, pages: &[Page]) -> io::Result<()> {
    match place_of(first) {
        Ok(place) => file.write_all_at(pages.as_flattened(), place),
        Err(error) => Err(error),
    }
}

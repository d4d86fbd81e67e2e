//! The places of the standard streams.

use std::fs::OpenOptions;
use std::io;
use std::rt::Files;

/// A folder that every system has.
const ROOT: &str = "/";

/// Opens three files that serve nothing, to be held until the program ends.
///
/// The system gives the least free number to a file that is opened. Where the caller has closed a standard stream, that is the stream's, and
/// replies would be written over the pages of a warehouse. So these come before any other file. They are a folder, opened to be read: what
/// reads it or writes to it fails, as with a stream that is closed.
pub(crate) fn hold_places<R: Files>(rt: &R) -> io::Result<[R::File; 3]> {
    Ok([open_root(rt)?, open_root(rt)?, open_root(rt)?])
}

fn open_root<R: Files>(rt: &R) -> io::Result<R::File> {
    let mut how = OpenOptions::new();
    how.read(true);
    how.open(rt, ROOT)
}

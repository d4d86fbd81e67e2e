//! Pages on a disk that may fail, and that may crash at any moment.
//!
//! `Disk` has two areas of pages, which are read, written and synced. A disk that tells its crashes
//! tells the moments so far, each with what a crash at it may leave: since the last sync that
//! succeeded, each page that was written and any part past the old end may hold any bytes, the length
//! is any from the synced one to the greatest since, and all other pages stay. So a contract above can
//! speak of every moment inside a call. `MemDisk` tells everything and can crash, `PlainDisk` tells
//! its image alone, and `FileDisk` keeps two files of the operating system and tells its counts alone.
#![tactic(auto)]

mod area_file;
mod disk;
mod entry;
mod failure;
mod file_disk;
mod file_pages;
mod half;
mod laws;
mod mem_disk;
mod pending;
mod plain_disk;
mod plan;
mod run;
mod torn;

pub use disk::{Area, Disk, Failed};
pub use failure::{Failure, FileCall};
pub use file_disk::FileDisk;
pub use laws::crash_laws;
pub use mem_disk::MemDisk;
pub use plain_disk::PlainDisk;
pub use torn::Torn;

//! A disk over two files of the operating system.
ghost use Rattle.std.specs.Prelude.{◌≡◌, ◌≢◌, ◌≤◌, ◌+◌, ◌-◌, ◌^◌, [], min, false, Some, Ok, Err, codes};
ghost use Rattle.std.specs.Prelude.{IsSome, IsErr, IsTrue, OnErr, is_err};
ghost use Rattle.ports.specs.Count.{CountsFault};
ghost use Rattle.page_disk.specs.FileName.{is_file_name};
ghost use Rattle.page_disk.specs.Image.{Image};

use crate::area_file::AreaFile;
use crate::failure::{Failure, FileCall};
use crate::{Area, Disk, Failed};
use ports::{Page, raised};
use std::alloc::Global;
use std::fs::{OpenFile, OpenOptions};
use std::os::unix::fs::FileExt;
use std::rt::Files;

/// The file of the Pages area, in the working folder.
const PAGES_FILE: &str = "boxsum.pages";

/// The file of the Journal area, in the working folder.
const JOURNAL_FILE: &str = "boxsum.journal";

/// The working folder, as a failure names it.
const FOLDER: &str = ".";

/// A disk over two files, one an area. A last part of a file that is shorter than a page does not
/// count in its length.
///
/// Each file is opened, and made where absent, at the first call on its area; a sync makes sure of
/// each file that was written since the last one, and at first of both and of the folder's entries.
/// The lengths are kept, so the files are this disk's alone while it lives. What the files hold is not
/// told: that they keep to the model of a disk is taken from the operating system.
///
/// Pages that are written side by side, each next to the one before, are gathered in memory, at most 64
/// of an area, and go to the file by one call of the system: before a write that is none of them and
/// does not come next, before a read of one of them, before a sync, and where there are 64. Where there
/// is no memory a page goes to the file by itself. What is gathered is pending, as what the system has
/// written and not synced is: a disk that is dropped gives it up, as a crash may. No caller in this
/// repository misses it, since each change of a disk (`create`, `commit`, `replay` of `redo_journal`)
/// ends with a sync. Where what is gathered can't be put to the file it stays gathered, so that reads,
/// the length and the next sync are still those of a disk that has it.
#[derive(Drop)]
pub struct FileDisk<R: Files> {
    rt: R,
    pages: AreaFile<R>,
    journal: AreaFile<R>,
    folder_synced: bool,
    reads: u64,
    faults: u64,
    last_failure: Option<Failure>,
}

// Makes sure of the entries of the working folder.
fn sync_folder<R: Files>(rt: &R) -> Result<(), Failure> {
    let mut how = OpenOptions::new();
    how.read(true);
    let folder = Failure::unless(FOLDER, FileCall::Open, how.open(rt, FOLDER))?;
    Failure::unless(FOLDER, FileCall::Sync, folder.sync_all())
}

impl<R: Files> FileDisk<R>
where
    R::File: FileExt,
{
    ghost use Rattle.page_disk.specs.declared.failure.Failure.{Failure as FailureName};
    ghost use Rattle.page_disk.specs.FileDisk.{KeepsFiles, failure_of, fault_count, journal_file, pages_file, read_count};

    /// A disk over the files `boxsum.pages` and `boxsum.journal` in the working folder.
    pub fn new(alloc: Global, rt: R) -> FileDisk<R>
        ensures pages { pages_file result ≡ codes "boxsum.pages" }
        ensures journal { journal_file result ≡ codes "boxsum.journal" }
        ensures reads { read_count result ≡ 0 }
        ensures faults { fault_count result ≡ 0 }
    {
        FileDisk::named(alloc, rt, PAGES_FILE, JOURNAL_FILE)
    }

    /// A disk over the files of these names in the working folder.
    pub fn named(alloc: Global, rt: R, pages: &'static str, journal: &'static str) -> FileDisk<R>
        requires differ { pages.now ≢ journal.now }
        requires pages { IsTrue (is_file_name pages.now) }
        requires journal { IsTrue (is_file_name journal.now) }
        ensures pages { pages_file result ≡ pages.now }
        ensures journal { journal_file result ≡ journal.now }
        ensures reads { read_count result ≡ 0 }
        ensures faults { fault_count result ≡ 0 }
    {
        FileDisk {
            rt,
            pages: AreaFile::named(alloc, pages),
            journal: AreaFile::named(alloc, journal),
            folder_synced: false,
            reads: 0,
            faults: 0,
            last_failure: None,
        }
    }

    /// The last call on a file that failed, if one did: what a `Failed` of this disk doesn't say. After a
    /// call on this disk that failed there is one.
    pub fn last_failure(&self) -> Option<Failure>
        ensures { result ≡ failure_of self.now }
    {
        self.last_failure
    }

    // The answer of a call on the files, of which a failure counts as a fault and is kept.
    fn answered<T>(&mut self, answer: Result<T, Failure>) -> Result<T, Failed>
        ensures answer { (value : T) → result ≡ Ok value → answer ≡ Ok value }
        ensures fails { is_err result ≡ is_err answer }
        ensures last { (failure : FailureName) → answer ≡ Err failure → self.new.last_failure ≡ Some failure }
        ensures failure { OnErr result (IsSome (failure_of self.new)) }
        ensures reads { self.new.reads ≡ self.old.reads }
        ensures faults { CountsFault result self.old.faults self.new.faults }
        ensures files { (self.new.pages ≡ self.old.pages) × (self.new.journal ≡ self.old.journal) }
    {
        match answer {
            Ok(value) => Ok(value),
            Err(failure) => {
                self.faults = raised(self.faults);
                self.last_failure = Some(failure);
                Err(Failed)
            }
        }
    }

    fn sync_files(&mut self) -> Result<(), Failure>
        ensures files { KeepsFiles self.old self.new }
        ensures reads { self.new.reads ≡ self.old.reads }
        ensures faults { self.new.faults ≡ self.old.faults }
    {
        self.pages.sync(&self.rt, self.folder_synced)?;
        self.journal.sync(&self.rt, self.folder_synced)?;
        if !self.folder_synced {
            sync_folder(&self.rt)?;
            self.folder_synced = true;
        }
        Ok(())
    }
}

impl<R: Files> Disk for FileDisk<R>
where
    R::File: FileExt,
{
    ghost use Rattle.page_disk.specs.FileDisk.{KeepsFiles, failure_of, fault_count, other_file, read_count};

    ghost tells = { λ _. false };

    ghost image = { λ _. record { pages = []; journal = [] } };

    ghost moments = { λ _. [] };

    ghost reads = { λ disk. disk.reads };

    ghost faults = { λ disk. disk.faults };

    ghost tells_image = { λ _. tt };

    fn len(&mut self, area: Area) -> Result<u64, Failed>
        ensures files { KeepsFiles self.old self.new }
        ensures other { other_file area self.new ≡ other_file area self.old }
        ensures failure { OnErr result (IsSome (failure_of self.new)) }
        ensures faults { CountsFault result (fault_count self.old) (fault_count self.new) }
        ensures reads { read_count self.new ≡ read_count self.old }
    {
        let answer = match area {
            Area::Pages => self.pages.len(&self.rt),
            Area::Journal => self.journal.len(&self.rt),
        };
        self.answered(answer)
    }

    fn read(&mut self, area: Area, page: u64, buf: &mut Page) -> Result<bool, Failed>
        ensures files { KeepsFiles self.old self.new }
        ensures other { other_file area self.new ≡ other_file area self.old }
        ensures absent { result ≡ Ok false → buf.new ≡ buf.old }
        ensures failure { OnErr result (IsSome (failure_of self.new)) }
        ensures faults { CountsFault result (fault_count self.old) (fault_count self.new) }
        ensures reads { read_count self.new ≡ min (read_count self.old + 1) (2 ^ 64 - 1) }
        ensures reads_stay_or_rise { read_count self.old ≤ read_count self.new }
        ensures worn_out { read_count self.old ≡ 2 ^ 64 - 1 → IsErr result }
    {
        if self.reads == u64::MAX {
            let refused = match area {
                Area::Pages => self.pages.refused(FileCall::Read),
                Area::Journal => self.journal.refused(FileCall::Read),
            };
            return self.answered(Err(refused));
        }
        self.reads += 1;
        let answer = match area {
            Area::Pages => self.pages.read(&self.rt, page, buf),
            Area::Journal => self.journal.read(&self.rt, page, buf),
        };
        self.answered(answer)
    }

    fn write(&mut self, area: Area, page: u64, buf: &Page) -> Result<(), Failed>
        ensures files { KeepsFiles self.old self.new }
        ensures other { other_file area self.new ≡ other_file area self.old }
        ensures failure { OnErr result (IsSome (failure_of self.new)) }
        ensures faults { CountsFault result (fault_count self.old) (fault_count self.new) }
        ensures reads { read_count self.new ≡ read_count self.old }
    {
        let answer = match area {
            Area::Pages => self.pages.write(&self.rt, page, buf),
            Area::Journal => self.journal.write(&self.rt, page, buf),
        };
        self.answered(answer)
    }

    fn sync(&mut self) -> Result<(), Failed>
        ensures files { KeepsFiles self.old self.new }
        ensures failure { OnErr result (IsSome (failure_of self.new)) }
        ensures faults { CountsFault result (fault_count self.old) (fault_count self.new) }
        ensures reads { read_count self.new ≡ read_count self.old }
    {
        let answer = self.sync_files();
        self.answered(answer)
    }
}

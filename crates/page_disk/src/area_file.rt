//! The file of one area.
ghost use Rattle.std.specs.Prelude.{◌≡◌, ◌⊎◌, [], true, false, Ok, OnOk, OnErr};
ghost use Rattle.page_disk.specs.Run.{HoldsPage, IsIn, IsSameRun};

use crate::failure::{Failure, FileCall};
use crate::file_pages::{page_count, read_page, write_pages};
use crate::run::Run;
use ports::Page;
use std::alloc::Global;
use std::fs::{OpenFile, OpenOptions};
use std::os::unix::fs::FileExt;
use std::rt::Files;

/// A file that is opened, and made where absent, at the first call. Pages that are written side by side
/// are gathered, and go to the file in one call of the system.
#[derive(Drop)]
pub(crate) struct AreaFile<R: Files> {
    /// Its name in the working folder.
    pub name: &'static str,
    /// The file, once it is opened.
    pub file: Option<R::File>,
    /// How many whole pages there are, those that are gathered among them, if that is known.
    pub len: Option<u64>,
    /// Whether writes may be pending: since the last sync, or of a program that stopped before.
    pub pending: bool,
    /// The pages that are gathered.
    pub run: Run,
}

// The file, which is opened where it is not yet.
fn opened<'a, R: Files>(
    rt: &R,
    name: &'static str,
    file: &'a mut Option<R::File>,
) -> Result<&'a R::File, Failure> {
    if file.is_none() {
        let mut how = OpenOptions::new();
        how.read(true).write(true).create(true);
        *file = Some(Failure::unless(name, FileCall::Open, how.open(rt, name))?);
    }
    match file {
        Some(file) => Ok(file),
        None => Err(Failure {
            file: name,
            call: FileCall::Open,
            code: None,
        }),
    }
}

impl<R: Files> AreaFile<R>
where
    R::File: FileExt,
{
    /// The file of this name, of which nothing is known yet.
    pub fn named(alloc: Global, name: &'static str) -> AreaFile<R>
        ensures name { result.name.now ≡ name.now }
    {
        AreaFile {
            name,
            file: None,
            len: None,
            pending: true,
            run: Run::empty(alloc),
        }
    }

    /// A failure of a call for which the system was not asked.
    pub fn refused(&self, call: FileCall) -> Failure {
        Failure {
            file: self.name,
            call,
            code: None,
        }
    }

    // Writes pages side by side, whatever is gathered.
    fn write_through(&mut self, rt: &R, first: u64, pages: &[Page]) -> Result<(), Failure>
        ensures name { self.new.name ≡ self.old.name }
        ensures run { self.new.run ≡ self.old.run }
    {
        let file = opened(rt, self.name, &mut self.file)?;
        Failure::unless(self.name, FileCall::Write, write_pages(file, first, pages))
    }

    // Puts what is gathered to the file. Where that fails it stays gathered, since each of its pages
    // was answered as written.
    fn put_run(&mut self, rt: &R) -> Result<(), Failure>
        ensures name { self.new.name ≡ self.old.name }
        ensures put { OnOk result (self.new.run.pages.items ≡ []) }
        ensures stays { OnErr result (IsSameRun self.old.run self.new.run) }
    {
        if self.run.pages.is_empty() {
            return Ok(());
        }
        let file = opened(rt, self.name, &mut self.file)?;
        let answer = write_pages(file, self.run.first, self.run.pages.as_slice());
        Failure::unless(self.name, FileCall::Write, answer)?;
        self.run.clear();
        Ok(())
    }

    /// The number of pages. The file is asked once, and again after a write that failed.
    pub fn len(&mut self, rt: &R) -> Result<u64, Failure>
        ensures name { self.new.name ≡ self.old.name }
        ensures run { self.new.run ≡ self.old.run }
    {
        if let Some(len) = self.len {
            return Ok(len);
        }
        let file = opened(rt, self.name, &mut self.file)?;
        let len = Failure::unless(self.name, FileCall::Metadata, page_count(file))?;
        self.len = Some(len);
        Ok(len)
    }

    /// Answers false where the page is at or past the end, and then `buf` is as before. A page that is
    /// gathered is put to the file first.
    pub fn read(&mut self, rt: &R, page: u64, buf: &mut Page) -> Result<bool, Failure>
        ensures name { self.new.name ≡ self.old.name }
        ensures absent { result ≡ Ok false → buf.new ≡ buf.old }
        ensures put { result ≡ Ok true → IsIn self.new.run page → ⊥ }
    {
        if page >= self.len(rt)? {
            return Ok(false);
        }
        if self.run.has(page) {
            self.put_run(rt)?;
        }
        let file = opened(rt, self.name, &mut self.file)?;
        Failure::unless(self.name, FileCall::Read, read_page(file, page, buf))?;
        Ok(true)
    }

    // Writes a page for which there is no memory to gather it.
    fn write_now(&mut self, rt: &R, page: u64, buf: &Page) -> Result<(), Failure>
        ensures name { self.new.name ≡ self.old.name }
        ensures put { OnOk result (self.new.run.pages.items ≡ []) }
    {
        self.put_run(rt)?;
        self.len = None;
        self.write_through(rt, page, &[*buf])
    }

    /// Gathers a page. What is gathered already goes to the file first where this page is none of it
    /// and does not come next, or there are 64. Fails where the page is past the end.
    pub fn write(&mut self, rt: &R, page: u64, buf: &Page) -> Result<(), Failure>
        ensures name { self.new.name ≡ self.old.name }
        ensures written { OnOk result (HoldsPage self.new.run page buf.now ⊎ (self.new.run.pages.items ≡ [])) }
    {
        let len = self.len(rt)?;
        if page > len {
            return Err(self.refused(FileCall::Write));
        }
        self.pending = true;
        if !self.run.takes(page) {
            self.put_run(rt)?;
        }
        if self.run.put(page, buf).is_err() {
            self.write_now(rt, page, buf)?;
        }
        self.len = Some(len.max(page.saturating_add(1)));
        Ok(())
    }

    /// Puts what is gathered to the file, and makes sure of it. A call for that only where writes may be
    /// pending, since it is the dearest call there is. Of a file whose entry is synced the bytes and the
    /// length are made sure of, and nothing else.
    pub fn sync(&mut self, rt: &R, entry_synced: bool) -> Result<(), Failure>
        ensures name { self.new.name ≡ self.old.name }
        ensures put { OnOk result (self.new.run.pages.items ≡ []) }
    {
        self.put_run(rt)?;
        if !self.pending {
            return Ok(());
        }
        let file = opened(rt, self.name, &mut self.file)?;
        let answer = if entry_synced {
            file.sync_data()
        } else {
            file.sync_all()
        };
        Failure::unless(self.name, FileCall::Sync, answer)?;
        self.pending = false;
        Ok(())
    }
}

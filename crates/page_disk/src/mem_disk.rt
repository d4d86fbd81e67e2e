//! A disk in memory that records its calls and tells everything.
ghost use Rattle.std.specs.Prelude.{◌≡◌, ◌∷◌, ◌+◌, ◌-◌, ◌^◌, ◌≤◌, ◌==◌, ◌||◌, [], length, min, true, false, Ok, IfOk, IsErr, OnOk, OnErr, is_err};
ghost use Rattle.ports.specs.Count.{Rose};
ghost use Rattle.page_disk.specs.Crash.{LeftBy};
ghost use Rattle.page_disk.specs.CallPlan.{no_failures};
ghost use Rattle.ports.specs.Count.{CountsFault};
ghost use Rattle.page_disk.specs.Disk.{IsRead};
ghost use Rattle.page_disk.specs.History.{area_moments, side_by_side};
ghost use Rattle.page_disk.specs.Image.{Image, area_of, with_area, written_at};
ghost use Rattle.page_disk.specs.Moment.{MayBeLeftNow, area_counted, counted_in, settled_moment, then_moment};

use crate::half::Half;
use crate::plan::Plan;
use crate::{Area, Disk, Failed, Torn};
use ports::{Page, raised};
use std::alloc::Global;

/// A disk in memory, whose calls can be made to fail and which can crash.
///
/// It records every call, save one that finds no memory: that one counts as a fault, and leaves pages
/// and record as before. A write that fails leaves the disk as before.
#[derive(Drop)]
pub struct MemDisk {
    alloc: Global,
    pages: Half,
    journal: Half,
    plan: Plan,
    calls: u64,
    reads: u64,
    faults: u64,
}

// Writes in the one area, and marks the moment in the other.
fn write_half(
    alloc: Global,
    half: &mut Half,
    other: &mut Half,
    page: u64,
    buf: &Page,
) -> Result<(), Failed>
    requires { page ≤ length half.old.pages.items }
    ensures pages { OnOk result (half.new.pages.items ≡ written_at half.old.pages.items page buf.now) }
    ensures moments { OnOk result (area_moments half.new.pages.items half.new.log.items
        ≡ then_moment (area_counted page) (area_moments half.old.pages.items half.old.log.items)) }
    ensures other_moments { OnOk result (area_moments other.new.pages.items other.new.log.items
        ≡ then_moment (λ m. m) (area_moments other.old.pages.items other.old.log.items)) }
    ensures other_pages { other.new.pages.items ≡ other.old.pages.items }
    ensures err_pages { OnErr result (half.new.pages.items ≡ half.old.pages.items) }
    ensures err_log { OnErr result (half.new.log.items ≡ half.old.log.items) }
    ensures err_other_log { OnErr result (other.new.log.items ≡ other.old.log.items) }
{
    other.still()?;
    if half.write(alloc, page, buf).is_err() {
        other.take_back();
        return Err(Failed);
    }
    Ok(())
}

impl MemDisk {
    ghost use Rattle.page_disk.specs.MemDisk.{image_of, moments_of, plan_of, call_count, read_count, fault_count, next_call, next_fails};

    /// A disk with no pages.
    pub fn blank(alloc: Global) -> MemDisk
        ensures image { image_of result ≡ record { pages = []; journal = [] } }
        ensures moments { moments_of result ≡ settled_moment (image_of result) ∷ [] }
        ensures plan { plan_of result ≡ no_failures }
        ensures calls { call_count result ≡ 0 }
        ensures reads { read_count result ≡ 0 }
        ensures faults { fault_count result ≡ 0 }
    {
        MemDisk::holding(alloc, Vec::new(alloc), Vec::new(alloc))
    }

    /// A disk that holds these pages, with nothing pending.
    pub fn holding(alloc: Global, pages: Vec<Page>, journal: Vec<Page>) -> MemDisk
        ensures image { image_of result ≡ record { pages = pages.items; journal = journal.items } }
        ensures moments { moments_of result ≡ settled_moment (image_of result) ∷ [] }
        ensures plan { plan_of result ≡ no_failures }
        ensures calls { call_count result ≡ 0 }
        ensures reads { read_count result ≡ 0 }
        ensures faults { fault_count result ≡ 0 }
    {
        MemDisk {
            alloc,
            pages: Half::new(alloc, pages),
            journal: Half::new(alloc, journal),
            plan: Plan::none(alloc),
            calls: 0,
            reads: 0,
            faults: 0,
        }
    }

    /// How many calls are on record.
    pub fn calls(&self) -> u64
        ensures { result ≡ call_count self.now }
    {
        self.calls
    }

    /// How often a page was read.
    pub fn reads(&self) -> u64
        ensures { result ≡ read_count self.now }
    {
        self.reads
    }

    /// How often a call failed.
    pub fn faults(&self) -> u64
        ensures { result ≡ fault_count self.now }
    {
        self.faults
    }

    /// Makes the calls of these numbers fail, counted from now on, from 1, in the place of those named before.
    pub fn fail_at(&mut self, calls: Vec<u64>)
        ensures plan { plan_of self.new ≡ record (plan_of self.old) { failing = calls.items; failing_from = call_count self.old } }
        ensures image { image_of self.new ≡ image_of self.old }
        ensures moments { moments_of self.new ≡ moments_of self.old }
        ensures calls { call_count self.new ≡ call_count self.old }
        ensures reads { read_count self.new ≡ read_count self.old }
        ensures faults { fault_count self.new ≡ fault_count self.old }
    {
        self.plan.failing = calls;
        self.plan.failing_from = self.calls;
    }

    /// Makes every call fail after so many from now on, in the place of such a stop before.
    pub fn stop_after(&mut self, calls: u64)
        ensures plan { plan_of self.new ≡ record (plan_of self.old) { last = Some calls; last_from = call_count self.old } }
        ensures image { image_of self.new ≡ image_of self.old }
        ensures moments { moments_of self.new ≡ moments_of self.old }
        ensures calls { call_count self.new ≡ call_count self.old }
        ensures reads { read_count self.new ≡ read_count self.old }
        ensures faults { fault_count self.new ≡ fault_count self.old }
    {
        self.plan.last = Some(calls);
        self.plan.last_from = self.calls;
    }

    /// The disk after a crash, which did so much with the pending writes. It has nothing pending, no
    /// failing calls, an empty record and counts of 0.
    pub fn crash(self, torn: Torn) -> MemDisk
        ensures left { LeftBy torn (moments_of self) (image_of self) (image_of result) }
        ensures may_be_left { MayBeLeftNow (moments_of self) (image_of result) }
        ensures moments { moments_of result ≡ settled_moment (image_of result) ∷ [] }
        ensures plan { plan_of result ≡ no_failures }
        ensures calls { call_count result ≡ 0 }
        ensures reads { read_count result ≡ 0 }
        ensures faults { fault_count result ≡ 0 }
    {
        let alloc = self.alloc;
        MemDisk {
            alloc,
            pages: self.pages.crash(alloc, torn),
            journal: self.journal.crash(alloc, torn),
            plan: Plan::none(alloc),
            calls: 0,
            reads: 0,
            faults: 0,
        }
    }

    fn area(&self, area: Area) -> &[Page]
        ensures { result.now ≡ area_of area (image_of self.now) }
    {
        match area {
            Area::Pages => &self.pages.pages,
            Area::Journal => &self.journal.pages,
        }
    }

    fn failed(&mut self) -> Failed
        ensures pages { self.new.pages ≡ self.old.pages }
        ensures journal { self.new.journal ≡ self.old.journal }
        ensures plan { self.new.plan ≡ self.old.plan }
        ensures calls { self.new.calls ≡ self.old.calls }
        ensures reads { self.new.reads ≡ self.old.reads }
        ensures faults { Rose self.old.faults self.new.faults }
        ensures never_falls { self.old.faults ≤ self.new.faults }
    {
        self.faults = raised(self.faults);
        Failed
    }

    // Puts a call on record, which fails if it was planned so.
    fn begin(&mut self) -> Result<(), Failed>
        ensures pages { self.new.pages ≡ self.old.pages }
        ensures journal { self.new.journal ≡ self.old.journal }
        ensures plan { self.new.plan ≡ self.old.plan }
        ensures calls { self.new.calls ≡ next_call self.old }
        ensures planned { is_err result ≡ next_fails self.old }
        ensures reads { self.new.reads ≡ self.old.reads }
        ensures faults { CountsFault result self.old.faults self.new.faults }
    {
        self.calls = raised(self.calls);
        if self.plan.fails(self.calls) {
            return Err(self.failed());
        }
        Ok(())
    }

    // Takes a call off the record that found no memory: so many were on record before it.
    fn no_memory(&mut self, calls: u64) -> Failed
        ensures pages { self.new.pages ≡ self.old.pages }
        ensures journal { self.new.journal ≡ self.old.journal }
        ensures plan { self.new.plan ≡ self.old.plan }
        ensures calls { self.new.calls ≡ calls }
        ensures reads { self.new.reads ≡ self.old.reads }
        ensures faults { Rose self.old.faults self.new.faults }
        ensures never_falls { self.old.faults ≤ self.new.faults }
    {
        self.calls = calls;
        self.failed()
    }

    fn sync_halves(&mut self) -> Result<(), Failed>
        ensures ok { OnOk result (moments_of self.new ≡ then_moment (λ _. settled_moment (image_of self.old)) (moments_of self.old)) }
        ensures err { OnErr result (moments_of self.new ≡ moments_of self.old) }
        ensures image { image_of self.new ≡ image_of self.old }
        ensures plan { self.new.plan ≡ self.old.plan }
        ensures calls { self.new.calls ≡ self.old.calls }
        ensures reads { self.new.reads ≡ self.old.reads }
        ensures faults { self.new.faults ≡ self.old.faults }
    {
        self.pages.sync()?;
        if self.journal.sync().is_err() {
            self.pages.take_back();
            return Err(Failed);
        }
        Ok(())
    }
}

impl Disk for MemDisk {
    ghost use Rattle.page_disk.specs.HistoryLaws.{halves_tell};
    ghost use Rattle.page_disk.specs.MemDisk.{FailsAsPlanned, FailsWhere, fault_count, image_of, moments_of, next_fails, read_count};

    ghost tells = { λ _. true };

    ghost image = { λ disk. image_of disk };

    ghost moments = { λ disk. moments_of disk };

    ghost reads = { λ disk. disk.reads };

    ghost faults = { λ disk. disk.faults };

    ghost tells_image = { λ disk. halves_tell (image_of disk) disk.pages.log.items disk.journal.log.items disk.pages.whole disk.journal.whole };

    fn len(&mut self, area: Area) -> Result<u64, Failed>
        ensures ok { IfOk result (λ n. n ≡ length (area_of area (image_of self.old))) }
        ensures faults { CountsFault result (fault_count self.old) (fault_count self.new) }
        ensures reads { read_count self.new ≡ read_count self.old }
        ensures image { image_of self.new ≡ image_of self.old }
        ensures moments { moments_of self.new ≡ moments_of self.old }
        ensures fails { FailsWhere (next_fails self.old) self.old self.new result }
    {
        self.begin()?;
        Ok(self.area(area).len() as u64)
    }

    fn read(&mut self, area: Area, page: u64, buf: &mut Page) -> Result<bool, Failed>
        ensures ok { IfOk result (λ found. IsRead (area_of area (image_of self.old)) page found buf.new) }
        ensures absent { result ≡ Ok false → buf.new ≡ buf.old }
        ensures faults { CountsFault result (fault_count self.old) (fault_count self.new) }
        ensures reads { read_count self.new ≡ min (read_count self.old + 1) (2 ^ 64 - 1) }
        ensures reads_stay_or_rise { read_count self.old ≤ read_count self.new }
        ensures worn_out { read_count self.old ≡ 2 ^ 64 - 1 → IsErr result }
        ensures image { image_of self.new ≡ image_of self.old }
        ensures moments { moments_of self.new ≡ moments_of self.old }
        // A read past the last one that can be counted fails too.
        ensures fails { FailsWhere (next_fails self.old || read_count self.old == 2 ^ 64 - 1) self.old self.new result }
    {
        let worn_out = self.reads == u64::MAX;
        self.reads = raised(self.reads);
        self.begin()?;
        if worn_out {
            return Err(self.failed());
        }
        match self.area(area).get(page as usize) {
            Some(kept) => {
                *buf = *kept;
                Ok(true)
            }
            None => Ok(false),
        }
    }

    // A write that fails leaves the disk as before.
    fn write(&mut self, area: Area, page: u64, buf: &Page) -> Result<(), Failed>
        requires { page ≤ length (area_of area (image_of self.old)) }
        ensures ok { OnOk result (image_of self.new
            ≡ with_area area (written_at (area_of area (image_of self.old)) page buf.now) (image_of self.old)) }
        ensures ok_moments { OnOk result (moments_of self.new ≡ then_moment (counted_in area page) (moments_of self.old)) }
        ensures err { OnErr result (image_of self.new ≡ image_of self.old) }
        ensures err_moments { OnErr result (moments_of self.new ≡ moments_of self.old) }
        ensures fails { FailsAsPlanned self.old self.new result }
        ensures faults { CountsFault result (fault_count self.old) (fault_count self.new) }
        ensures reads { read_count self.new ≡ read_count self.old }
    {
        let calls = self.calls;
        self.begin()?;
        let alloc = self.alloc;
        let answer = match area {
            Area::Pages => write_half(alloc, &mut self.pages, &mut self.journal, page, buf),
            Area::Journal => write_half(alloc, &mut self.journal, &mut self.pages, page, buf),
        };
        match answer {
            Ok(()) => Ok(()),
            Err(_) => Err(self.no_memory(calls)),
        }
    }

    fn sync(&mut self) -> Result<(), Failed>
        ensures ok { OnOk result (moments_of self.new ≡ then_moment (λ _. settled_moment (image_of self.old)) (moments_of self.old)) }
        ensures err { OnErr result (moments_of self.new ≡ moments_of self.old) }
        ensures fails { FailsAsPlanned self.old self.new result }
        ensures faults { CountsFault result (fault_count self.old) (fault_count self.new) }
        ensures reads { read_count self.new ≡ read_count self.old }
        ensures image { image_of self.new ≡ image_of self.old }
    {
        let calls = self.calls;
        self.begin()?;
        match self.sync_halves() {
            Ok(()) => Ok(()),
            Err(_) => Err(self.no_memory(calls)),
        }
    }
}

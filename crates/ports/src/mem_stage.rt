//! A stage in memory.
ghost use Rattle.std.specs.Prelude.{◌≡◌, ◌+◌, ◌-◌, ◌≤◌, ◌<◌, ◌⊎◌, ◌++◌, ◌∷◌, [], true, length, reverse, IsTrue, IfOk, OnOk, OnErr, IsSome, Some, None, Err, slice_set, option_copied, refl};
ghost use Rattle.ports.specs.Count.{raised as one_more};
ghost use Rattle.ports.specs.Kept.{freed_bytes, kept_of, map_of};
ghost use Rattle.ports.specs.Pages.{blank_bytes, put_page, remove_page};
ghost use Rattle.ports.specs.Spare.{are_spare};

use crate::{FREE_PAGE, Page, PageFault, Pages, Stage, StageFault, blank_page, raised};
use std::alloc::Global;

/// A stage that keeps its pages in memory. The page that was freed last is given out again first.
#[derive(Drop)]
pub struct MemStage {
    // The page 3, the one after it, and so on. One that was freed begins with the kind of a free page:
    // so each takes 4096 bytes and not one more, and a copy of it stays aligned.
    pages: Vec<Page>,
    // The pages that were freed and not given out again, in that order.
    freed: Vec<u64>,
    gets: u64,
    limit: u64,
    ghost within: { 3 + length pages.items ≤ limit },
    ghost limit_fits: { limit ≤ 4294967295 },
    ghost spare: { IsTrue (are_spare (kept_of pages.items) (reverse freed.items)) },
}

impl MemStage {
    ghost use Rattle.ports.specs.MemStage.{page_map, page_limit, allotted_pages, chain_of, get_count};
    ghost use Rattle.ports.specs.Pages.{empty_map};

    /// A stage with no pages in its map, of which the numbers below 3 count as given out.
    pub fn new(alloc: Global, limit: u64) -> MemStage
        requires low { 3 ≤ limit }
        requires high { limit ≤ 4294967295 }
        ensures map { page_map result ≡ empty_map }
        ensures limit { page_limit result ≡ limit }
        ensures allotted { allotted_pages result ≡ 3 }
        ensures chain { chain_of result ≡ [] }
        ensures gets { get_count result ≡ 0 }
    {
        MemStage {
            pages: Vec::new(alloc),
            freed: Vec::new(alloc),
            gets: 0,
            limit,
        }
    }

    /// How many page numbers are given out.
    pub fn allotted(&self) -> u64
        ensures { result ≡ allotted_pages self.now }
    {
        3 + self.pages.len() as u64
    }

    // Gives out the first number that was never given out.
    fn allot_new(&mut self) -> Result<u64, StageFault>
        ensures number { IfOk result (λ page. page ≡ allotted_pages self.old) }
        ensures pages { OnOk result (self.new.pages.items ≡ self.old.pages.items ++ blank_bytes ∷ []) }
        ensures unchanged { OnErr result (self.new.pages.items ≡ self.old.pages.items) }
        ensures freed { self.new.freed ≡ self.old.freed }
        ensures gets { self.new.gets ≡ self.old.gets }
        ensures limit { self.new.limit ≡ self.old.limit }
        ensures refusals { OnErr result ((result ≡ Err StageFault.NoMemory)
            ⊎ ((result ≡ Err (StageFault.PageLimit (allotted_pages self.old))) × (allotted_pages self.old ≡ page_limit self.old))) }
    {
        let allotted = self.allotted();
        if allotted >= self.limit {
            return Err(StageFault::PageLimit(allotted));
        }
        match self.pages.push(blank_page()) {
            Ok(()) => Ok(allotted),
            Err(_) => Err(StageFault::NoMemory),
        }
    }

    /// How many gets there were. The count stands still at its type's end.
    pub fn gets(&self) -> u64
        ensures { result ≡ get_count self.now }
    {
        self.gets
    }
}

fn page_in(pages: &[Page], page: u64) -> Option<&Page>
    ensures { option_copied result ≡ map_of (kept_of pages.now) page }
{
    if page < 3 {
        return None;
    }
    let kept = pages.get((page - 3) as usize)?;
    if kept[0] == FREE_PAGE {
        None
    } else {
        Some(kept)
    }
}

// Fills the place of a page.
fn set_page(pages: &mut Vec<Page>, page: u64, bytes: &Page)
    requires { (3 ≤ page) × (page < 3 + length pages.old.items) }
    ensures { pages.new.items ≡ slice_set pages.old.items (page - 3) bytes.now }
{
    pages[(page - 3) as usize] = *bytes;
}

// A page that is not in the map.
#[tactic(auto, unfolding(crate::specs::Kept::freed_bytes))]
fn free_page() -> Page
    ensures { result ≡ freed_bytes }
{
    [FREE_PAGE; 4096]
}

impl Pages for MemStage {
    ghost use Rattle.ports.specs.MemStage.{get_count, page_map};

    ghost tells = { λ _. true };

    ghost map = { λ stage. map_of (kept_of stage.pages.items) };

    ghost gets = { λ stage. stage.gets };

    ghost faults = { λ _. 0 };

    ghost allotted = { λ stage. 3 + length stage.pages.items };

    ghost chain = { λ stage. reverse stage.freed.items };

    ghost limit = { λ stage. stage.limit };

    // Each page of the chain was freed and not given out again.
    ghost free_in_order = { λ _. Unit {0} };

    ghost Base = { Unit {0} };

    ghost base = { λ _. tt };

    fn get(&mut self, page: u64, buf: &mut Page) -> Result<(), PageFault>
        ensures bytes { OnOk result (page_map self.old page ≡ Some buf.new) }
        ensures damaged { OnErr result ((result ≡ Err (PageFault.Damaged page)) × (page_map self.old page ≡ None)) }
        // Each get counts, also one that is refused.
        ensures gets { get_count self.new ≡ one_more (get_count self.old) }
        ensures never_falls { get_count self.old ≤ get_count self.new }
        ensures pages { self.new.pages ≡ self.old.pages }
        ensures freed { self.new.freed ≡ self.old.freed }
        ensures limit { self.new.limit ≡ self.old.limit }
    {
        self.gets = raised(self.gets);
        match page_in(&self.pages, page) {
            Some(kept) => {
                *buf = *kept;
                Ok(())
            }
            None => Err(PageFault::Damaged(page)),
        }
    }
}

impl Stage for MemStage {
    ghost use Rattle.ports.specs.KeptLaws.{kept_of-below, map_of-from};

    ghost below_allotted = { λ stage page bytes told there. kept_of-below stage.pages.items page bytes there };

    ghost from_three = { λ stage page bytes told there. map_of-from (kept_of stage.pages.items) page bytes there };

    ghost within_limit = { λ stage. stage.within };

    ghost limit_fits = { λ stage. stage.limit_fits };

    fn allot(&mut self) -> Result<u64, StageFault> {
        match self.freed.pop() {
            Some(page) => {
                set_page(&mut self.pages, page, &blank_page());
                Ok(page)
            }
            None => self.allot_new(),
        }
    }

    fn put(&mut self, page: u64, buf: &Page) -> Result<(), StageFault> {
        set_page(&mut self.pages, page, buf);
        Ok(())
    }

    fn free(&mut self, page: u64) -> Result<(), StageFault> {
        match self.freed.push(page) {
            Ok(()) => {
                set_page(&mut self.pages, page, &free_page());
                Ok(())
            }
            Err(_) => Err(StageFault::NoMemory),
        }
    }
}

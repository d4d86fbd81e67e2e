//! The pages of a stage that are given out and freed.
ghost use Rattle.std.specs.Prelude.{◌≡◌, ◌≢◌, ◌⊎◌, ◌+◌, ◌≤◌, ◌<◌, ℕ, List, ◌∷◌, Some, None, Ok, Err, IsTrue, IsSome, OnOk, OnErr, IfOk, slice_index};
ghost use Rattle.ports.specs.Calls.{Changes, OnlyReads};
ghost use Rattle.ports.specs.Chain.{TakesFirst};
ghost use Rattle.ports.specs.Pages.{put_page, remove_page, blank_bytes};
ghost use Rattle.page_layout.specs.FreePage.{IsTyped, free_page_page, next_fits};
ghost use Rattle.page_layout.specs.declared.free_page.FreePage.{FreePage};
ghost use Rattle.ports.specs.declared.page.TheConstants.{FREE_PAGE};
ghost use Rattle.page_space.specs.Bytes.{bytes_with};
ghost use Rattle.page_space.specs.Calls.{KeepsChanges};
ghost use Rattle.page_space.specs.Chain.{LeadsOn, FreeInOrder, chain_from};

use crate::Staged;
use page_disk::Disk;
use page_layout::{FreePage, Spelled};
use ports::{Page, PageFault, Pages, StageFault, blank_page};

// A page that can be given out, and what the stage keeps when it is: the first free page then and the
// number of pages given out.
#[derive(Drop)]
struct Choice {
    page: u64,
    free: u64,
    allotted: u64,
}

impl<D: Disk> Staged<D> {
    ghost use Rattle.page_space.specs.Shown.{base_of, disk_under, staged_meta, staged_bytes, staged_chain, staged_map, image_count, IsStagedInOrder};

    // The page that a free page names as the next. Damaged comes where this is none.
    fn next_free(&mut self, page: u64) -> Result<u64, PageFault>
        ensures given_out { OnOk result ((3 ≤ page) × (page < (staged_meta self.old).allotted)) }
        ensures fits { IfOk result (λ next. IsTrue (next_fits next)) }
        ensures ok { IfOk result (λ next. IsTrue (D.tells (disk_under self.old))
            → LeadsOn (staged_bytes self.old) (staged_meta self.old).allotted page (record { next = next })) }
        ensures only { IfOk result (λ next. IsTrue (D.tells (disk_under self.old)) → (free : FreePage)
            → LeadsOn (staged_bytes self.old) (staged_meta self.old).allotted page free → next ≡ free.next) }
        ensures damaged { (p : ℕ) → result ≡ Err (PageFault.Damaged p) → (p ≡ page)
            × (IsTrue (D.tells (disk_under self.old)) → (free : FreePage)
            → LeadsOn (staged_bytes self.old) (staged_meta self.old).allotted page free → ⊥) }
        ensures reads { OnlyReads ⟦<Staged<D> as Pages>⟧ 1 self.old self.new result }
        ensures keeps { KeepsChanges self.old self.new }
    {
        if page < 3 || page >= self.meta.allotted {
            return Err(PageFault::Damaged(page));
        }
        let mut buf = blank_page();
        self.read(page, &mut buf)?;
        match FreePage::read(&buf) {
            Some(free) => Ok(free.next),
            None => Err(PageFault::Damaged(page)),
        }
    }

    // The page to be given out next: the first of the chain, and a new one where the chain is empty.
    fn next_page(&mut self) -> Result<Choice, StageFault>
        ensures ends { IfOk result (λ next. (3 ≤ next.page) × (next.page < next.allotted)) }
        ensures grows { IfOk result (λ next. ((staged_meta self.old).allotted ≤ next.allotted) × (next.allotted ≤ (staged_meta self.old).allotted + 1)) }
        ensures limit { IfOk result (λ next. next.allotted ≤ (base_of self.old).params.pages) }
        ensures fits { IfOk result (λ next. IsTrue (next_fits next.free)) }
        ensures chain { (staged_meta self.old).free ≢ 0
            → IfOk result (λ next. (next.page ≡ (staged_meta self.old).free) × (next.allotted ≡ (staged_meta self.old).allotted)) }
        ensures chain_end { (staged_meta self.old).free ≡ 0
            → IfOk result (λ next. (next.page ≡ (staged_meta self.old).allotted) × (next.allotted ≡ (staged_meta self.old).allotted + 1) × (next.free ≡ 0)) }
        ensures leads { (staged_meta self.old).free ≢ 0 → IfOk result (λ next. IsTrue (D.tells (disk_under self.old))
            → LeadsOn (staged_bytes self.old) (staged_meta self.old).allotted next.page (record { next = next.free })) }
        ensures takes { IfOk result (λ next. IsTrue (D.tells (disk_under self.old)) → IsStagedInOrder self.old
            → TakesFirst (staged_chain self.old) next.page (chain_from (bytes_with (staged_bytes self.old) next.page blank_bytes) next.allotted next.free)
            (staged_meta self.old).allotted next.allotted) }
        ensures only { IfOk result (λ next. (p : ℕ) → next.page ≢ p → p < next.allotted → p < (staged_meta self.old).allotted) }
        ensures unused { IfOk result (λ next. IsTrue (D.tells (disk_under self.old)) → staged_map self.old next.page ≡ None) }
        ensures order { IfOk result (λ next. IsTrue (D.tells (disk_under self.old)) → IsStagedInOrder self.old
            → FreeInOrder (bytes_with (staged_bytes self.old) next.page blank_bytes) next.allotted next.free) }
        ensures page_limit { (n : ℕ) → result ≡ Err (StageFault.PageLimit n) → (staged_meta self.old).free ≡ 0 }
        ensures at_limit { (staged_meta self.old).free ≡ 0 → (staged_meta self.old).allotted ≡ (base_of self.old).params.pages
            → result ≡ Err (StageFault.PageLimit (staged_meta self.old).allotted) }
        ensures damaged { (p : ℕ) → result ≡ Err (StageFault.Damaged p) → (p ≡ (staged_meta self.old).free)
            × (IsTrue (D.tells (disk_under self.old)) → ¬ IsStagedInOrder self.old) }
        ensures damaged_first { (p : ℕ) → result ≡ Err (StageFault.Damaged p) → IsTrue (D.tells (disk_under self.old)) → (free : FreePage)
            → LeadsOn (staged_bytes self.old) (staged_meta self.old).allotted (staged_meta self.old).free free → ⊥ }
        ensures changes { Changes ⟦<Staged<D> as Pages>⟧ 1 self.old self.new result }
        ensures keeps { KeepsChanges self.old self.new }
    {
        let page = self.meta.free;
        if page != 0 {
            let free = self.next_free(page)?;
            return Ok(Choice {
                page,
                free,
                allotted: self.meta.allotted,
            });
        }
        let allotted = self.meta.allotted;
        if allotted >= self.space.params.pages {
            return Err(StageFault::PageLimit(allotted));
        }
        Ok(Choice {
            page: allotted,
            free: 0,
            allotted: allotted + 1,
        })
    }

    /// Gives out the first page of the chain of free pages, and where the chain is empty a new page.
    /// The page is then in the map, all zeros.
    ///
    /// `PageLimit` comes exactly where the chain is empty and as many pages are given out as the limit
    /// allows; it carries that number. `Damaged` carries the first page of the chain where that is no
    /// free page or was never given out.
    pub fn allot_page(&mut self) -> Result<u64, StageFault>
        ensures ends { IfOk result (λ page. (3 ≤ page) × (page < (staged_meta self.new).allotted)) }
        ensures ok { IfOk result (λ page. IsTrue (D.tells (disk_under self.old))
            → (staged_map self.old page ≡ None) × (staged_map self.new ≡ put_page (staged_map self.old) page blank_bytes)) }
        ensures chain { IfOk result (λ page. IsTrue (D.tells (disk_under self.old)) → IsStagedInOrder self.old
            → TakesFirst (staged_chain self.old) page (staged_chain self.new) (staged_meta self.old).allotted (staged_meta self.new).allotted) }
        // So it is where the chain is not in order, too.
        ensures first { (staged_meta self.old).free ≢ 0
            → IfOk result (λ page. (page ≡ (staged_meta self.old).free) × ((staged_meta self.new).allotted ≡ (staged_meta self.old).allotted)) }
        ensures no_first { (staged_meta self.old).free ≡ 0
            → IfOk result (λ page. (page ≡ (staged_meta self.old).allotted) × ((staged_meta self.new).allotted ≡ (staged_meta self.old).allotted + 1)) }
        // The first free page is then the one that it names.
        ensures leads { (staged_meta self.old).free ≢ 0 → IfOk result (λ page. IsTrue (D.tells (disk_under self.old))
            → LeadsOn (staged_bytes self.old) (staged_meta self.old).allotted page (record { next = (staged_meta self.new).free })) }
        ensures none_left { (staged_meta self.old).free ≡ 0 → OnOk result ((staged_meta self.new).free ≡ 0) }
        ensures bytes { IfOk result (λ page. staged_bytes self.new ≡ bytes_with (staged_bytes self.old) page blank_bytes) }
        ensures err { OnErr result (staged_meta self.new ≡ staged_meta self.old) }
        ensures err_bytes { OnErr result (staged_bytes self.new ≡ staged_bytes self.old) }
        ensures page_limit { (n : ℕ) → result ≡ Err (StageFault.PageLimit n) → (staged_meta self.old).free ≡ 0 }
        ensures at_limit { (staged_meta self.old).free ≡ 0 → (staged_meta self.old).allotted ≡ (base_of self.old).params.pages
            → result ≡ Err (StageFault.PageLimit (staged_meta self.old).allotted) }
        ensures damaged { (p : ℕ) → result ≡ Err (StageFault.Damaged p) → (p ≡ (staged_meta self.old).free)
            × (IsTrue (D.tells (disk_under self.old)) → ¬ IsStagedInOrder self.old) }
        ensures damaged_first { (p : ℕ) → result ≡ Err (StageFault.Damaged p) → IsTrue (D.tells (disk_under self.old)) → (free : FreePage)
            → LeadsOn (staged_bytes self.old) (staged_meta self.old).allotted (staged_meta self.old).free free → ⊥ }
        ensures images { image_count self.new ≤ image_count self.old + 1 }
        ensures changes { Changes ⟦<Staged<D> as Pages>⟧ 1 self.old self.new result }
    {
        let next = self.next_page()?;
        if self.images.put(next.page, &blank_page()).is_err() {
            return Err(StageFault::NoMemory);
        }
        self.meta.allotted = next.allotted;
        self.meta.free = next.free;
        Ok(next.page)
    }

    // A free page which names the first of the chain.
    fn first_free(&self) -> FreePage
        ensures value { result ≡ record { next = (staged_meta self.now).free } }
        ensures typed { IsTyped result }
    {
        let next = &self.meta.free;
        FreePage { next: *next }
    }

    /// Takes a page out of the map, and puts it first in the chain of free pages.
    ///
    /// `Damaged` carries this page, and comes only where it was never given out.
    pub fn free_page(&mut self, page: u64) -> Result<(), StageFault>
        requires { IsTrue (D.tells (disk_under self.old)) → IsSome (staged_map self.old page) }
        ensures ok { OnOk result (IsTrue (D.tells (disk_under self.old)) → staged_map self.new ≡ remove_page (staged_map self.old) page) }
        ensures chain { OnOk result (IsTrue (D.tells (disk_under self.old)) → IsStagedInOrder self.old
            → staged_chain self.new ≡ page ∷ staged_chain self.old) }
        ensures first { OnOk result ((staged_meta self.new).free ≡ page) }
        // So it is where the chain is not in order, too: the page names what was the first free page.
        ensures bytes { OnOk result (staged_bytes self.new
            ≡ bytes_with (staged_bytes self.old) page (free_page_page (record { next = (staged_meta self.old).free }))) }
        ensures err { OnErr result (staged_meta self.new ≡ staged_meta self.old) }
        ensures err_bytes { OnErr result (staged_bytes self.new ≡ staged_bytes self.old) }
        ensures refusals { OnErr result ((result ≡ Err StageFault.NoMemory) ⊎ (result ≡ Err (StageFault.Damaged page))) }
        ensures damaged { result ≡ Err (StageFault.Damaged page) → IsTrue (D.tells (disk_under self.old)) → staged_map self.old page ≡ None }
        ensures images { image_count self.new ≤ image_count self.old + 1 }
        ensures disk { disk_under self.new ≡ disk_under self.old }
        ensures changes { Changes ⟦<Staged<D> as Pages>⟧ 0 self.old self.new result }
    {
        if page < 3 || page >= self.meta.allotted {
            return Err(StageFault::Damaged(page));
        }
        let mut image = blank_page();
        self.first_free().write(&mut image);
        if self.put_image(page, &image).is_err() {
            return Err(StageFault::NoMemory);
        }
        self.meta.free = page;
        Ok(())
    }

    /// Overwrites a page that is in use.
    ///
    /// `Damaged` carries this page, and comes only where it was never given out.
    pub fn put_page(&mut self, page: u64, buf: &Page) -> Result<(), StageFault>
        requires in_map { IsTrue (D.tells (disk_under self.old)) → IsSome (staged_map self.old page) }
        requires kind { slice_index buf.now 0 ≢ FREE_PAGE }
        ensures ok { OnOk result (IsTrue (D.tells (disk_under self.old)) → staged_map self.new ≡ put_page (staged_map self.old) page buf.now) }
        ensures err_bytes { OnErr result (staged_bytes self.new ≡ staged_bytes self.old) }
        ensures refusals { OnErr result ((result ≡ Err StageFault.NoMemory) ⊎ (result ≡ Err (StageFault.Damaged page))) }
        ensures damaged { result ≡ Err (StageFault.Damaged page) → IsTrue (D.tells (disk_under self.old)) → staged_map self.old page ≡ None }
        ensures meta { staged_meta self.new ≡ staged_meta self.old }
        ensures chain { IsTrue (D.tells (disk_under self.old)) → staged_chain self.new ≡ staged_chain self.old }
        ensures images { image_count self.new ≤ image_count self.old + 1 }
        ensures disk { disk_under self.new ≡ disk_under self.old }
        ensures changes { Changes ⟦<Staged<D> as Pages>⟧ 0 self.old self.new result }
    {
        if page < 3 || page >= self.meta.allotted {
            return Err(StageFault::Damaged(page));
        }
        if self.put_image(page, buf).is_err() {
            return Err(StageFault::NoMemory);
        }
        Ok(())
    }
}

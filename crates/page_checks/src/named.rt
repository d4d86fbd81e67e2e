//! The pages that a check has named.
ghost use Rattle.std.specs.Prelude.{◌≡◌, ◌++◌, ◌∷◌, [], ◌↔◌, IsTrue, OnOk};
ghost use Rattle.std.specs.List.Sorted.{IsNonDecreasing, IsPermutation};
ghost use Rattle.page_layout.specs.Footprint.{NamesNoneTwice};

use std::alloc::AllocError;

/// Whether no page is named twice. The pages are put into another order.
pub fn name_none_twice(pages: &mut [u64]) -> bool
    ensures once { IsTrue result ↔ NamesNoneTwice pages.old }
    ensures same { IsPermutation pages.old pages.new }
{
    pages.sort_unstable();
    differ_in_order(pages)
}

// Whether each of the pages differs from the one before it.
fn differ_in_order(pages: &[u64]) -> bool
    requires { IsNonDecreasing pages.now }
    ensures { IsTrue result ↔ NamesNoneTwice pages.now }
{
    for place in 1..pages.len() {
        if pages[place - 1] == pages[place] {
            return false;
        }
    }
    true
}

/// Puts a page behind those named.
pub fn push_page(named: &mut Vec<u64>, page: u64) -> Result<(), AllocError>
    ensures { OnOk result (named.new.items ≡ named.old.items ++ page ∷ []) }
{
    named.push(page)?;
    Ok(())
}

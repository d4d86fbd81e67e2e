//! The pages that were seen.
ghost use Rattle.std.specs.Prelude.{◌≡◌, ◌+◌, ◌≤◌, ◌++◌, ◌∷◌, [], ℕ, not, IfOk, OnOk, OnErr, length, if◌then◌else◌};
ghost use Rattle.ports.specs.Frame.{names_page};

use std::alloc::AllocError;
use std::collections::BTreeSet;

/// Adds a page to those that were seen, and says whether it was not among them.
#[tactic(auto, using(crate::proofs::Names::same_test, crate::proofs::Names::contains_named))]
pub fn add_page(seen: &mut BTreeSet<u64>, page: u64) -> Result<bool, AllocError>
    ensures new { IfOk result (λ added. added ≡ not (names_page seen.old.keys page)) }
    ensures names { OnOk result ((p : ℕ) → names_page seen.new.keys p ≡ names_page (seen.old.keys ++ page ∷ []) p) }
    ensures count { IfOk result (λ added. length seen.new.keys ≡ length seen.old.keys + (if added then 1 else 0)) }
    ensures unchanged { OnErr result (seen.new.keys ≡ seen.old.keys) }
{
    match seen.insert(page) {
        Ok(added) => Ok(added),
        Err(_) => Err(AllocError),
    }
}

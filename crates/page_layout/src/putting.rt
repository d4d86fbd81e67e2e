//! Putting a value into a page.
ghost use Rattle.std.specs.Prelude.{◌≡◌, ◌≢◌, ◌==◌, ◌≤◌, ◌⊎◌, false, ℕ, Some, None, Err, IsTrue, IsSome, IfOk, OnOk, OnErr};
ghost use Rattle.ports.specs.Calls.{Grows};
ghost use Rattle.ports.specs.Chain.{TakesFirst};
ghost use Rattle.ports.specs.Pages.{blank_bytes, put_page};

use crate::TreePage;
use ports::{Stage, StageFault, blank_page};

/// Overwrites the page with the value.
///
/// `Damaged` and `PageLimit` never come where the map is told.
pub fn put_page<T: TreePage, S: Stage>(
    stage: &mut S,
    page: u64,
    value: &T,
) -> Result<(), StageFault>
    requires rules { T.keeps value.now }
    requires in_map { IsTrue (S.tells stage.old) → IsSome (S.map stage.old page) }
    ensures ok { OnOk result (IsTrue (S.tells stage.old) → S.map stage.new ≡ put_page (S.map stage.old) page (T.spelling value.now)) }
    ensures err { OnErr result (IsTrue (S.tells stage.old) → S.map stage.new ≡ S.map stage.old) }
    ensures chain { IsTrue (S.tells stage.old) → S.chain stage.new ≡ S.chain stage.old }
    ensures damaged { (p : ℕ) → IsTrue (S.tells stage.old) → result ≢ Err (StageFault.Damaged p) }
    ensures grows { Grows S.Pages 0 stage.old stage.new result }
{
    let mut bytes = blank_page();
    value.write(&mut bytes);
    stage.put(page, &bytes)
}

/// A new page that holds the value.
///
/// `Damaged` comes only where the free pages are not in order.
pub fn make_page<T: TreePage, S: Stage>(stage: &mut S, value: &T) -> Result<u64, StageFault>
    requires { T.keeps value.now }
    ensures number { IfOk result (λ page. 3 ≤ page) }
    ensures made { IfOk result (λ page. IsTrue (S.tells stage.old) → (S.map stage.old page ≡ None)
        × (S.map stage.new page ≡ Some (T.spelling value.now))
        × ((p : ℕ) → (page == p) ≡ false → S.map stage.new p ≡ S.map stage.old p)) }
    // The first of the free pages is taken, and a new number only where there is none.
    ensures chain { IfOk result (λ page. IsTrue (S.tells stage.old) → S.free_in_order stage.old
        → TakesFirst (S.chain stage.old) page (S.chain stage.new) (S.allotted stage.old) (S.allotted stage.new)) }
    // A refusal leaves the pages as they were, or one more that is blank.
    ensures err { OnErr result (IsTrue (S.tells stage.old) → (S.map stage.new ≡ S.map stage.old)
        ⊎ ((page : ℕ) × (S.map stage.old page ≡ None) × (S.map stage.new ≡ put_page (S.map stage.old) page blank_bytes))) }
    ensures damaged { (p : ℕ) → result ≡ Err (StageFault.Damaged p) → IsTrue (S.tells stage.old) → ¬ S.free_in_order stage.old }
    ensures grows { Grows S.Pages 1 stage.old stage.new result }
{
    let page = stage.allot()?;
    put_page(stage, page, value)?;
    Ok(page)
}

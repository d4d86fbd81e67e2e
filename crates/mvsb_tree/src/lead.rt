//! Changes of the root in the directory.
ghost use Rattle.std.specs.Prelude.{◌≡◌, ◌≢◌, ◌+◌, ◌%◌, ◌^◌, ◌<◌, ◌≤◌, false, ℕ, List, length, Err, IsSome, IsTrue, OnOk};
ghost use Rattle.bw_types.specs.declared.point.Point.{Point};
ghost use Rattle.ports.specs.Calls.{Grows};
ghost use Rattle.ports.specs.Frame.{names_page};
ghost use Rattle.sb_tree.specs.Damage.{IsDamagedForAdd};
ghost use Rattle.sb_tree.specs.Stands.{IsBalanced, SbStands};
ghost use Rattle.sb_tree.specs.Steps.{tree_pages};
ghost use Rattle.sb_tree.specs.Stored.{OthersStay};
ghost use Rattle.mvsb_tree.specs.Led.{Led};

use bw_types::Tree;
use ports::{Stage, StageFault};
use sb_tree::sb_add;

/// Lets the directory lead to the page `top` from the version on, where it led to `root`. Where they
/// are one page nothing changes.
pub fn lead_to<S: Stage>(
    stage: &mut S,
    roots: &mut Tree,
    version: u32,
    root: u64,
    top: u64,
) -> Result<(), StageFault>
    ensures led { OnOk result (IsTrue (S.tells stage.old) → (changes : List Point) → SbStands (S.map stage.old) roots.old changes
        → Led (S.map stage.old) (S.map stage.new) roots.old roots.new changes version root top) }
    ensures balanced { OnOk result (IsTrue (S.tells stage.old) → (changes : List Point) → SbStands (S.map stage.old) roots.old changes
        → IsBalanced roots.old → IsBalanced roots.new) }
    ensures same { OnOk result (top ≡ root → roots.new ≡ roots.old) }
    ensures few { OnOk result (roots.old.count ≤ 2 ^ 31 → roots.new.count ≤ 2 ^ 31) }
    ensures count { OnOk result ((roots.old.count ≤ roots.new.count) × (roots.new.count ≤ roots.old.count + 1)) }
    ensures root { OnOk result ((roots.old.levels ≡ 0 → top ≢ root) → (roots.old.levels ≢ 0 → (roots.old.levels ≤ 16) × (3 ≤ roots.old.root))
        → (1 ≤ roots.new.levels) × (roots.new.levels ≤ 16) × (3 ≤ roots.new.root)) }
    // Whatever the pages hold, those outside the directory stay as they are.
    ensures apart { OnOk result (IsTrue (S.tells stage.old) → OthersStay (tree_pages (S.map stage.old) roots.old) (S.map stage.old) (S.map stage.new)) }
    // Whatever the pages hold, its root is the one of before, a page of the directory, or one that was given out.
    ensures renamed { OnOk result (IsTrue (S.tells stage.old) → IsSome (S.map stage.old roots.new.root)
        → names_page (tree_pages (S.map stage.old) roots.old) roots.new.root ≡ false → roots.new.root ≡ roots.old.root) }
    ensures beside { (roots.new.changes ≡ roots.old.changes) × (roots.new.last ≡ roots.old.last) }
    ensures damaged { (page : ℕ) → result ≡ Err (StageFault.Damaged page) → IsTrue (S.tells stage.old)
        → (top ≢ root) × IsDamagedForAdd (S.map stage.old) (S.free_in_order stage.old) roots.old version page }
    ensures sound { (changes : List Point) (page : ℕ) → IsTrue (S.tells stage.old) → SbStands (S.map stage.old) roots.old changes
        → length changes < 2 ^ 31 → IsBalanced roots.old → S.free_in_order stage.old → result ≢ Err (StageFault.Damaged page) }
    ensures grows { Grows S.Pages (roots.old.levels + 1) stage.old stage.new result }
{
    if top == root {
        return Ok(());
    }
    // `sb_add` would say the same; here it is known of what is answered.
    if roots.count >= 1 << 31 {
        return Err(StageFault::Damaged(roots.root));
    }
    let more = difference(top, root);
    sb_add(stage, roots, version, more)
}

// What has to be added to one page's number for that of another, modulo 2^128.
fn difference(top: u64, root: u64) -> u128
    ensures { (root + result) % 2 ^ 128 ≡ top }
{
    u128::from(top).wrapping_sub(u128::from(root))
}

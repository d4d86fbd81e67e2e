//! A page after its part got a point: put, split at its first cut, or freed.
ghost use Rattle.std.specs.Prelude.{None, Some, ◌≡◌, ◌≤◌, ◌<◌, ◌⊎◌, ◌∷◌, [], ℕ, List, length, Err, IsTrue, IsSome, IfOk, IfSome};
ghost use Rattle.ports.specs.Calls.{Changes, Grows};
ghost use Rattle.ports.specs.Frame.{Replaces};
ghost use Rattle.ports.specs.Pages.{PageMap};
ghost use Rattle.page_layout.specs.Footprint.{NamesNoneTwice};
ghost use Rattle.page_layout.specs.declared.cut_page.CutNode.{CutNode};
ghost use Rattle.page_layout.specs.declared.cut_page.CutNode.TheVariants.{Entry};
ghost use Rattle.cut_parts.specs.Borders.{OthersStay};
ghost use Rattle.cut_parts.specs.Parts.{Part};
ghost use Rattle.cut_parts.specs.Spelling.{HoldsCuts, first_page, nodes_of};
ghost use Rattle.cut_parts.specs.Standing.{PartStands, part_pages};
ghost use Rattle.cut_parts.specs.Nodes.{AreNodes};
ghost use Rattle.ba_tree.specs.Additions.{ChangeFits, IsMovedAs, nodes_after};
ghost use Rattle.ba_tree.specs.Going.{GoesWell};

use crate::change::Change;
use crate::storing::{free_again, put_again};
use cut_parts::{BorderTree, Sides, make_cuts, split_first_cut};
use page_layout::{CutNode, CutPage};
use ports::{Page, Stage, StageFault};

// The page with which the part begins that these nodes spell.
fn page_of(cuts: &CutPage) -> Option<u64>
    ensures begins { (part : Part) → cuts.now.nodes.items ≡ nodes_of part → result ≡ first_page part }
    ensures fits { AreNodes cuts.now.nodes.items → IfSome result (λ page. 3 ≤ page) }
    ensures alone { AreNodes cuts.now.nodes.items → IfSome result (λ page. length cuts.now.nodes.items ≡ 1) }
    ensures none { AreNodes cuts.now.nodes.items → result ≡ None → 3 ≤ length cuts.now.nodes.items }
    ensures first { IfSome result (λ page. (others : List CutNode) × (cuts.now.nodes.items ≡ Entry page ∷ others)) }
{
    match cuts.nodes.as_slice().first() {
        Some(CutNode::Entry { child }) => Some(*child),
        _ => None,
    }
}

/// Stores what a page of cuts has become: nodes of at most 64 entries are put; a page of more is split at its first cut; and where
/// an entry alone is left, the page is freed. What `bytes` held does not matter.
pub(crate) fn store<B: BorderTree, S: Stage>(
    stage: &mut S,
    page: u64,
    cuts: &CutPage,
    bytes: &mut Page,
) -> Result<Change, StageFault>
    requires { AreNodes cuts.now.nodes.items }
    ensures stored { IfOk result (λ change. IsTrue (S.tells stage.old) → (n : ℕ) (part : Part) → cuts.now.nodes.items ≡ nodes_of part
        → PartStands B.BorderTree (S.map stage.old) n part → NamesNoneTwice (page ∷ part_pages B.BorderTree (S.map stage.old) part)
        → IsMovedAs B.BorderTree (S.map stage.old) (S.map stage.new) n page part (nodes_after change page)) }
    ensures fits { 3 ≤ page → IfOk result ChangeFits }
    ensures apart { IfOk result (λ change. IsTrue (S.tells stage.old) → OthersStay (λ p. p ≡ page) (S.map stage.old) (S.map stage.new)) }
    ensures damaged { (damaged : ℕ) → result ≡ Err (StageFault.Damaged damaged) → IsTrue (S.tells stage.old)
        → ((damaged ≡ page) × (S.map stage.old page ≡ None)) ⊎ (¬ S.free_in_order stage.old) }
    ensures well { IsTrue (S.tells stage.old) → IsSome (S.map stage.old page) → GoesWell S.Pages 1 stage.old stage.new result }
    // An entry alone is that of the page, or stood first.
    ensures alone { IfOk result (λ change. (first : ℕ) → nodes_after change page ≡ Entry first ∷ []
        → (first ≡ page) ⊎ ((others : List CutNode) × (cuts.now.nodes.items ≡ Entry first ∷ others))) }
    ensures changes { Changes S.Pages 1 stage.old stage.new result }
{
    B::border_laws();
    if let Some(child) = page_of(cuts) {
        return match free_again(stage, page, bytes) {
            Err(fault) => Err(fault),
            Ok(()) => Ok(Change::Moved { page: child }),
        };
    }
    if cuts.nodes.len() > 127 {
        return match page_split::<B, S>(stage, page, cuts, bytes) {
            Err(fault) => Err(fault),
            Ok(change) => Ok(change),
        };
    }
    match put_again(stage, page, cuts, bytes) {
        Err(fault) => Err(fault),
        Ok(()) => Ok(Change::Same),
    }
}

/// Splits a page at its first cut, which goes up into the page above: a side that is one entry goes up as it is, and of a side with
/// cuts the page is made. The low such side keeps the page.
fn page_split<B: BorderTree, S: Stage>(
    stage: &mut S,
    page: u64,
    cuts: &CutPage,
    bytes: &mut Page,
) -> Result<Change, StageFault>
    requires nodes { AreNodes cuts.now.nodes.items }
    requires many { 127 < length cuts.now.nodes.items }
    requires most { length cuts.now.nodes.items ≤ 129 }
    ensures raised { IfOk result (λ change. (first : ℕ) → nodes_after change page ≡ Entry first ∷ [] → ⊥) }
    ensures stored { IfOk result (λ change. IsTrue (S.tells stage.old) → (n : ℕ) (part : Part) → cuts.now.nodes.items ≡ nodes_of part
        → PartStands B.BorderTree (S.map stage.old) n part → NamesNoneTwice (page ∷ part_pages B.BorderTree (S.map stage.old) part)
        → IsMovedAs B.BorderTree (S.map stage.old) (S.map stage.new) n page part (nodes_after change page)) }
    ensures fits { 3 ≤ page → IfOk result ChangeFits }
    ensures apart { IfOk result (λ change. IsTrue (S.tells stage.old) → OthersStay (λ p. p ≡ page) (S.map stage.old) (S.map stage.new)) }
    ensures damaged { (damaged : ℕ) → result ≡ Err (StageFault.Damaged damaged) → IsTrue (S.tells stage.old)
        → ((damaged ≡ page) × (S.map stage.old page ≡ None)) ⊎ (¬ S.free_in_order stage.old) }
    ensures well { IsTrue (S.tells stage.old) → IsSome (S.map stage.old page) → GoesWell S.Pages 1 stage.old stage.new result }
    ensures grows { Grows S.Pages 1 stage.old stage.new result }
{
    B::border_laws();
    let Some(
        Sides {
            cut,
            low: lows,
            high: highs,
        },
    ) = split_first_cut(cuts)
    else {
        return Err(StageFault::Damaged(page));
    };
    match page_of(&lows) {
        Some(low) => match put_again(stage, page, &highs, bytes) {
            Err(fault) => Err(fault),
            Ok(()) => Ok(Change::Raised {
                cut,
                low,
                high: page,
            }),
        },
        None => match page_of(&highs) {
            Some(high) => match put_again(stage, page, &lows, bytes) {
                Err(fault) => Err(fault),
                Ok(()) => Ok(Change::Raised {
                    cut,
                    low: page,
                    high,
                }),
            },
            None => match put_both(stage, page, &lows, &highs, bytes) {
                Err(fault) => Err(fault),
                Ok(high) => Ok(Change::Raised {
                    cut,
                    low: page,
                    high,
                }),
            },
        },
    }
}

// Puts the low side into the page, and the high side into a new one.
fn put_both<S: Stage>(
    stage: &mut S,
    page: u64,
    lows: &CutPage,
    highs: &CutPage,
    bytes: &mut Page,
) -> Result<u64, StageFault>
    requires lows { AreNodes lows.now.nodes.items × (3 ≤ length lows.now.nodes.items) × (length lows.now.nodes.items ≤ 127) }
    requires highs { AreNodes highs.now.nodes.items × (3 ≤ length highs.now.nodes.items) × (length highs.now.nodes.items ≤ 127) }
    ensures put { IfOk result (λ high. IsTrue (S.tells stage.old) → (between : PageMap) × HoldsCuts between page lows.now.nodes.items
        × Replaces (page ∷ []) (page ∷ []) (S.map stage.old) between × HoldsCuts (S.map stage.new) high highs.now.nodes.items × Replaces [] (high ∷ []) between (S.map stage.new)) }
    ensures number { IfOk result (λ high. 3 ≤ high) }
    ensures apart { IfOk result (λ high. IsTrue (S.tells stage.old) → OthersStay (λ p. p ≡ page) (S.map stage.old) (S.map stage.new)) }
    ensures damaged { (damaged : ℕ) → result ≡ Err (StageFault.Damaged damaged) → IsTrue (S.tells stage.old)
        → ((damaged ≡ page) × (S.map stage.old page ≡ None)) ⊎ (¬ S.free_in_order stage.old) }
    ensures well { IsTrue (S.tells stage.old) → IsSome (S.map stage.old page) → GoesWell S.Pages 1 stage.old stage.new result }
    ensures grows { Grows S.Pages 1 stage.old stage.new result }
{
    match put_again(stage, page, lows, bytes) {
        Err(fault) => Err(fault),
        Ok(()) => match make_cuts(stage, highs) {
            Err(fault) => Err(fault),
            Ok(high) => Ok(high),
        },
    }
}

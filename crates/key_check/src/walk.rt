//! The walk over all nodes of a tree over versions.
ghost use Rattle.std.specs.Prelude.{◌≡◌, ◌++◌, [], ◌∷◌, true, false, Ok, Err, IsTrue, OnOk};
ghost use Rattle.sb_tree.specs.Stands.{StandsBelow};
ghost use Rattle.page_checks.specs.Reads.{OnlyChecks};
ghost use Rattle.key_check.specs.Steps.{Walked, entries_steps, leaf_steps};

use crate::node::{low_at, node_at};
use crate::reached::Reached;
use crate::step::Step;
use page_checks::{CheckFault, push_page};
use page_layout::SbEntry;
use ports::Pages;
use std::alloc::AllocError;

const LEAST: usize = 32;

/// Walks over the page and those below it: puts the steps of their values behind the steps, and their pages
/// behind those named. It stops where a node does not stand as it is reached, and answers `false` then.
pub(crate) fn walk_below<P: Pages>(
    pages: &mut P,
    reached: Reached,
    level: u8,
    steps: &mut Vec<Step>,
    named: &mut Vec<u64>,
) -> Result<bool, CheckFault>
    ensures walked { result ≡ Ok true → IsTrue (P.tells pages.old)
        → Walked level (P.map pages.old) reached steps.old.items steps.new.items named.old.items named.new.items }
    ensures refused { result ≡ Ok false → IsTrue (P.tells pages.old)
        → StandsBelow level (P.map pages.old) reached.page reached.low reached.high reached.least → ⊥ }
    ensures reads { OnlyChecks P.Pages pages.old pages.new result }
{
    if level == 0 {
        return Ok(false);
    }
    let Some(node) = node_at(pages, reached, level)? else {
        return Ok(false);
    };
    push_page(named, reached.page)?;
    let entries = node.entries.as_slice();
    if level == 1 {
        push_steps(steps, entries, reached.before)?;
        return Ok(true);
    }
    let mut before = reached.before;
    for (place, entry) in entries.iter().enumerate() {
        before = before.wrapping_add(entry.value);
        let inner = Reached {
            page: entry.child,
            low: u64::from(entry.low),
            high: low_at(entries, place + 1, reached.high),
            least: LEAST,
            before,
        };
        if !walk_below(pages, inner, level - 1, steps, named)? {
            return Ok(false);
        }
    }
    Ok(true)
}

// Puts the steps of a leaf's entries behind the steps.
fn push_steps(
    steps: &mut Vec<Step>,
    entries: &[SbEntry],
    mut before: u128,
) -> Result<(), AllocError>
    ensures { OnOk result (steps.new.items ≡ steps.old.items ++ entries_steps leaf_steps before entries.now) }
{
    for entry in entries {
        before = before.wrapping_add(entry.value);
        steps.push(Step {
            version: entry.low,
            value: before,
        })?;
    }
    Ok(())
}

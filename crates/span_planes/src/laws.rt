//! The laws of spans: each function here does nothing, and its contract is the law.
ghost use Rattle.span_planes.specs.Laws.{SpanIsDifference, SpansAreBounded, SpansAreHeldByPages};

use dom_index::DomIndex;
use history_laws::{answers_are_bounded, entries_give_answers};
use redo_journal::settling_laws;

/// A span is the difference of two sums that begin with version 0, and no greater than the weights of all changes for each version.
pub fn spans_are_differences()
    ensures difference { SpanIsDifference }
    ensures bounded { SpansAreBounded }
{
    entries_give_answers();
    answers_are_bounded();
}

/// A disk holds spans by the pages that it stands for.
pub fn spans_are_held_by_pages<X: DomIndex>()
    ensures { SpansAreHeldByPages X.DomIndex }
{
    settling_laws();
}

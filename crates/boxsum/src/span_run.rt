//! `spanrun`: the spans that lines ask for, of a disk that holds them.
ghost use Rattle.std.specs.Prelude.{◌≡◌, ◌≢◌, ◌+◌, ◌<◌, ◌≤◌, ◌^◌, ℕ, IsTrue, [], length};
ghost use Rattle.ports.specs.Count.{Rose};
ghost use Rattle.bw_types.specs.History.{History};
ghost use Rattle.bw_types.specs.declared.params.Params.{Params};
ghost use Rattle.row_machine.specs.Answering.{AnswersLines};
ghost use Rattle.row_machine.specs.Serving.{IsFlushed};
ghost use Rattle.span_planes.specs.Asked.{AreAsBefore};
ghost use Rattle.span_planes.specs.Shown.{HoldsSpans, disk_in};
ghost use Rattle.span_planes.specs.SpanRows.{span_line_cost, span_reply};
ghost use Rattle.boxsum.specs.Ran.{SpanRunRan};

use crate::status::{Ran, Status};
use dom_index::DomIndex;
use page_disk::Disk;
use page_space::holds_one;
use ports::{Sink, Source};
use redo_journal::settling_laws;
use row_machine::{Ending, answer_lines};
use span_planes::{SpanDesk, Spans};
use std::alloc::Global;

/// Opens the spans on the disk and answers those that the lines of the source ask for.
pub(crate) fn span_run_on<X: DomIndex + Drop, E: Disk + Drop, S: Source, K: Sink>(
    alloc: Global,
    disk: E,
    source: &mut S,
    sink: &mut K,
) -> Ran<E>
    ensures ran { SpanRunRan E.Disk S.Source K.Sink X.DomIndex disk source.old source.new sink.old sink.new result }
{
    settling_laws();
    holds_one();
    let spans = match Spans::<E, X>::open_on(alloc, disk) {
        Ok(spans) => spans,
        Err(refused) => {
            return Ran {
                status: Status::from(refused.fault),
                disk: refused.disk,
            };
        }
    };
    let answered = answer_spans(alloc, spans, source, sink);
    Ran {
        status: Status::from(answered.ending),
        disk: answered.spans.into_disk(),
    }
}

// How the lines were answered, and the spans.
#[derive(Drop)]
struct AnsweredSpans<E: Disk, X: DomIndex> {
    ending: Ending,
    spans: Spans<E, X>,
}

// Answers the lines of the source from spans.
fn answer_spans<X: DomIndex + Drop, E: Disk + Drop, S: Source, K: Sink>(
    alloc: Global,
    spans: Spans<E, X>,
    source: &mut S,
    sink: &mut K,
) -> AnsweredSpans<E, X>
    ensures answers { IsTrue (S.tells source.old) → (params : Params) (h : History) → HoldsSpans E.Disk X.DomIndex (disk_in spans) params h
        → AnswersLines (span_reply params h) (span_line_cost X.cost params h) (K.tells sink.old) (K.tells sink.new) (S.tells source.new)
        (S.left source.old) (S.left source.new) result.ending (K.written sink.old) (K.written sink.new) (E.reads (disk_in spans)) (E.reads (disk_in result.spans)) }
    ensures kept { AreAsBefore E.Disk X.DomIndex spans result.spans }
    ensures sound { (params : Params) (h : History) (page : ℕ) → HoldsSpans E.Disk X.DomIndex (disk_in spans) params h → result.ending ≢ Ending.Damaged page }
    ensures at_end { result.ending ≡ Ending.Fine → IsTrue (S.tells source.old) → (S.left source.new ≡ []) × (length (S.left source.old) < 2 ^ 40) }
    ensures tells { IsFlushed result.ending → IsTrue (K.tells sink.old) → IsTrue (K.tells sink.new) }
    ensures read_fault { result.ending ≡ Ending.ReadFault → Rose (S.faults source.old) (S.faults source.new) }
    ensures write_fault { result.ending ≡ Ending.WriteFault → Rose (K.faults sink.old) (K.faults sink.new) }
    ensures disk_fault { result.ending ≡ Ending.DiskFault → Rose (E.faults (disk_in spans)) (E.faults (disk_in result.spans)) }
    ensures input_limit { (taken : ℕ) → result.ending ≡ Ending.InputLimit taken → (taken ≡ 2 ^ 40)
        × (IsTrue (S.tells source.old) → length (S.left source.old) ≡ 2 ^ 40 + length (S.left source.new)) }
    ensures no_page { (allotted : ℕ) → result.ending ≢ Ending.PageLimit allotted }
    ensures faults { E.faults (disk_in spans) ≤ E.faults (disk_in result.spans) }
{
    let mut desk = SpanDesk::new(alloc, spans);
    let ending = answer_lines(alloc, &mut desk, source, sink);
    AnsweredSpans {
        ending,
        spans: desk.into_spans(),
    }
}

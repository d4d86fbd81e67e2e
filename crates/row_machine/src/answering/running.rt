//! Line after line is answered, and the replies are put.
ghost use Rattle.std.specs.Prelude.{◌≡◌, ◌≢◌, ◌⊎◌, ℕ, ◌+◌, ◌<◌, ◌≤◌, ◌++◌, ◌^◌, [], IsTrue, IfErr, OnOk, OnErr, None, Some, Err, length};
ghost use Rattle.ports.specs.Count.{Rose};
ghost use Rattle.ports.specs.Written.{WritesPart};
ghost use Rattle.line_reader.specs.Lines.{PassesNoLineFeed};
ghost use Rattle.line_reader.specs.Reader.{to_come};
ghost use Rattle.line_reader.specs.declared.lines.Line.TheVariants as answered;
ghost use Rattle.row_machine.specs.AnsweredLine.{AnswersLine, BeginsLine};
ghost use Rattle.row_machine.specs.Answering.{AnswersLines};
ghost use Rattle.row_machine.specs.Housed.{IsHouseEnding};
ghost use Rattle.row_machine.specs.Outbox.{gathered};
ghost use Rattle.row_machine.specs.Serving.{GoesOn, IsBetweenLines, IsFlushed, MayGoOn, SeenEnd};

use super::{RespondFault, Responder};
use crate::ending::Ending;
use crate::outbox::Outbox;
use crate::serving::{INPUT_LIMIT, put_due};
use csv_rows::Reply;
use line_reader::{Line, LineReader, lines_join, whole_joins, whole_part_of_passed};
use ports::{Sink, Source};
use std::alloc::Global;

// Answers the next line, which has this number, or ends the run. A line that is longer than a line may be is bad, whatever its bytes.
fn answer_line<R: Responder, S: Source>(
    alloc: Global,
    responder: &mut R,
    reader: &mut LineReader,
    number: u64,
    outbox: &mut Outbox,
    source: &mut S,
) -> Result<(), Ending>
    requires { MayGoOn reader.old.stopped }
    ensures limit { reader.new.limit ≡ reader.old.limit }
    ensures seen_end { reader.old.stopped ≡ None → SeenEnd reader.new (S.tells source.old) (S.left source.new) }
    ensures stays { reader.old.stopped ≡ Some answered.End → (reader.new ≡ reader.old) × (source.new ≡ source.old) }
    ensures counts { IsTrue (S.tells source.old) → IsTrue (S.tells source.new) →
        reader.new.taken + length (S.left source.new) ≡ reader.old.taken + length (S.left source.old) }
    ensures kept { (responder.new ≡ responder.old) ⊎ R.as_before responder.old responder.new }
    ensures faults { R.faults responder.old ≤ R.faults responder.new }

    // A line is answered.
    ensures goes_on { OnOk result (GoesOn reader.old reader.new) }
    ensures source { OnOk result ((S.faults source.new ≡ S.faults source.old)
        × (IsTrue (S.tells source.old) → IsTrue (S.tells source.new))) }
    ensures answers { OnOk result (IsTrue (S.tells source.old) → (facts : R.Facts) → R.stands responder.old facts →
        AnswersLine R.Responder facts number (to_come reader.old (S.left source.old)) (to_come reader.new (S.left source.new)) reader.new.stopped
        responder.old responder.new (gathered outbox.old) (gathered outbox.new)) }

    // The run ends between two lines, or in one, of which nothing is replied then.
    ensures ended { IfErr result (λ ending. IsBetweenLines ending ⊎ IsHouseEnding ending) }
    ensures unsaid { OnErr result (gathered outbox.new ≡ gathered outbox.old) }
    ensures between { IfErr result (λ ending. IsBetweenLines ending → responder.new ≡ responder.old) }
    ensures begins { IfErr result (λ ending. IsHouseEnding ending → IsTrue (S.tells source.old) → (facts : R.Facts) → R.stands responder.old facts →
        BeginsLine R.Responder facts (to_come reader.old (S.left source.old)) (to_come reader.new (S.left source.new)) reader.new.stopped
        responder.old responder.new) }
    ensures sound { (facts : R.Facts) (page : ℕ) → R.stands responder.old facts → result ≢ Err (Ending.Damaged page) }
    ensures no_page { (allotted : ℕ) → result ≢ Err (Ending.PageLimit allotted) }
    ensures disk_fault { result ≡ Err Ending.DiskFault → Rose (R.faults responder.old) (R.faults responder.new) }

    // The input is at its end, or it fails or is too long within a line.
    ensures end { IfErr result (λ ending. ending ≡ Ending.Fine → (reader.new.stopped ≡ Some answered.End)
        × (IsTrue (S.tells source.old) → IsTrue (S.tells source.new) × (to_come reader.old (S.left source.old) ≡ []))) }
    ensures read_fault { IfErr result (λ ending. ending ≡ Ending.ReadFault → (reader.old.stopped ≡ None)
        × Rose (S.faults source.old) (S.faults source.new)
        × (IsTrue (S.tells source.old) → IsTrue (S.tells source.new) →
        PassesNoLineFeed (to_come reader.old (S.left source.old)) (S.left source.new))) }
    ensures input_limit { IfErr result (λ ending. (taken : ℕ) → ending ≡ Ending.InputLimit taken → (reader.old.stopped ≡ None)
        × (taken ≡ reader.new.limit) × (reader.new.taken ≡ reader.new.limit)
        × (IsTrue (S.tells source.old) → IsTrue (S.tells source.new)
        × PassesNoLineFeed (to_come reader.old (S.left source.old)) (S.left source.new))) }
{
    match reader.next_line(source) {
        Line::Text => match responder.respond(
            alloc,
            number,
            reader.text(),
            reader.ahead(),
            &mut outbox.text,
        ) {
            Ok(()) => Ok(()),
            Err(RespondFault::Disk) => Err(Ending::DiskFault),
            Err(RespondFault::Damaged(page)) => Err(Ending::Damaged { page }),
            Err(RespondFault::NoMemory) => Err(Ending::NoMemory),
        },
        Line::Long => match outbox.gather(alloc, Some(Reply::Bad { line: number })) {
            Ok(()) => Ok(()),
            Err(_) => Err(Ending::NoMemory),
        },
        Line::End => Err(Ending::Fine),
        Line::Fault => Err(Ending::ReadFault),
        Line::Limit => {
            let taken = reader.taken();
            Err(Ending::InputLimit { taken })
        }
    }
}

// Puts all that was gathered at the end of a run. Where the sink fails that is why the run ends, unless the device failed.
fn put_last<K: Sink>(ending: Ending, outbox: &mut Outbox, sink: &mut K) -> Ending
    ensures ending { (result ≡ ending) ⊎ ((result ≡ Ending.WriteFault) × (ending ≢ Ending.DiskFault)) }
    ensures write_fault { result ≡ Ending.WriteFault → ending ≢ Ending.WriteFault → Rose (K.faults sink.old) (K.faults sink.new) }
    ensures flushed { IsFlushed result → IsTrue (K.tells sink.old) → K.written sink.new ≡ K.written sink.old ++ gathered outbox.old }
    ensures tells { IsFlushed result → IsTrue (K.tells sink.old) → IsTrue (K.tells sink.new) }
    ensures part { IsTrue (K.tells sink.old) → IsTrue (K.tells sink.new)
        → WritesPart (K.written sink.old) (K.written sink.new) (gathered outbox.old) }
{
    if outbox.put(sink).is_ok() {
        return ending;
    }
    match ending {
        Ending::DiskFault => Ending::DiskFault,
        _ => Ending::WriteFault,
    }
}

/// Answers the input that the source has left, to its end: the replies to its lines are written, the first of them having the number 1.
/// Answers how it ended.
///
/// Replies are gathered, and put before more bytes are taken from the source, and at the end. Those to one line are put together: where a
/// line is not answered, nothing of its replies is.
pub fn answer_lines<R: Responder, S: Source, K: Sink>(
    alloc: Global,
    responder: &mut R,
    source: &mut S,
    sink: &mut K,
) -> Ending
    ensures answers { IsTrue (S.tells source.old) → (facts : R.Facts) → R.stands responder.old facts →
        AnswersLines (R.reply facts) (R.cost facts) (K.tells sink.old) (K.tells sink.new) (S.tells source.new) (S.left source.old) (S.left source.new)
        result (K.written sink.old) (K.written sink.new) (R.reads responder.old) (R.reads responder.new) }
    ensures kept { R.as_before responder.old responder.new }
    ensures sound { (facts : R.Facts) (page : ℕ) → R.stands responder.old facts → result ≢ Ending.Damaged page }
    ensures at_end { result ≡ Ending.Fine → IsTrue (S.tells source.old) → (S.left source.new ≡ []) × (length (S.left source.old) < 2 ^ 40) }
    ensures tells { IsFlushed result → IsTrue (K.tells sink.old) → IsTrue (K.tells sink.new) }

    // The cause of each ending. No page is given out.
    ensures read_fault { result ≡ Ending.ReadFault → Rose (S.faults source.old) (S.faults source.new) }
    ensures write_fault { result ≡ Ending.WriteFault → Rose (K.faults sink.old) (K.faults sink.new) }
    ensures disk_fault { result ≡ Ending.DiskFault → Rose (R.faults responder.old) (R.faults responder.new) }
    ensures input_limit { (taken : ℕ) → result ≡ Ending.InputLimit taken → (taken ≡ 2 ^ 40)
        × (IsTrue (S.tells source.old) → length (S.left source.old) ≡ 2 ^ 40 + length (S.left source.new)) }
    ensures no_page { (allotted : ℕ) → result ≢ Ending.PageLimit allotted }
    ensures faults { R.faults responder.old ≤ R.faults responder.new }
{
    // The laws that the invariant of the loop rests on.
    lines_join();
    whole_joins();
    whole_part_of_passed();
    R::respond_laws();

    let mut reader = LineReader::new(INPUT_LIMIT);
    let mut outbox = Outbox::new(alloc);
    let mut number: u64 = 1;
    loop {
        if !put_due(&mut outbox, reader.ahead(), sink) {
            return Ending::WriteFault;
        }
        match answer_line(alloc, responder, &mut reader, number, &mut outbox, source) {
            Ok(()) => {}
            Err(ending) => return put_last(ending, &mut outbox, sink),
        }
        number += 1;
    }
}

//! Serving an input: line after line is read, taken by the machine and replied.
ghost use Rattle.std.specs.Prelude.{◌≡◌, ◌≢◌, ℕ, ◌+◌, ◌<◌, ◌≤◌, ◌++◌, ◌⊎◌, ◌^◌, ⊤, List, [], Bool, true, false, IsTrue, IfOk, IfErr, IfSome, OnOk, OnErr, Some, None, Ok, Err, length};
ghost use Rattle.ports.specs.Count.{Rose};
ghost use Rattle.bw_types.specs.Fits.{IsInRange};
ghost use Rattle.bw_types.specs.History.{History};
ghost use Rattle.line_reader.specs.Lines.{lines, PassesNoLineFeed};
ghost use Rattle.line_reader.specs.Reader.{to_come};
ghost use Rattle.csv_rows.specs.Input.{input};
ghost use Rattle.csv_rows.specs.declared.input.Input.{Input};
ghost use Rattle.csv_rows.specs.Machine.{step, replied};
ghost use Rattle.line_reader.specs.declared.lines.Line.TheVariants as answered;
ghost use Rattle.row_machine.specs.Outbox.{gathered};
ghost use Rattle.ports.specs.Written.{WritesMore, WritesPart};
ghost use Rattle.row_machine.specs.Housed.{IsHouseEnding, IsVersion, LeavesCommit, MayTake, rows_committed};
ghost use Rattle.row_machine.specs.Serving.{BreaksOff, Ends, GoesOn, IsBetweenLines, IsFlushed, Lasts, LastsBeyond, LeavesLine, MayGoOn, MayServe, OnServed, SeenEnd, ServesLine, ServesText, device_after, line_cost, state_at};

use crate::desk::{Desk, LineTaken};
use crate::ending::{Ending, RunEnd};
use crate::outbox::Outbox;
use csv_rows::{Reply, RowReader};
use line_reader::{Line, LineReader, lines_join, whole_joins, whole_part_of_passed};
use ports::{Sink, Source};
use std::alloc::Global;
use warehouse::House;

/// An input has fewer bytes than this.
pub const INPUT_LIMIT: u64 = 1 << 40;

// Gathers the reply of a line that is done. No session is left to commit.
fn done(alloc: Global, reply: Option<Reply>, outbox: &mut Outbox) -> Result<Option<u8>, Ending>
    ensures served { IfOk result (λ left. left ≡ None) }
    ensures gathers { OnOk result (gathered outbox.new ≡ gathered outbox.old ++ replied reply) }
    ensures urgent { OnOk result (outbox.new.is_urgent ≡ false → (outbox.old.is_urgent ≡ false) × (IsVersion reply → ⊥)) }
    ensures ended { IfErr result (λ ending. ending ≡ Ending.NoMemory) }
    ensures unsaid { OnErr result (gathered outbox.new ≡ gathered outbox.old) }
{
    match outbox.gather(alloc, reply) {
        Ok(()) => Ok(None),
        Err(_) => Err(Ending::NoMemory),
    }
}

// The machine takes a line, which has this number, and its reply is gathered. Answers the session that the line commits,
// which is left to do.
fn serve_text<H: House>(
    alloc: Global,
    desk: &mut Desk<H>,
    rows: &mut RowReader,
    number: u64,
    line: &[u8],
    ahead: &[u8],
    outbox: &mut Outbox,
) -> Result<Option<u8>, Ending>
    requires { IsInRange desk.old.params }
    ensures params { desk.new.params ≡ desk.old.params }
    ensures serves { (whole : Bool) (h : History) → MayTake whole (input desk.old.params line.now) → H.stands whole (H.device desk.old.house) desk.old.params h →
        OnServed ⟦<H as House>⟧ (ServesText ⟦<H as House>⟧ whole desk.old.params h (step desk.old.params number (state_at ⟦<H as House>⟧ h desk.old) line.now)
        (rows_committed (state_at ⟦<H as House>⟧ h desk.old) (input desk.old.params line.now)) (MayTake false (input desk.old.params line.now)) (line_cost H.cost desk.old.params h line.now) (H.device desk.old.house) (gathered outbox.old) (gathered outbox.new) outbox.new.is_urgent)
        (λ session. ⊤) desk.new result }
    ensures commits { IfOk result (λ left. IfSome left (λ session. LeavesCommit ⟦<H as House>⟧ (input desk.old.params line.now) desk.old desk.new session
        × (gathered outbox.new ≡ gathered outbox.old))) }
    ensures lasts { (h : History) → H.stands true (H.device desk.old.house) desk.old.params h →
        OnServed ⟦<H as House>⟧ (LastsBeyond ⟦<H as House>⟧ desk.old.params h (H.device desk.old.house)) (λ session. ⊤) desk.new result }
    ensures within { IfErr result (λ ending. IsHouseEnding ending) }
    ensures at_limit { IfErr result (λ ending. (allotted : ℕ) → ending ≡ Ending.PageLimit allotted → allotted ≡ desk.old.params.pages) }
    ensures unsaid { OnErr result (gathered outbox.new ≡ gathered outbox.old) }
    ensures device_tells { H.tells (H.device desk.new.house) ≡ H.tells (H.device desk.old.house) }
    ensures faults { H.faults (H.device desk.old.house) ≤ H.faults (H.device desk.new.house) }
    ensures disk_fault { IfErr result (λ ending. ending ≡ Ending.DiskFault → Rose (H.faults (H.device desk.old.house)) (H.faults (H.device desk.new.house))) }
{
    match desk.take_line(alloc, rows, number, line, ahead) {
        Ok(LineTaken::Done { reply }) => done(alloc, reply, outbox),
        Ok(LineTaken::Commits { session }) => Ok(Some(session)),
        Err(ending) => Err(ending),
    }
}

// Serves the next line, which has this number, or ends the run. Answers the session that the line commits, which is left
// to do. A line that is longer than a line may be is bad, whatever its bytes.
fn serve_line<H: House, S: Source>(
    alloc: Global,
    desk: &mut Desk<H>,
    rows: &mut RowReader,
    reader: &mut LineReader,
    number: u64,
    outbox: &mut Outbox,
    source: &mut S,
) -> Result<Option<u8>, Ending>
    requires range { IsInRange desk.old.params }
    requires going { MayGoOn reader.old.stopped }
    ensures params { desk.new.params ≡ desk.old.params }
    ensures limit { reader.new.limit ≡ reader.old.limit }
    ensures seen_end { reader.old.stopped ≡ None → SeenEnd reader.new (S.tells source.old) (S.left source.new) }
    ensures stays { reader.old.stopped ≡ Some answered.End → (reader.new ≡ reader.old) × (source.new ≡ source.old) }
    ensures counts { IsTrue (S.tells source.old) → IsTrue (S.tells source.new) →
        reader.new.taken + length (S.left source.new) ≡ reader.old.taken + length (S.left source.old) }
    ensures device_tells { H.tells (H.device desk.new.house) ≡ H.tells (H.device desk.old.house) }
    ensures faults { H.faults (H.device desk.old.house) ≤ H.faults (H.device desk.new.house) }

    // A line is served, or is to be a commit.
    ensures goes_on { OnOk result (GoesOn reader.old reader.new) }
    ensures source { OnOk result ((S.faults source.new ≡ S.faults source.old)
        × (IsTrue (S.tells source.old) → IsTrue (S.tells source.new))) }
    ensures served { IfOk result (λ left. left ≡ None → IsTrue (S.tells source.old) →
        (whole : Bool) (h : History) → MayServe whole desk.old.params (lines (to_come reader.old (S.left source.old))) → H.stands whole (H.device desk.old.house) desk.old.params h →
        ServesLine ⟦<H as House>⟧ whole desk.old.params number
        (to_come reader.old (S.left source.old)) (to_come reader.new (S.left source.new)) reader.new.stopped
        h desk.old desk.new (gathered outbox.old) (gathered outbox.new) outbox.new.is_urgent) }
    ensures commits { IfOk result (λ left. IfSome left (λ session. (1 ≤ session) × (session ≤ 16)
        × (desk.new ≡ desk.old) × (gathered outbox.new ≡ gathered outbox.old)
        × (IsTrue (S.tells source.old) → LeavesLine desk.old.params (to_come reader.old (S.left source.old)) (to_come reader.new (S.left source.new)) reader.new.stopped session))) }

    ensures lasts { (h : History) → H.stands true (H.device desk.old.house) desk.old.params h →
        OnServed ⟦<H as House>⟧ (LastsBeyond ⟦<H as House>⟧ desk.old.params h (H.device desk.old.house)) (λ session. ⊤) desk.new result }

    // The run ends between two lines, or in one, of which nothing is replied then.
    ensures ended { IfErr result (λ ending. IsBetweenLines ending ⊎ IsHouseEnding ending) }
    ensures at_limit { IfErr result (λ ending. (allotted : ℕ) → ending ≡ Ending.PageLimit allotted → allotted ≡ desk.old.params.pages) }
    ensures unsaid { OnErr result (gathered outbox.new ≡ gathered outbox.old) }
    ensures between { IfErr result (λ ending. IsBetweenLines ending → desk.new ≡ desk.old) }
    ensures breaks { IfErr result (λ ending. IsHouseEnding ending → IsTrue (S.tells source.old) →
        (whole : Bool) (h : History) → MayServe whole desk.old.params (lines (to_come reader.old (S.left source.old))) → H.stands whole (H.device desk.old.house) desk.old.params h →
        BreaksOff ⟦<H as House>⟧ whole desk.old.params number (to_come reader.old (S.left source.old)) (to_come reader.new (S.left source.new)) reader.new.stopped
        h desk.old (record { ending = ending; device = H.device desk.new.house })) }
    ensures disk_fault { IfErr result (λ ending. ending ≡ Ending.DiskFault → Rose (H.faults (H.device desk.old.house)) (H.faults (H.device desk.new.house))) }

    // The input is at its end, or it fails or is too long within a line.
    ensures end { IfErr result (λ ending. ending ≡ Ending.Fine → (reader.new.stopped ≡ Some answered.End)
        × (IsTrue (S.tells source.old) → IsTrue (S.tells source.new) × (to_come reader.old (S.left source.old) ≡ []))) }
    ensures read_fault { IfErr result (λ ending. ending ≡ Ending.ReadFault → (reader.old.stopped ≡ None)
        × Rose (S.faults source.old) (S.faults source.new)
        × (IsTrue (S.tells source.old) → IsTrue (S.tells source.new) →
        PassesNoLineFeed (to_come reader.old (S.left source.old)) (S.left source.new))) }
    ensures input_limit { IfErr result (λ ending. (taken : ℕ) → ending ≡ Ending.InputLimit taken → (reader.old.stopped ≡ None)
        × (taken ≡ reader.new.limit) × (reader.new.taken ≡ reader.new.limit)
        × (IsTrue (S.tells source.old) → IsTrue (S.tells source.new)
        × PassesNoLineFeed (to_come reader.old (S.left source.old)) (S.left source.new))) }
{
    match reader.next_line(source) {
        Line::Text => serve_text(
            alloc,
            desk,
            rows,
            number,
            reader.text(),
            reader.ahead(),
            outbox,
        ),
        Line::Long => done(alloc, Some(Reply::Bad { line: number }), outbox),
        Line::End => Err(Ending::Fine),
        Line::Fault => Err(Ending::ReadFault),
        Line::Limit => {
            let taken = reader.taken();
            Err(Ending::InputLimit { taken })
        }
    }
}

// Gathers the reply of a commit.
fn reply_to<H: House>(
    alloc: Global,
    desk: Desk<H>,
    reply: Option<Reply>,
    outbox: &mut Outbox,
) -> Result<Desk<H>, RunEnd<H::Device>>
    ensures same { IfOk result (λ new. new ≡ desk) }
    ensures gathers { OnOk result (gathered outbox.new ≡ gathered outbox.old ++ replied reply) }
    ensures urgent { OnOk result (outbox.new.is_urgent ≡ false → (outbox.old.is_urgent ≡ false) × (IsVersion reply → ⊥)) }
    ensures ended { IfErr result (λ ran. (ran.device ≡ H.device desk.house) × (ran.ending ≡ Ending.NoMemory)) }
    ensures unsaid { OnErr result (gathered outbox.new ≡ gathered outbox.old) }
{
    match outbox.gather(alloc, reply) {
        Ok(()) => Ok(desk),
        Err(_) => Err(desk.ended(Ending::NoMemory)),
    }
}

// What the session has staged is committed, and the reply is gathered: what is left to do of any line that spells that.
fn serve_commit<H: House>(
    alloc: Global,
    desk: Desk<H>,
    session: u8,
    outbox: &mut Outbox,
) -> Result<Desk<H>, RunEnd<H::Device>>
    requires some { 1 ≤ session }
    requires sixteen { session ≤ 16 }
    ensures params { IfOk result (λ new. new.params ≡ desk.params) }
    ensures serves { (n : ℕ) (line : List ℕ) (whole : Bool) (h : History) → input desk.params line ≡ Some (Input.Commit session) → IsTrue whole → H.stands whole (H.device desk.house) desk.params h →
        ServesText ⟦<H as House>⟧ whole desk.params h (step desk.params n (state_at ⟦<H as House>⟧ h desk) line)
        (rows_committed (state_at ⟦<H as House>⟧ h desk) (input desk.params line)) (MayTake false (input desk.params line)) (line_cost H.cost desk.params h line) (H.device desk.house) (gathered outbox.old) (gathered outbox.new) outbox.new.is_urgent result }
    ensures lasts { (h : History) → H.stands true (H.device desk.house) desk.params h → LastsBeyond ⟦<H as House>⟧ desk.params h (H.device desk.house) result }
    ensures within { IfErr result (λ ran. IsHouseEnding ran.ending) }
    ensures at_limit { IfErr result (λ ran. (allotted : ℕ) → ran.ending ≡ Ending.PageLimit allotted → allotted ≡ desk.params.pages) }
    ensures unsaid { OnErr result (gathered outbox.new ≡ gathered outbox.old) }
    ensures device_tells { H.tells (device_after ⟦<H as House>⟧ result) ≡ H.tells (H.device desk.house) }
    ensures faults { H.faults (H.device desk.house) ≤ H.faults (device_after ⟦<H as House>⟧ result) }
    ensures disk_fault { IfErr result (λ ran. ran.ending ≡ Ending.DiskFault → Rose (H.faults (H.device desk.house)) (H.faults ran.device)) }
{
    match desk.commit(session) {
        Ok(taken) => reply_to(alloc, taken.desk, taken.reply, outbox),
        Err(ran) => Err(ran),
    }
}

// Puts the replies where they are due. False where the sink failed.
pub(crate) fn put_due<K: Sink>(outbox: &mut Outbox, ahead: &[u8], sink: &mut K) -> bool
    ensures same { result ≡ true → IsTrue (K.tells sink.old) → K.written sink.new ++ gathered outbox.new ≡ K.written sink.old ++ gathered outbox.old }
    // Where nothing was put, none of the replies is urgent; else all were put.
    ensures due { result ≡ true → ((sink.new ≡ sink.old) × (outbox.new ≡ outbox.old) × (outbox.old.is_urgent ≡ false))
        ⊎ ((gathered outbox.new ≡ []) × (IsTrue (K.tells sink.old) → K.written sink.new ≡ K.written sink.old ++ gathered outbox.old)) }
    ensures more { result ≡ true → IsTrue (K.tells sink.old) → WritesMore (K.written sink.old) (K.written sink.new) }
    ensures tells { result ≡ true → IsTrue (K.tells sink.old) → IsTrue (K.tells sink.new) }
    ensures calm { result ≡ true → K.faults sink.new ≡ K.faults sink.old }
    ensures part { result ≡ false → IsTrue (K.tells sink.old) → IsTrue (K.tells sink.new)
        → WritesPart (K.written sink.old) (K.written sink.new) (gathered outbox.old) }
    ensures failed { result ≡ false → Rose (K.faults sink.old) (K.faults sink.new) }
{
    if !outbox.is_due(ahead) {
        return true;
    }
    outbox.put(sink).is_ok()
}

// Ends the run, with all that was gathered put. Where the sink fails that is why the run ends, unless
// the device failed.
fn close<D, K: Sink>(ran: RunEnd<D>, outbox: &mut Outbox, sink: &mut K) -> RunEnd<D>
    ensures device { result.device ≡ ran.device }
    ensures ending { (result.ending ≡ ran.ending) ⊎ ((result.ending ≡ Ending.WriteFault) × (ran.ending ≢ Ending.DiskFault)) }
    ensures write_fault { result.ending ≡ Ending.WriteFault → ran.ending ≢ Ending.WriteFault → Rose (K.faults sink.old) (K.faults sink.new) }
    ensures flushed { IsFlushed result.ending → IsTrue (K.tells sink.old) → K.written sink.new ≡ K.written sink.old ++ gathered outbox.old }
    ensures tells { IsFlushed result.ending → IsTrue (K.tells sink.old) → IsTrue (K.tells sink.new) }
    ensures part { IsTrue (K.tells sink.old) → IsTrue (K.tells sink.new)
        → WritesPart (K.written sink.old) (K.written sink.new) (gathered outbox.old) }
{
    if outbox.put(sink).is_ok() {
        return ran;
    }
    let RunEnd { ending, device } = ran;
    let ending = match ending {
        Ending::DiskFault => Ending::DiskFault,
        _ => Ending::WriteFault,
    };
    RunEnd { ending, device }
}

/// Serves the input that the source has left, to its end: the replies to its lines are written, the
/// first of them having the number 1. Answers how it ended, and the device that lasts.
///
/// Replies are gathered, and put before more bytes are taken from the source, after each version, and
/// at the end.
pub fn serve<H: House, S: Source, K: Sink>(
    alloc: Global,
    desk: Desk<H>,
    source: &mut S,
    sink: &mut K,
) -> RunEnd<H::Device>
    requires { IsInRange desk.params }
    // The lines that are served whole, what is written, the history that is there, and what a crash may leave.
    ensures ends { IsTrue (S.tells source.old) → (whole : Bool) (h : History) → MayServe whole desk.params (lines (S.left source.old))
        → H.stands whole (H.device desk.house) desk.params h →
        Ends ⟦<H as House>⟧ whole (K.tells sink.old) (K.tells sink.new) (S.tells source.new) desk.params (state_at ⟦<H as House>⟧ h desk)
        (S.left source.old) (S.left source.new) (H.device desk.house) result (K.written sink.old) (K.written sink.new) }
    // The same of the history and of crashes, whatever the source gives.
    ensures lasts { (h : History) → H.stands true (H.device desk.house) desk.params h → Lasts ⟦<H as House>⟧ desk.params h (H.device desk.house) result }
    ensures at_end { result.ending ≡ Ending.Fine → IsTrue (S.tells source.old) →
        (S.left source.new ≡ []) × (length (S.left source.old) < 2 ^ 40) }
    ensures tells { IsFlushed result.ending → IsTrue (K.tells sink.old) → IsTrue (K.tells sink.new) }

    // The cause of each ending.
    ensures read_fault { result.ending ≡ Ending.ReadFault → Rose (S.faults source.old) (S.faults source.new) }
    ensures write_fault { result.ending ≡ Ending.WriteFault → Rose (K.faults sink.old) (K.faults sink.new) }
    ensures disk_fault { result.ending ≡ Ending.DiskFault → Rose (H.faults (H.device desk.house)) (H.faults result.device) }
    ensures input_limit { (taken : ℕ) → result.ending ≡ Ending.InputLimit taken → (taken ≡ 2 ^ 40)
        × (IsTrue (S.tells source.old) → length (S.left source.old) ≡ 2 ^ 40 + length (S.left source.new)) }
    // The limit of pages is that of the params, whatever the device holds and whatever the source gives.
    ensures at_limit { (allotted : ℕ) → result.ending ≡ Ending.PageLimit allotted → allotted ≡ desk.params.pages }
    // However it ends, the device tells what it told, and no failure is forgotten.
    ensures device_tells { H.tells result.device ≡ H.tells (H.device desk.house) }
    ensures faults { H.faults (H.device desk.house) ≤ H.faults result.device }
{
    // The laws that the invariant of the loop rests on.
    lines_join();
    whole_joins();
    whole_part_of_passed();

    // The readers have large buffers and a house is large: all stay where they are. A commit alone moves the house.
    let mut desk = desk;
    let mut rows = RowReader::new(alloc);
    let mut reader = LineReader::new(INPUT_LIMIT);
    let mut outbox = Outbox::new(alloc);
    let mut number: u64 = 1;
    'lines: loop {
        if !put_due(&mut outbox, reader.ahead(), sink) {
            return desk.ended(Ending::WriteFault);
        }
        match serve_line(
            alloc,
            &mut desk,
            &mut rows,
            &mut reader,
            number,
            &mut outbox,
            source,
        ) {
            Ok(None) => {
                number += 1;
                continue 'lines;
            }
            Ok(Some(session)) => match serve_commit(alloc, desk, session, &mut outbox) {
                Ok(next) => desk = next,
                Err(ran) => return close(ran, &mut outbox, sink),
            },
            Err(ending) => return close(desk.ended(ending), &mut outbox, sink),
        }
        number += 1;
    }
}

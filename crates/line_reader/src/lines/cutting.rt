//! Takes the next line off the front of an intake.
ghost use Rattle.std.specs.Prelude.{◌≡◌, ℕ, ◌+◌, ◌<◌, ◌≤◌, [], ◌++◌, IsTrue, None, Some, MatchOption, MatchResult, IfOk, OnOk, IfErr, IfNone, IfSome, length, take, drop};
ghost use Rattle.std.specs.Str.Lines.{strip_carriage_return};
ghost use Rattle.line_reader.specs.Lines.{HasNoLineFeed};
ghost use Rattle.line_reader.specs.Intake.{LosesNothing, IsLineEnd, IsStop};
ghost use Rattle.line_reader.specs.Reader.{unless_stopped, StopsAfter, Cuts, StopsInLine, SeesEnd, LeavesSource, IsCalm, IsLine, EndsOrLine, TakesLongLine};
ghost use Rattle.line_reader.specs.Skip.{SkipsTo};

use super::intake::{Intake, LONGEST_HELD, Stop};
use super::{LONGEST_LINE, Line};
use memchr::memchr;
use ports::Source;

const LINE_FEED: u8 = b'\n';

const CARRIAGE_RETURN: u8 = b'\r';

/// What was cut: how many bytes of the intake are the line's text, how many are used up with it, and
/// whether the reader stops.
#[derive(Clone, Copy)]
pub struct Cut {
    pub answer: Line,
    pub text_len: usize,
    pub used: usize,
    pub stopped: Option<Line>,
}

impl Cut {
    fn stop(answer: Line) -> Cut
        ensures { result ≡ record { answer = answer; text_len = 0; used = 0; stopped = Some answer } }
    {
        Cut {
            answer,
            text_len: 0,
            used: 0,
            stopped: Some(answer),
        }
    }

    fn long(stopped: Option<Line>) -> Cut
        ensures { result ≡ record { answer = Line.Long; text_len = 0; used = 0; stopped = stopped } }
    {
        Cut {
            answer: Line::Long,
            text_len: 0,
            used: 0,
            stopped,
        }
    }
}

/// Cuts the next line. What is to come are the bytes that are held and those that the source has left.
pub fn cut_line<S: Source>(intake: &mut Intake, source: &mut S) -> Cut
    requires within_limit { intake.old.taken ≤ intake.old.limit }
    requires held_taken { length intake.old.held ≤ intake.old.taken }

    ensures stops { StopsAfter result.answer result.stopped }
    ensures text_within { result.text_len ≤ result.used }
    ensures used_within { result.used ≤ length intake.new.held }

    ensures line { IsTrue (S.tells source.old) → Cuts LONGEST_LINE result.answer
        (intake.old.held ++ S.left source.old) (take result.text_len intake.new.held)
        (unless_stopped result.stopped (drop result.used intake.new.held ++ S.left source.new)) result.stopped }
    ensures short { result.answer ≡ Line.Text → result.text_len ≤ LONGEST_LINE }

    ensures source { LeavesSource result.answer
        (S.tells source.old) (S.tells source.new) (S.faults source.old) (S.faults source.new) }
    ensures never_falls { S.faults source.old ≤ S.faults source.new }
    ensures in_line { IsTrue (S.tells source.old) → StopsInLine result.answer
        (intake.old.held ++ S.left source.old) (S.tells source.new) (S.left source.new) }

    ensures limit_only { result.answer ≡ Line.Limit → intake.new.taken ≡ intake.new.limit }
    ensures end_seen { IsTrue (S.tells source.old) → HasNoLineFeed (intake.old.held ++ S.left source.old) →
        SeesEnd result.answer intake.new.taken intake.new.limit }

    ensures at_end { result.stopped ≡ Some Line.End →
        (intake.new.taken < intake.new.limit) × (IsTrue (S.tells source.old) → S.left source.new ≡ []) }

    ensures progress { IsLine result.answer → intake.old.taken + length (drop result.used intake.new.held)
        < intake.new.taken + length intake.old.held }
    ensures held_taken { length intake.new.held ≤ intake.new.taken }
    ensures counts { IsTrue (S.tells source.old) → IsTrue (S.tells source.new) →
        intake.new.taken + length (S.left source.new) ≡ intake.old.taken + length (S.left source.old) }
    ensures within_limit { intake.new.taken ≤ intake.new.limit }
    ensures limit { intake.new.limit ≡ intake.old.limit }
{
    match find_line_feed(intake, source) {
        Ok(Some(at)) => line_at(intake.held(), at, at + 1, None),
        Ok(None) => match skip_line(intake, source) {
            Ok(()) => Cut::long(None),
            Err(Stop::End) => Cut::long(Some(Line::End)),
            Err(Stop::Fault) => Cut::stop(Line::Fault),
            Err(Stop::Limit) => Cut::stop(Line::Limit),
        },
        Err(Stop::End) => last_line(intake.held()),
        Err(Stop::Fault) => Cut::stop(Line::Fault),
        Err(Stop::Limit) => Cut::stop(Line::Limit),
    }
}

// The line that is left at the end, if there is one.
fn last_line(held: &[u8]) -> Cut
    ensures line { HasNoLineFeed held.now →
        Cuts LONGEST_LINE result.answer held.now (take result.text_len held.now) [] result.stopped }
    ensures short { result.answer ≡ Line.Text → result.text_len ≤ LONGEST_LINE }
    ensures stops { StopsAfter result.answer result.stopped }
    ensures stopped { result.stopped ≡ Some Line.End }
    ensures seen { EndsOrLine result.answer }
    ensures text_within { result.text_len ≤ result.used }
    ensures used_all { result.used ≡ length held.now }
    ensures some { IsLine result.answer → 0 < length held.now }
{
    if held.is_empty() {
        return Cut::stop(Line::End);
    }
    line_at(held, held.len(), held.len(), Some(Line::End))
}

// The line whose bytes, with a carriage return that is to be dropped, are the first `at`.
fn line_at(held: &[u8], at: usize, used: usize, stopped: Option<Line>) -> Cut
    requires at_within { at ≤ used }
    requires used_within { used ≤ length held.now }
    requires at_end { IfSome stopped (λ answer. answer ≡ Line.End) }
    ensures text { take result.text_len held.now ≡ strip_carriage_return (take at held.now) }
    ensures within { result.text_len ≤ at }
    ensures used { result.used ≡ used }
    ensures stopped { result.stopped ≡ stopped }
    ensures stops { StopsAfter result.answer result.stopped }
    ensures is_line { IsLine result.answer }
    ensures short { result.answer ≡ Line.Text → result.text_len ≤ LONGEST_LINE }
    ensures long { result.answer ≡ Line.Long → LONGEST_LINE < result.text_len }
{
    let text_len = stripped_len(&held[..at]);
    if text_len > LONGEST_LINE {
        return Cut {
            answer: Line::Long,
            text_len,
            used,
            stopped,
        };
    }
    Cut {
        answer: Line::Text,
        text_len,
        used,
        stopped,
    }
}

// How many bytes a line has without one carriage return at its end.
fn stripped_len(line: &[u8]) -> usize
    ensures text { take result line.now ≡ strip_carriage_return line.now }
    ensures within { result ≤ length line.now }
{
    match line {
        [.., CARRIAGE_RETURN] => line.len() - 1,
        _ => line.len(),
    }
}

// Takes bytes until a line feed is held, and answers its index. It answers none where the line is too
// long, whatever comes.
fn find_line_feed<S: Source>(intake: &mut Intake, source: &mut S) -> Result<Option<usize>, Stop>
    requires { intake.old.taken ≤ intake.old.limit }

    ensures found { IfOk result (λ found. MatchOption found
        (HasNoLineFeed intake.new.held × (LONGEST_HELD < length intake.new.held)) (IsLineEnd intake.new.held)) }
    ensures calm { OnOk result
        (IsCalm (S.tells source.old) (S.tells source.new) (S.faults source.old) (S.faults source.new)) }

    ensures in_line { IfErr result (λ _. HasNoLineFeed intake.new.held) }
    ensures stops { IfErr result (λ stop. IsStop stop intake.new.taken intake.new.limit
        (S.tells source.old) (S.tells source.new) (S.faults source.old) (S.faults source.new) (S.left source.new)) }

    ensures gains { intake.new.taken + length intake.old.held ≡ intake.old.taken + length intake.new.held }
    ensures none_lost { IsTrue (S.tells source.old) → IsTrue (S.tells source.new) →
        LosesNothing intake.old intake.new (S.left source.old) (S.left source.new) }
    ensures never_falls { S.faults source.old ≤ S.faults source.new }
    ensures within_limit { intake.new.taken ≤ intake.new.limit }
    ensures limit { intake.new.limit ≡ intake.old.limit }
{
    let mut scanned = 0;
    loop {
        if let Some(at) = line_feed_from(intake.held(), scanned) {
            return Ok(Some(at));
        }
        scanned = intake.held().len();
        if scanned > LONGEST_HELD {
            return Ok(None);
        }
        intake.fill(source)?;
    }
}

// The index of the first line feed, where there is none among the bytes that were scanned.
fn line_feed_from(held: &[u8], scanned: usize) -> Option<usize>
    requires within { scanned ≤ length held.now }
    requires in_line { HasNoLineFeed (take scanned held.now) }
    ensures { MatchOption result (HasNoLineFeed held.now) (IsLineEnd held.now) }
{
    let offset = memchr(LINE_FEED, &held[scanned..])?;
    Some(scanned + offset)
}

// Lets go of the rest of a line that is too long, with its line feed.
fn skip_line<S: Source>(intake: &mut Intake, source: &mut S) -> Result<(), Stop>
    requires within_limit { intake.old.taken ≤ intake.old.limit }
    requires in_line { HasNoLineFeed intake.old.held }
    requires long { LONGEST_HELD < length intake.old.held }

    ensures line { OnOk result (IsTrue (S.tells source.old) → TakesLongLine LONGEST_LINE
        (intake.old.held ++ S.left source.old) (intake.new.held ++ S.left source.new) None) }
    ensures calm { OnOk result
        (IsCalm (S.tells source.old) (S.tells source.new) (S.faults source.old) (S.faults source.new)) }

    ensures in_line { IfErr result (λ stop. IsTrue (S.tells source.old) → IsTrue (S.tells source.new) →
        SkipsTo LONGEST_HELD (intake.old.held ++ S.left source.old) (S.left source.new)) }
    ensures stops { IfErr result (λ stop. IsStop stop intake.new.taken intake.new.limit
        (S.tells source.old) (S.tells source.new) (S.faults source.old) (S.faults source.new) (S.left source.new)) }

    ensures ended { OnOk result (IsTrue (S.tells source.old) →
        ¬ HasNoLineFeed (intake.old.held ++ S.left source.old)) }
    ensures progress { intake.old.taken + length intake.new.held < intake.new.taken + length intake.old.held }
    ensures held_taken { length intake.new.held ≤ intake.new.taken }
    ensures counts { IsTrue (S.tells source.old) → IsTrue (S.tells source.new) →
        intake.new.taken + length (S.left source.new) ≡ intake.old.taken + length (S.left source.old) }
    ensures never_falls { S.faults source.old ≤ S.faults source.new }
    ensures within_limit { intake.new.taken ≤ intake.new.limit }
    ensures limit { intake.new.limit ≡ intake.old.limit }
{
    intake.advance(intake.held().len());
    loop {
        intake.fill(source)?;
        if let Some(at) = line_feed_from(intake.held(), 0) {
            intake.advance(at + 1);
            return Ok(());
        }
        intake.advance(intake.held().len());
    }
}

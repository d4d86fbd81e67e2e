//! Cuts what a source gives into lines.
ghost use Rattle.std.specs.Prelude.{◌≡◌, ℕ, ◌+◌, ◌<◌, ◌≤◌, List, [], ◌++◌, IsTrue, None, Some, IfSome, length};
ghost use Rattle.line_reader.specs.Lines.{lines, is_whole, HasNoLineFeed};

mod cutting;
mod intake;

use cutting::cut_line;
use intake::Intake;
use ports::Source;
use std::marker::Model;

/// The most bytes of a line, without its ending.
pub const LONGEST_LINE: usize = 4096;

/// What a reader of lines answers.
#[derive(Clone, Copy, Debug, PartialEq, Eq)]
pub enum Line {
    /// A line of at most 4096 bytes: `text` has it.
    Text,
    /// A line of more than 4096 bytes, which is passed over.
    Long,
    /// There is no line any more.
    End,
    /// The source has failed.
    Fault,
    /// As many bytes were taken as may be, and more are needed.
    Limit,
}

/// Reads a source line by line, in a buffer of its own.
///
/// A line ends at a line feed or at the end of the input. A last line with no bytes is no line. One
/// carriage return directly before the line feed or the end is dropped.
#[derive(Drop)]
pub struct LineReader {
    intake: Intake,
    // How many bytes at the front of the intake the last line took, with its ending.
    used: usize,
    text_len: usize,
    stopped: Option<Line>,
}

impl Model for LineReader {
    ghost use Rattle.std.specs.Prelude.{◌≤◌, take, drop, length};
    ghost use Rattle.line_reader.specs.Reader.{ReaderState, IsStopped};

    ghost Value = { ReaderState };

    ghost view = { λ r. record {
      text = take r.text_len r.intake.held;
      pending = drop r.used r.intake.held;
      taken = r.intake.taken;
      limit = r.intake.limit;
      stopped = r.stopped;
    } };

    ghost invariant = { λ r. (r.text_len ≤ r.used) × (r.used ≤ length r.intake.held)
        × (r.intake.taken ≤ r.intake.limit) × (length r.intake.held ≤ r.intake.taken) × IsStopped r.stopped };
}

impl LineReader {
    ghost use Rattle.line_reader.specs.Reader.{to_come, StopsAfter, Cuts, IsLine, StopsInLine, SeesEnd, LeavesSource};

    /// A reader that takes at most `limit` bytes in all.
    pub fn new(limit: u64) -> LineReader
        ensures { result ≡ record { text = []; pending = []; taken = 0; limit = limit; stopped = None } }
    {
        LineReader {
            intake: Intake::new(limit),
            used: 0,
            text_len: 0,
            stopped: None,
        }
    }

    /// The text of the last line, where the last answer was [`Line::Text`].
    pub fn text(&self) -> &[u8]
        ensures { result.now ≡ self.now.text }
    {
        &self.intake.held()[..self.text_len]
    }

    /// The bytes that were taken and belong to no line that was given yet.
    pub fn ahead(&self) -> &[u8]
        ensures { result.now ≡ self.now.pending }
    {
        &self.intake.held()[self.used..]
    }

    /// How many bytes were taken in all.
    pub fn taken(&self) -> u64
        ensures { result ≡ self.now.taken }
    {
        self.intake.taken()
    }

    /// The next line.
    ///
    /// After [`Line::End`], [`Line::Fault`] and [`Line::Limit`] the reader gives the same again, and
    /// does not call the source. Where the source tells what it has left, the bytes that are still to
    /// be cut are those that are pending here and those that it has left.
    pub fn next_line<S: Source>(&mut self, source: &mut S) -> Line
        ensures sticky { IfSome self.old.stopped (λ answer.
            (result ≡ answer) × (self.new ≡ self.old) × (source.new ≡ source.old)) }
        ensures stops { StopsAfter result self.new.stopped }

        // The next line is taken off what is to come. The end comes only where nothing is.
        ensures line { IsTrue (S.tells source.old) → Cuts 4096 result
            (to_come self.old (S.left source.old)) self.new.text (to_come self.new (S.left source.new))
            self.new.stopped }
        ensures short { result ≡ Line.Text → length self.new.text ≤ 4096 }

        // A fault comes only from the source, and each fault of the source is answered.
        ensures source { self.old.stopped ≡ None → LeavesSource result
            (S.tells source.old) (S.tells source.new) (S.faults source.old) (S.faults source.new) }
        ensures never_falls { S.faults source.old ≤ S.faults source.new }
        ensures in_line { self.old.stopped ≡ None → IsTrue (S.tells source.old) → StopsInLine result
            (to_come self.old (S.left source.old)) (S.tells source.new) (S.left source.new) }

        // Each line uses up a byte that was taken.
        ensures progress { IsLine result →
            self.old.taken + length self.new.pending < self.new.taken + length self.old.pending }
        ensures pending_taken { length self.new.pending ≤ self.new.taken }

        // The limit comes exactly where as many bytes were taken, and the end of the line or of the
        // input was not among them.
        ensures limit_only { result ≡ Line.Limit → self.old.stopped ≡ None → self.new.taken ≡ self.new.limit }
        ensures end_seen { self.old.stopped ≡ None → IsTrue (S.tells source.old) →
            HasNoLineFeed (to_come self.old (S.left source.old)) → SeesEnd result self.new.taken self.new.limit }

        // The end was seen below the limit, and nothing is left then.
        ensures at_end { self.old.stopped ≡ None → self.new.stopped ≡ Some Line.End →
            (self.new.taken < self.new.limit) × (IsTrue (S.tells source.old) → S.left source.new ≡ []) }

        ensures counts { IsTrue (S.tells source.old) → IsTrue (S.tells source.new) →
            self.new.taken + length (S.left source.new) ≡ self.old.taken + length (S.left source.old) }
        ensures within_limit { self.new.taken ≤ self.new.limit }
        ensures limit { self.new.limit ≡ self.old.limit }
    {
        if let Some(answer) = self.stopped {
            return answer;
        }
        self.intake.advance(self.used);
        let cut = cut_line(&mut self.intake, source);
        self.used = cut.used;
        self.text_len = cut.text_len;
        self.stopped = cut.stopped;
        cut.answer
    }
}

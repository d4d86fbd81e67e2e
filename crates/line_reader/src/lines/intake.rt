//! The buffer between a source and its lines.
ghost use Rattle.std.specs.Prelude.{◌≡◌, ◌+◌, ◌<◌, ◌≤◌, [], ◌++◌, IsTrue, length, take, drop, IfOk, IfErr, OnOk, OnErr};
ghost use Rattle.ports.specs.Count.{Rose};

use ports::{Failed, Source};
use std::marker::Model;

/// The most bytes that are held where more are taken: a line that is not too long, without its line feed.
pub const LONGEST_HELD: usize = super::LONGEST_LINE + 1;

const ROOM: usize = 8 * 1024;

const CAPACITY: usize = 17 * 1024;

/// Why no more bytes come.
#[derive(Clone, Copy)]
pub enum Stop {
    End,
    Fault,
    Limit,
}

/// Holds bytes that were taken and not let go yet, and counts those that were taken.
#[derive(Drop)]
pub struct Intake {
    buffer: [u8; CAPACITY],
    start: usize,
    end: usize,
    taken: u64,
    limit: u64,
}

impl Model for Intake {
    ghost use Rattle.std.specs.Prelude.{◌≤◌, ◌-◌, ◌^◌, ◌<◌, take, drop};
    ghost use Rattle.line_reader.specs.Intake.{IntakeState};

    ghost Value = { IntakeState };

    ghost view = { λ i. record {
      held = drop i.start (take i.end i.buffer);
      room = 17408 - i.end;
      taken = i.taken;
      limit = i.limit;
    } };

    ghost invariant = { λ i. (i.start ≤ i.end) × (i.end ≤ 17408) × (i.taken ≤ i.limit) × (i.limit < 2 ^ 64) };
}

impl Intake {
    ghost use Rattle.line_reader.specs.Intake.{LosesNothing, IsStop};
    ghost use Rattle.line_reader.specs.Reader.{IsCalm};

    pub fn new(limit: u64) -> Intake
        ensures held { result.held ≡ [] }
        ensures taken { result.taken ≡ 0 }
        ensures limit { result.limit ≡ limit }
    {
        Intake {
            buffer: [0; CAPACITY],
            start: 0,
            end: 0,
            taken: 0,
            limit,
        }
    }

    pub fn held(&self) -> &[u8]
        ensures { result.now ≡ self.now.held }
    {
        &self.buffer[self.start..self.end]
    }

    pub fn taken(&self) -> u64
        ensures { result ≡ self.now.taken }
    {
        self.taken
    }

    /// Lets go of the first `count` bytes.
    pub fn advance(&mut self, count: usize)
        requires { count ≤ length self.old.held }
        ensures { self.new ≡ record self.old { held = drop count self.old.held } }
    {
        self.start += count;
    }

    /// Takes more bytes, as many as come and as there is room for.
    pub fn fill<S: Source>(&mut self, source: &mut S) -> Result<(), Stop>
        requires short { length self.old.held ≤ LONGEST_HELD }
        requires within_limit { self.old.taken ≤ self.old.limit }

        ensures more { OnOk result (self.old.taken < self.new.taken) }
        ensures calm { OnOk result
            (IsCalm (S.tells source.old) (S.tells source.new) (S.faults source.old) (S.faults source.new)) }
        ensures kept { take (length self.old.held) self.new.held ≡ self.old.held }

        ensures same { OnErr result (self.new.held ≡ self.old.held) }
        ensures stops { IfErr result (λ stop. IsStop stop self.new.taken self.new.limit
            (S.tells source.old) (S.tells source.new) (S.faults source.old) (S.faults source.new) (S.left source.new)) }

        ensures gains { self.new.taken + length self.old.held ≡ self.old.taken + length self.new.held }
        ensures none_lost { IsTrue (S.tells source.old) → IsTrue (S.tells source.new) →
            LosesNothing self.old self.new (S.left source.old) (S.left source.new) }
        ensures never_falls { S.faults source.old ≤ S.faults source.new }
        ensures within_limit { self.new.taken ≤ self.new.limit }
        ensures limit { self.new.limit ≡ self.old.limit }
    {
        if self.taken == self.limit {
            return Err(Stop::Limit);
        }
        self.make_room();
        self.take_more(source)
    }

    // Moves what is held to the front of the buffer, where there is not much room behind it.
    fn make_room(&mut self)
        requires { length self.old.held ≤ LONGEST_HELD }
        ensures room { 0 < self.new.room }
        ensures held { self.new.held ≡ self.old.held }
        ensures taken { self.new.taken ≡ self.old.taken }
        ensures limit { self.new.limit ≡ self.old.limit }
    {
        if CAPACITY - self.end < ROOM {
            let len = self.end - self.start;
            move_to_front(&mut self.buffer, self.start, len);
            self.start = 0;
            self.end = len;
        }
    }

    fn take_more<S: Source>(&mut self, source: &mut S) -> Result<(), Stop>
        requires room { 0 < self.old.room }
        requires below_limit { self.old.taken < self.old.limit }

        ensures more { OnOk result (self.old.taken < self.new.taken) }
        ensures calm { OnOk result
            (IsCalm (S.tells source.old) (S.tells source.new) (S.faults source.old) (S.faults source.new)) }
        ensures kept { take (length self.old.held) self.new.held ≡ self.old.held }

        ensures same { OnErr result (self.new.held ≡ self.old.held) }
        ensures stops { IfErr result (λ stop. IsStop stop self.new.taken self.new.limit
            (S.tells source.old) (S.tells source.new) (S.faults source.old) (S.faults source.new) (S.left source.new)) }

        ensures gains { self.new.taken + length self.old.held ≡ self.old.taken + length self.new.held }
        ensures none_lost { IsTrue (S.tells source.old) → IsTrue (S.tells source.new) →
            LosesNothing self.old self.new (S.left source.old) (S.left source.new) }
        ensures never_falls { S.faults source.old ≤ S.faults source.new }
        ensures within_limit { self.new.taken ≤ self.new.limit }
        ensures limit { self.new.limit ≡ self.old.limit }
    {
        let room = (CAPACITY - self.end) as u64;
        let most = room.min(self.limit - self.taken) as usize;
        match take_at(source, &mut self.buffer, self.end, most) {
            Ok(0) => Err(Stop::End),
            Ok(count) => {
                self.end += count;
                self.taken += count as u64;
                Ok(())
            }
            Err(Failed) => Err(Stop::Fault),
        }
    }
}

// Moves `len` bytes from `start` to the front. The two places do not overlap.
fn move_to_front(buffer: &mut [u8], start: usize, len: usize)
    requires apart { len ≤ start }
    requires fits { start + len ≤ length buffer.old }
    ensures { take len buffer.new ≡ drop start (take (start + len) buffer.old) }
{
    let (front, back) = buffer.split_at_mut(start);
    front[..len].copy_from_slice(&back[..len]);
}

// Takes at most `most` bytes into the buffer at `at`.
fn take_at<S: Source>(
    source: &mut S,
    buffer: &mut [u8],
    at: usize,
    most: usize,
) -> Result<usize, Failed>
    requires some { 0 < most }
    requires fits { at + most ≤ length buffer.old }

    ensures bound { IfOk result (λ n. n ≤ most) }
    ensures front { take at buffer.new ≡ take at buffer.old }
    ensures still_tells { OnOk result (IsTrue (S.tells source.old) → IsTrue (S.tells source.new)) }
    ensures taken { IfOk result (λ n. IsTrue (S.tells source.old) →
        S.left source.old ≡ drop at (take (at + n) buffer.new) ++ S.left source.new) }
    ensures end { IfOk result (λ n. n ≡ 0 → IsTrue (S.tells source.old) → S.left source.old ≡ []) }

    ensures lost_nothing { OnErr result
        (IsTrue (S.tells source.old) → IsTrue (S.tells source.new) → S.left source.new ≡ S.left source.old) }

    ensures failed_only { OnErr result (Rose (S.faults source.old) (S.faults source.new)) }
    ensures no_fault { OnOk result (S.faults source.new ≡ S.faults source.old) }
    ensures never_falls { S.faults source.old ≤ S.faults source.new }
{
    source.take(&mut buffer[at..at + most])
}

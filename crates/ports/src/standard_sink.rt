//! A sink over the standard library's writers.
ghost use Rattle.std.specs.Prelude.{◌≡◌, ◌≤◌, [], is_some, unwrap_or, length, take};
ghost use Rattle.std.specs.Io.KnownBytes.{Appends};

use crate::count::raised;
use crate::streams::{Failed, Sink};
use std::io::{ErrorKind, Write};

/// Writes to a writer. It tells the bytes that were written where the writer's contract knows them.
#[derive(Drop)]
pub struct StdSink<W: Write> {
    inner: W,
    faults: u64,
}

impl<W: Write> StdSink<W> {
    /// A sink over `inner` that has not failed yet.
    pub fn new(inner: W) -> StdSink<W>
        ensures tells { ⟦<StdSink<W> as Sink>⟧.tells result ≡ is_some (W.contents inner) }
        ensures written { ⟦<StdSink<W> as Sink>⟧.written result ≡ unwrap_or (W.contents inner) [] }
        ensures faults { ⟦<StdSink<W> as Sink>⟧.faults result ≡ 0 }
    {
        StdSink { inner, faults: 0 }
    }

    /// How often the sink has failed.
    pub fn faults(&self) -> u64
        ensures { result ≡ ⟦<StdSink<W> as Sink>⟧.faults self.now }
    {
        self.faults
    }
}

impl<W: Write> Sink for StdSink<W> {
    ghost tells = { λ s. is_some (W.contents s.inner) };

    ghost written = { λ s. unwrap_or (W.contents s.inner) [] };

    ghost faults = { λ s. s.faults };

    // The loop is over `write`, because `write_all` does not say what it wrote before it failed. A
    // write that a signal interrupted is tried again. A buffering writer is emptied at the end.
    fn put(&mut self, piece: &[u8]) -> Result<(), Failed> {
        let written = write_up_to_fault(&mut self.inner, piece);
        if written == piece.len() && self.inner.flush().is_ok() {
            return Ok(());
        }
        self.faults = raised(self.faults);
        Err(Failed)
    }
}

// Writes the bytes of `piece` in order, up to the end or a fault, and answers how many were written.
// A writer that takes nothing has failed.
fn write_up_to_fault<W: Write>(writer: &mut W, piece: &[u8]) -> usize
    ensures bound { result ≤ length piece.now }
    ensures bytes { Appends (W.contents writer.old) (W.contents writer.new) (take result piece.now) }
{
    let mut written = 0;
    while written < piece.len() {
        let count = write_some(writer, &piece[written..]);
        if count == 0 {
            break;
        }
        written += count;
    }
    written
}

// One write, tried again where a signal interrupts it. It answers how many bytes were written, 0 at a fault.
fn write_some<W: Write>(writer: &mut W, piece: &[u8]) -> usize
    ensures bound { result ≤ length piece.now }
    ensures bytes { Appends (W.contents writer.old) (W.contents writer.new) (take result piece.now) }
{
    for _ in 0..u64::MAX {
        match writer.write(piece) {
            Ok(count) => return count,
            Err(error) if error.kind() == ErrorKind::Interrupted => {}
            Err(_) => break,
        }
    }
    0
}

//! A source over the standard library's readers.
ghost use Rattle.std.specs.Prelude.{◌≡◌, ◌<◌, ◌≤◌, [], is_some, unwrap_or, length, take, IfSome, IfNone};
ghost use Rattle.std.specs.Io.KnownBytes.{Consumes, IsAtEnd, Keeps};

use crate::count::raised;
use crate::streams::{Failed, Source};
use std::io::{ErrorKind, Read};

/// Takes from a reader. It tells the bytes that are left where the reader's contract knows them.
#[derive(Drop)]
pub struct StdSource<R: Read> {
    inner: R,
    faults: u64,
}

impl<R: Read> StdSource<R> {
    /// A source over `inner` that has not failed yet.
    pub fn new(inner: R) -> StdSource<R>
        ensures tells { ⟦<StdSource<R> as Source>⟧.tells result ≡ is_some (R.remaining inner) }
        ensures left { ⟦<StdSource<R> as Source>⟧.left result ≡ unwrap_or (R.remaining inner) [] }
        ensures faults { ⟦<StdSource<R> as Source>⟧.faults result ≡ 0 }
    {
        StdSource { inner, faults: 0 }
    }

    /// How often the source has failed.
    pub fn faults(&self) -> u64
        ensures { result ≡ ⟦<StdSource<R> as Source>⟧.faults self.now }
    {
        self.faults
    }
}

impl<R: Read> Source for StdSource<R> {
    ghost tells = { λ s. is_some (R.remaining s.inner) };

    ghost left = { λ s. unwrap_or (R.remaining s.inner) [] };

    ghost faults = { λ s. s.faults };

    fn take(&mut self, buf: &mut [u8]) -> Result<usize, Failed> {
        match read_retrying(&mut self.inner, buf) {
            Some(count) => Ok(count),
            None => {
                self.faults = raised(self.faults);
                Err(Failed)
            }
        }
    }
}

// One read. Where a signal interrupted it, it is no fault and is tried again.
fn read_retrying<R: Read>(reader: &mut R, buf: &mut [u8]) -> Option<usize>
    requires { 0 < length buf.old }
    ensures bound { IfSome result (λ n. n ≤ length buf.new) }
    ensures taken { IfSome result (λ n. Consumes (R.remaining reader.old) (R.remaining reader.new) (take n buf.new)) }
    ensures end { IfSome result (λ n. n ≡ 0 → IsAtEnd (R.remaining reader.new)) }
    ensures lost_nothing { IfNone result (Keeps (R.remaining reader.old) (R.remaining reader.new)) }
{
    for _ in 0..u64::MAX {
        match reader.read(buf) {
            Ok(count) => return Some(count),
            Err(error) if error.kind() == ErrorKind::Interrupted => {}
            Err(_) => break,
        }
    }
    None
}

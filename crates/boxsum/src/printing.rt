//! The one line that a command prints.
ghost use Rattle.std.specs.Prelude.{◌≢◌};
ghost use Rattle.boxsum.specs.Printing.{PutsLine};

use crate::status::Status;
use ports::Sink;

/// Puts a line. The status is by that.
pub(crate) fn put_line<K: Sink>(line: &[u8], sink: &mut K) -> Status
    ensures puts { PutsLine K.Sink sink.old sink.new line.now result }
    ensures memory { result ≢ Status.NoMemory }
{
    match sink.put(line) {
        Ok(()) => Status::Fine,
        Err(_) => Status::WriteFault,
    }
}

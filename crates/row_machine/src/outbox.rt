//! Replies that are gathered, so that several are put together.
ghost use Rattle.std.specs.Prelude.{◌≡◌, ◌++◌, ◌≤◌, [], false, IsTrue, OnOk, OnErr};
ghost use Rattle.ports.specs.Count.{Rose};
ghost use Rattle.csv_rows.specs.Machine.{replied};
ghost use Rattle.row_machine.specs.Housed.{IsVersion};
ghost use Rattle.ports.specs.Written.{WritesPart};

use csv_rows::Reply;
use ports::{Failed, Sink};
use std::alloc::Global;

/// There was no memory.
#[derive(Clone, Copy, Debug, PartialEq, Eq)]
pub(crate) struct NoMemory;

/// The text of replies that are not put yet.
#[derive(Drop)]
pub(crate) struct Outbox {
    pub(crate) text: Vec<u8>,
    // A version is among them, which a caller waits for.
    pub(crate) is_urgent: bool,
}

impl Outbox {
    ghost use Rattle.row_machine.specs.Outbox.{gathered};

    /// An outbox without replies.
    pub(crate) fn new(alloc: Global) -> Outbox
        ensures empty { gathered result ≡ [] }
        ensures calm { result.is_urgent ≡ false }
    {
        Outbox {
            text: Vec::new(alloc),
            is_urgent: false,
        }
    }

    /// Gathers the text of a reply, and nothing where there is none.
    pub(crate) fn gather(&mut self, alloc: Global, reply: Option<Reply>) -> Result<(), NoMemory>
        ensures ok { OnOk result (gathered self.new ≡ gathered self.old ++ replied reply) }
        ensures err { OnErr result (gathered self.new ≡ gathered self.old) }
        ensures urgent { OnOk result (self.new.is_urgent ≡ false → (self.old.is_urgent ≡ false) × (IsVersion reply → ⊥)) }
    {
        let Some(reply) = reply else {
            return Ok(());
        };
        let Ok(text) = format!(in alloc; "{reply}") else {
            return Err(NoMemory);
        };
        if self.text.extend_from_slice(text.as_bytes()).is_err() {
            return Err(NoMemory);
        }
        self.is_urgent |= matches!(reply, Reply::Version { .. });
        Ok(())
    }

    /// Whether the replies are to be put before the next line is looked for: where a version is among
    /// them, and where more bytes have to be taken for that line, since somebody may wait for an answer
    /// before the source gives more.
    pub(crate) fn is_due(&self, ahead: &[u8]) -> bool
        ensures { result ≡ false → self.now.is_urgent ≡ false }
    {
        self.is_urgent || !ahead.contains(&b'\n')
    }

    /// Puts the replies. The sink is not called where there are none.
    pub(crate) fn put<K: Sink>(&mut self, sink: &mut K) -> Result<(), Failed>
        ensures empty { OnOk result (gathered self.new ≡ []) }
        ensures wrote { OnOk result (IsTrue (K.tells sink.old) → K.written sink.new ≡ K.written sink.old ++ gathered self.old) }
        ensures tells { OnOk result (IsTrue (K.tells sink.old) → IsTrue (K.tells sink.new)) }
        ensures calm { OnOk result (K.faults sink.new ≡ K.faults sink.old) }
        ensures part { OnErr result (IsTrue (K.tells sink.old) → IsTrue (K.tells sink.new)
            → WritesPart (K.written sink.old) (K.written sink.new) (gathered self.old)) }
        ensures failed { OnErr result (Rose (K.faults sink.old) (K.faults sink.new)) }
    {
        if self.text.is_empty() {
            return Ok(());
        }
        match sink.put(&self.text) {
            Ok(()) => {
                self.text.clear();
                self.is_urgent = false;
                Ok(())
            }
            Err(failed) => Err(failed),
        }
    }
}

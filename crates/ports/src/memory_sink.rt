//! A sink in memory.
ghost use Rattle.std.specs.Prelude.{◌≡◌, ◌==◌, ◌++◌, ◌≤◌, IsTrue, OnOk, OnErr, [], is_err};
ghost use Rattle.std.specs.List.{list_any};
ghost use Rattle.ports.specs.Count.{raised};

use crate::streams::{Failed, Sink};
use std::alloc::Global;
use std::marker::Model;

/// Keeps the bytes in memory, and fails at chosen calls. It tells everything.
#[derive(Drop)]
pub struct MemSink {
    bytes: Vec<u8>,
    failing: Vec<u64>,
    calls: u64,
    faults: u64,
}

impl Model for MemSink {
    ghost use Rattle.ports.specs.Memory.{SinkState};

    ghost Value = { SinkState };

    ghost view = { λ s. record {
      written = s.bytes.items;
      failing = s.failing.items;
      calls = s.calls;
      faults = s.faults;
    } };
}

impl MemSink {
    /// A sink with nothing written, which fails at the calls whose numbers, from 1, stand in
    /// `failing`.
    pub fn new(alloc: Global, failing: Vec<u64>) -> MemSink
        ensures { result ≡ record {
          written = [];
          failing = failing.items;
          calls = 0;
          faults = 0;
        } }
    {
        MemSink {
            bytes: Vec::new(alloc),
            failing,
            calls: 0,
            faults: 0,
        }
    }

    /// The bytes that have been written.
    pub fn bytes(&self) -> &[u8]
        ensures { result.now ≡ self.now.written }
    {
        self.bytes.as_slice()
    }

    /// How often the sink has failed.
    pub fn faults(&self) -> u64
        ensures { result ≡ self.now.faults }
    {
        self.faults
    }
}

impl Sink for MemSink {
    ghost use Rattle.std.specs.Prelude.{true};

    ghost tells = { λ _. true };

    ghost written = { λ s. s.written };

    ghost faults = { λ s. s.faults };

    /// Call number `calls` fails where `failing` holds it, and where it finds no memory. A call that
    /// fails writes nothing.
    fn put(&mut self, piece: &[u8]) -> Result<(), Failed>
        ensures fails { IsTrue (list_any (λ call. call == self.new.calls) self.old.failing) → IsTrue (is_err result) }
        ensures appended { OnOk result (self.new.written ≡ self.old.written ++ piece.now) }
        ensures no_fault { OnOk result (self.new.faults ≡ self.old.faults) }

        ensures unwritten { OnErr result (self.new.written ≡ self.old.written) }
        ensures fault { OnErr result (self.new.faults ≡ raised self.old.faults) }
        ensures never_falls { self.old.faults ≤ self.new.faults }

        ensures calls { self.new.calls ≡ raised self.old.calls }
        ensures failing { self.new.failing ≡ self.old.failing }
    {
        self.calls = crate::raised(self.calls);
        let fails = self.failing.as_slice().contains(&self.calls);
        if fails || self.bytes.extend_from_slice(piece).is_err() {
            self.faults = crate::raised(self.faults);
            return Err(Failed);
        }
        Ok(())
    }
}

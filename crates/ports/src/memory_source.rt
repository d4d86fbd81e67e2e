//! A source in memory.
ghost use Rattle.std.specs.Prelude.{◌≡◌, ◌==◌, ◌++◌, ◌<◌, ◌≤◌, [], min, length, take, IfOk, OnOk, OnErr, is_err};
ghost use Rattle.std.specs.List.{list_any};
ghost use Rattle.ports.specs.Count.{raised};

use crate::streams::{Failed, Source};
use std::marker::Model;

/// Gives bytes out of memory, and fails at chosen calls. It tells everything.
#[derive(Drop)]
pub struct MemSource {
    bytes: Vec<u8>,
    at: usize,
    piece: usize,
    failing: Vec<u64>,
    calls: u64,
    faults: u64,
}

impl Model for MemSource {
    ghost use Rattle.std.specs.Prelude.{◌≤◌, ◌<◌, drop, length};
    ghost use Rattle.ports.specs.Memory.{SourceState};

    ghost Value = { SourceState };

    ghost view = { λ s. record {
      left = drop s.at s.bytes.items;
      most = s.piece;
      failing = s.failing.items;
      calls = s.calls;
      faults = s.faults;
    } };

    ghost invariant = { λ s. (s.at ≤ length s.bytes.items) × (0 < s.piece) };
}

impl MemSource {
    /// A source of `bytes` that gives at most `piece` bytes a call, and fails at the calls whose
    /// numbers, from 1, stand in `failing`.
    pub fn new(bytes: Vec<u8>, piece: usize, failing: Vec<u64>) -> MemSource
        requires { 0 < piece }
        ensures { result ≡ record {
          left = bytes.items;
          most = piece;
          failing = failing.items;
          calls = 0;
          faults = 0;
        } }
    {
        MemSource {
            bytes,
            at: 0,
            piece,
            failing,
            calls: 0,
            faults: 0,
        }
    }

    /// How often the source has failed.
    pub fn faults(&self) -> u64
        ensures { result ≡ self.now.faults }
    {
        self.faults
    }
}

impl Source for MemSource {
    ghost use Rattle.std.specs.Prelude.{true};

    ghost tells = { λ _. true };

    ghost left = { λ s. s.left };

    ghost faults = { λ s. s.faults };

    /// Call number `calls` fails exactly where `failing` holds it. A call that does not fail gives as
    /// many bytes as there are, as there is room for, and as a piece may have.
    fn take(&mut self, buf: &mut [u8]) -> Result<usize, Failed>
        requires { 0 < length buf.old }

        ensures fails { is_err result ≡ list_any (λ call. call == self.new.calls) self.old.failing }
        ensures count { IfOk result (λ n.
            n ≡ min self.old.most (min (length buf.new) (length self.old.left))) }
        ensures taken { IfOk result (λ n. self.old.left ≡ take n buf.new ++ self.new.left) }
        ensures end { IfOk result (λ n. n ≡ 0 → self.old.left ≡ []) }
        ensures no_fault { OnOk result (self.new.faults ≡ self.old.faults) }

        ensures lost_nothing { OnErr result (self.new.left ≡ self.old.left) }
        ensures fault { OnErr result (self.new.faults ≡ raised self.old.faults) }
        ensures never_falls { self.old.faults ≤ self.new.faults }

        ensures calls { self.new.calls ≡ raised self.old.calls }
        ensures most { self.new.most ≡ self.old.most }
        ensures failing { self.new.failing ≡ self.old.failing }
    {
        self.calls = crate::raised(self.calls);
        if self.failing.as_slice().contains(&self.calls) {
            self.faults = crate::raised(self.faults);
            return Err(Failed);
        }
        let rest = &self.bytes.as_slice()[self.at..];
        let count = self.piece.min(buf.len()).min(rest.len());
        copy_front(buf, rest, count);
        self.at += count;
        Ok(count)
    }
}

// Copies the first `count` bytes.
fn copy_front(to: &mut [u8], from: &[u8], count: usize)
    requires to_fits { count ≤ length to.old }
    requires from_has { count ≤ length from.now }
    ensures { take count to.new ≡ take count from.now }
{
    to[..count].copy_from_slice(&from[..count]);
}

//! A source in memory.
ghost use Rattle.std.specs.Prelude.{◌≡◌, ◌<◌, ◌≤◌, Some, length};
ghost use Rattle.std.specs.Io.{ReadsAtMost};
ghost use Rattle.std.specs.Io.KnownBytes.{ReadConsumes};
ghost use Rattle.td_outside.specs.Causes.{HasCause, RaisesGiven};
ghost use Rattle.td_memdev.specs.Memory.{ReadsAsListed};

use std::marker::Model;
use td_layer::Seq;
use td_outside::{Failed, Source};

/// Bytes in memory, given out in pieces of at most `most`.
#[derive(Drop)]
pub struct MemSource {
    bytes: Seq<u8>,
    at: usize,
    most: usize,
    given: u64,
    calls: u64,
    fails: Seq<u64>,
    faults: u64,
}

impl Model for MemSource {
    ghost use Rattle.std.specs.Prelude.{◌<◌, ◌≤◌, length, drop};
    ghost use Rattle.td_memdev.specs.Memory.{Feed};

    ghost Value = { Feed };

    ghost view = { λ s. record {
      left = drop s.at s.bytes;
      most = s.most;
      given = s.given;
      calls = s.calls;
      fails = s.fails;
      faults = s.faults;
    } };

    ghost invariant = { λ s. (s.at ≤ length s.bytes) × (0 < s.most) };
}

impl MemSource {
    /// A source of these bytes, which gives at most `most` a call. `fails` lists the calls that fail, from 1.
    pub fn new(bytes: Seq<u8>, most: usize, fails: Seq<u64>) -> MemSource
        requires { 0 < most }
        ensures { result ≡ record { left = bytes; most = most; given = 0; calls = 0; fails = fails; faults = 0 } }
    {
        MemSource {
            bytes,
            at: 0,
            most,
            given: 0,
            calls: 0,
            fails,
            faults: 0,
        }
    }
}

impl Source for MemSource {
    ghost left = { λ s. Some s.left };

    ghost given = { λ s. s.given };

    ghost count = { λ s. s.faults };

    /// Fails exactly where the list names the call; else gives as many bytes as are left, fit and may come at once.
    fn read(&mut self, buf: &mut [u8]) -> Result<usize, Failed>
        ensures bound { ReadsAtMost result buf.new }
        ensures bytes { ReadConsumes (Some self.old.left) (Some self.new.left) result buf.new }
        ensures given { RaisesGiven self.old.given self.new.given result }
        ensures cause { HasCause self.old.faults self.new.faults result }
        ensures listed { ReadsAsListed self.old self.new (length buf.new) result }
    {
        self.calls = self.calls.saturating_add(1);
        if self.fails.as_slice().contains(&self.calls) {
            self.faults = self.faults.saturating_add(1);
            return Err(Failed);
        }
        let rest = &self.bytes.as_slice()[self.at..];
        let count = rest.len().min(buf.len()).min(self.most);
        buf[..count].copy_from_slice(&rest[..count]);
        self.at += count;
        self.given = self.given.saturating_add(count as u64);
        Ok(count)
    }

    fn faults(&self) -> u64 {
        self.faults
    }
}

//! A sink in memory.
ghost use Rattle.std.specs.Prelude.{◌≡◌, ◌<◌, ◌≤◌, [], Some, length, IfOk};
ghost use Rattle.std.specs.Io.KnownBytes.{WriteAppends};
ghost use Rattle.td_outside.specs.Causes.{HasCause, TakesSome};
ghost use Rattle.td_memdev.specs.Memory.{WritesAsListed};

use std::alloc::Global;
use std::marker::Model;
use td_layer::{NoMem, Seq};
use td_outside::{Failed, Sink};

/// Bytes written to memory, of which `most` are taken at once, and `room` in all.
#[derive(Drop)]
pub struct MemSink {
    bytes: Vec<u8>,
    room: usize,
    most: usize,
    calls: u64,
    fails: Seq<u64>,
    faults: u64,
}

impl Model for MemSink {
    ghost use Rattle.std.specs.Prelude.{◌<◌, ◌≤◌, ◌-◌, length, vec_len, vec_capacity};
    ghost use Rattle.td_memdev.specs.Memory.{Page};

    ghost Value = { Page };

    ghost view = { λ s. record {
      written = s.bytes.items;
      room = s.room - vec_len s.bytes;
      most = s.most;
      calls = s.calls;
      fails = s.fails;
      faults = s.faults;
    } };

    ghost invariant = { λ s. (vec_len s.bytes ≤ s.room) × ((s.room ≤ vec_capacity s.bytes) × (0 < s.most)) };
}

impl MemSink {
    /// A sink with room for `room` bytes, which takes at most `most` a call. `fails` lists the calls that fail, from 1.
    /// It takes all its memory here.
    pub fn new(alloc: Global, room: usize, most: usize, fails: Seq<u64>) -> Result<MemSink, NoMem>
        requires { 0 < most }
        ensures { IfOk result (λ s. s ≡ record {
          written = [];
          room = room;
          most = most;
          calls = 0;
          fails = fails;
          faults = 0;
        }) }
    {
        let bytes = Vec::with_capacity(alloc, room)?;
        Ok(MemSink {
            bytes,
            room,
            most,
            calls: 0,
            fails,
            faults: 0,
        })
    }

    /// The bytes that were written.
    pub fn bytes(&self) -> &[u8]
        ensures { result.now ≡ self.now.written }
    {
        self.bytes.as_slice()
    }
}

impl Sink for MemSink {
    ghost written = { λ s. Some s.written };

    ghost count = { λ s. s.faults };

    /// Fails exactly where the list names the call, or where a piece that isn't empty meets no room; else takes as many
    /// bytes as there are, fit and may be taken at once.
    fn write(&mut self, bytes: &[u8]) -> Result<usize, Failed>
        ensures bound { TakesSome result bytes.now }
        ensures bytes { WriteAppends (Some self.old.written) (Some self.new.written) result bytes.now }
        ensures cause { HasCause self.old.faults self.new.faults result }
        ensures listed { WritesAsListed self.old self.new (length bytes.now) result }
    {
        self.calls = self.calls.saturating_add(1);
        let count = bytes.len().min(self.most).min(self.room - self.bytes.len());
        if self.fails.as_slice().contains(&self.calls) || (count == 0 && !bytes.is_empty()) {
            self.faults = self.faults.saturating_add(1);
            return Err(Failed);
        }
        match self.bytes.extend_from_slice(&bytes[..count]) {
            Ok(()) => Ok(count),
            Err(_) => unreachable!(),
        }
    }

    fn faults(&self) -> u64 {
        self.faults
    }
}

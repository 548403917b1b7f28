//! A reader and a writer in memory.
ghost use Rattle.std.specs.Prelude.{◌≡◌, ◌+◌, ◌-◌, ◌<◌, ◌≤◌, ◌++◌, min, length, Some, IfSome, IfOk, OnOk, OnErr, IsErrOf, is_err};
ghost use Rattle.td_outside.specs.Causes.{HasCause, HasFault};
ghost use Rattle.td_outside.specs.Files.{ReadsWithin, ReadsAt};
ghost use Rattle.td_outside.specs.Image.{Becomes};
ghost use Rattle.td_outside.specs.declared.faults.IoFault.TheVariants as io_fault;
ghost use Rattle.td_memdev.specs.Track.{IsAsListed, FailsAsListed};

use crate::calls::Calls;
use std::alloc::Global;
use std::marker::Model;
use td_layer::Seq;
use td_outside::{Failed, IoFault, Reader, Writer};

/// A reader in memory, with a copy of its file's bytes. It is spent by closing it.
pub struct MemReader {
    pub(crate) number: u64,
    pub(crate) bytes: Seq<u8>,
    pub(crate) calls: Calls,
}

impl Model for MemReader {
    ghost use Rattle.td_memdev.specs.Handles.{Reading};

    ghost Value = { Reading };

    ghost view = { λ r. record { number = r.number; bytes = r.bytes; track = r.calls } };
}

impl Reader for MemReader {
    ghost bytes = { λ r. Some r.bytes };

    ghost file = { λ r. r.number };

    ghost size = { λ r. length r.bytes };

    ghost count = { λ r. r.track.faults };

    fn name(&self) -> u64 {
        self.number
    }

    fn len(&self) -> u64 {
        self.bytes.len() as u64
    }

    /// Fails exactly where the list names the call; else gives as many bytes as stand there and fit.
    fn read_at(&mut self, at: u64, buf: &mut [u8]) -> Result<usize, Failed>
        ensures within { ReadsWithin (length self.old.bytes) at (length buf.new) result }
        ensures read { ReadsAt (Some self.old.bytes) at buf.new result }
        ensures bytes { Some self.new.bytes ≡ Some self.old.bytes }
        ensures file { self.new.number ≡ self.old.number }
        ensures size { length self.new.bytes ≡ length self.old.bytes }
        ensures cause { HasCause self.old.track.faults self.new.track.faults result }
        ensures listed { IsAsListed self.old.track self.new.track (is_err result) }
        ensures gives { IfOk result (λ n. n ≡ min (length self.old.bytes - at) (length buf.new)) }
    {
        let fails = self.calls.will_fail();
        self.calls.count();
        if fails {
            return Err(Failed);
        }
        if at >= self.bytes.len() as u64 {
            return Ok(0);
        }
        let rest = &self.bytes.as_slice()[at as usize..];
        let count = rest.len().min(buf.len());
        buf[..count].copy_from_slice(&rest[..count]);
        Ok(count)
    }

    fn faults(&self) -> u64 {
        self.calls.faults()
    }
}

/// A writer in memory. It is spent by finishing or abandoning its file.
pub struct MemWriter {
    pub(crate) number: u64,
    pub(crate) bytes: Seq<u8>,
    pub(crate) calls: Calls,
}

impl Model for MemWriter {
    ghost use Rattle.std.specs.Prelude.{◌<◌, ◌-◌, ◌^◌};
    ghost use Rattle.td_memdev.specs.Handles.{Writing};

    ghost Value = { Writing };

    ghost view = { λ w. record { number = w.number; written = w.bytes; track = w.calls } };

    ghost invariant = { λ w. w.number < 2 ^ 64 - 1 };
}

impl Writer for MemWriter {
    ghost written = { λ w. Some w.written };

    ghost name = { λ w. w.number };

    ghost count = { λ w. w.track.faults };

    /// Fails exactly where the list names the call, unless it finds no memory.
    fn write(&mut self, _alloc: Global, bytes: &[u8]) -> Result<(), IoFault>
        ensures ok { OnOk result (Becomes (λ old. old ++ bytes.now) (Some self.old.written) (Some self.new.written)) }
        ensures failed { OnErr result (Some self.new.written ≡ Some self.old.written) }
        ensures name { self.new.number ≡ self.old.number }
        ensures no_memory { IsErrOf result io_fault.NoMemory → self.new ≡ self.old }
        ensures cause { HasFault self.old.track.faults self.new.track.faults result }
        ensures listed { FailsAsListed self.old.track self.new.track result }
    {
        if self.calls.will_fail() {
            self.calls.count();
            return Err(IoFault::Failed);
        }
        if self.bytes.extend(bytes).is_err() {
            return Err(IoFault::NoMemory);
        }
        self.calls.count();
        Ok(())
    }

    fn faults(&self) -> u64 {
        self.calls.faults()
    }
}

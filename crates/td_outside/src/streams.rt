//! Streams of bytes, the clock and the gate.
ghost use Rattle.std.specs.Prelude.{◌≡◌, ℕ, ◌≤◌, List, Option};
ghost use Rattle.std.specs.Io.{ReadsAtMost};
ghost use Rattle.std.specs.Io.KnownBytes.{ReadConsumes, WriteAppends};
ghost use Rattle.td_outside.specs.Causes.{HasCause, RaisesGiven, TakesSome, Reads};

use crate::faults::Failed;
use td_limits::LAST_TIMESTAMP;

/// Bytes that come in.
pub trait Source {
    /// The bytes that are left, where it tells them.
    ghost left: { Self → Option (List ℕ) };

    /// How many bytes it gave, up to the number's end. It is always told.
    ghost given: { Self → ℕ };

    /// How often it failed.
    ghost count: { Self → ℕ };

    /// Reads some of the bytes that are left into the front of `buf`: at least one where there is one and `buf` isn't
    /// empty. A count of 0 for a buffer that isn't empty is the end. A call that fails leaves the bytes that are left.
    fn read(&mut self, buf: &mut [u8]) -> Result<usize, Failed>
        ensures bound { ReadsAtMost result buf.new }
        ensures bytes { ReadConsumes (left self.old) (left self.new) result buf.new }
        ensures given { RaisesGiven (given self.old) (given self.new) result }
        ensures cause { HasCause (count self.old) (count self.new) result };

    /// How often it failed, up to the number's end.
    fn faults(&self) -> u64
        ensures { result ≡ count self.now };
}

/// Bytes that go out.
pub trait Sink {
    /// The bytes that were written, where it tells them.
    ghost written: { Self → Option (List ℕ) };

    /// How often it failed.
    ghost count: { Self → ℕ };

    /// Takes a front of `bytes`, at least one byte of a piece that isn't empty, or fails and takes nothing.
    fn write(&mut self, bytes: &[u8]) -> Result<usize, Failed>
        ensures bound { TakesSome result bytes.now }
        ensures bytes { WriteAppends (written self.old) (written self.new) result bytes.now }
        ensures cause { HasCause (count self.old) (count self.new) result };

    /// How often it failed, up to the number's end.
    fn faults(&self) -> u64
        ensures { result ≡ count self.now };
}

/// A clock, in milliseconds since 1970.
pub trait Clock: Send + Drop {
    /// The readings that are left, where it tells them. The last repeats.
    ghost readings: { Self → Option (List ℕ) };

    /// The next reading, at most the end of the year 9999.
    fn now(&mut self) -> u64
        ensures most { result ≤ LAST_TIMESTAMP }
        ensures reading { Reads (readings self.old) (readings self.new) result };
}

/// Where a session of a run is: before a statement, after a query took its snapshot, after a reply.
#[derive(Clone, Copy, Debug, PartialEq, Eq)]
pub enum GatePoint {
    Start,
    Pinned,
    Replied,
}

/// Sees each session pass its points, and may hold it there.
pub trait Gate: Sync {
    fn pass(&self, session: u32, point: GatePoint);
}

//! Standard input and output, as a source and a sink.
ghost use Rattle.std.specs.Prelude.{◌≡◌, ◌+◌, ◌-◌, ◌^◌, None, min};

use std::io::{ErrorKind, Read, Write};
use std::marker::Model;
use td_outside::{Failed, Sink, Source};

// A count of faults after one more, up to the number's end.
fn one_more(faults: u64) -> u64
    ensures { result ≡ min (faults + 1) (2 ^ 64 - 1) }
{
    faults.saturating_add(1)
}

/// A reader of std as a source. A read that was interrupted is made again. Contracts see it as its counts.
#[derive(Drop)]
pub struct StandardInput<R: Read> {
    inner: R,
    given: u64,
    faults: u64,
}

impl<R: Read> Model for StandardInput<R> {
    ghost use Rattle.td_realdev.specs.Counts.{Counts};

    ghost Value = { Counts };

    ghost view = { λ s. record { given = s.given; faults = s.faults } };
}

impl<R: Read> StandardInput<R> {
    /// The source of a reader, of which nothing was read so far, without a fault.
    pub fn new(inner: R) -> StandardInput<R>
        ensures { result ≡ record { given = 0; faults = 0 } }
    {
        StandardInput {
            inner,
            given: 0,
            faults: 0,
        }
    }
}

impl<R: Read> Source for StandardInput<R> {
    ghost left = { λ s. None };

    ghost given = { λ s. s.given };

    ghost count = { λ s. s.faults };

    fn read(&mut self, buf: &mut [u8]) -> Result<usize, Failed> {
        for _ in 0..u64::MAX {
            match self.inner.read(buf) {
                Ok(count) => {
                    self.given = self.given.saturating_add(count as u64);
                    return Ok(count);
                }
                Err(error) => {
                    if error.kind() != ErrorKind::Interrupted {
                        break;
                    }
                }
            }
        }
        self.faults = one_more(self.faults);
        Err(Failed)
    }

    fn faults(&self) -> u64 {
        self.faults
    }
}

/// A writer of std as a sink. A write that was interrupted is made again, and one that takes nothing of a piece that
/// isn't empty is a fault. Contracts see it as its count of faults.
#[derive(Drop)]
pub struct StandardOutput<W: Write> {
    inner: W,
    faults: u64,
}

impl<W: Write> Model for StandardOutput<W> {
    ghost use Rattle.std.specs.Prelude.{ℕ};

    ghost Value = { ℕ };

    ghost view = { λ s. s.faults };
}

impl<W: Write> StandardOutput<W> {
    /// The sink of a writer, without a fault so far.
    pub fn new(inner: W) -> StandardOutput<W>
        ensures { result ≡ 0 }
    {
        StandardOutput { inner, faults: 0 }
    }
}

impl<W: Write> Sink for StandardOutput<W> {
    ghost written = { λ s. None };

    ghost count = { λ s. s };

    fn write(&mut self, bytes: &[u8]) -> Result<usize, Failed> {
        for _ in 0..u64::MAX {
            match self.inner.write(bytes) {
                Ok(count) => {
                    if count == 0 && !bytes.is_empty() {
                        break;
                    }
                    return Ok(count);
                }
                Err(error) => {
                    if error.kind() != ErrorKind::Interrupted {
                        break;
                    }
                }
            }
        }
        self.faults = one_more(self.faults);
        Err(Failed)
    }

    fn faults(&self) -> u64 {
        self.faults
    }
}

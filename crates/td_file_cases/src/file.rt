//! The file of a case.
ghost use Rattle.std.specs.Prelude.{◌≡◌, length};

use td_layer::Seq;
use td_outside::{Failed, Reader};

// The number of the file.
const NUMBER: u64 = 9;

// How many bytes a call gives at most, so that reading a part takes several calls.
const MOST: usize = 7;

/// A file in memory whose reader gives a few bytes a call, and fails at one call, which is numbered from 1.
#[derive(Drop)]
pub(crate) struct CaseFile {
    bytes: Seq<u8>,
    fails: u64,
    calls: u64,
    faults: u64,
}

impl CaseFile {
    /// A file of these bytes. No call fails where the number of the one that does is 0.
    pub(crate) fn new(bytes: Seq<u8>, fails: u64) -> CaseFile {
        CaseFile {
            bytes,
            fails,
            calls: 0,
            faults: 0,
        }
    }
}

impl Reader for CaseFile {
    ghost use Rattle.std.specs.Prelude.{length, Some};

    ghost bytes = { λ r. Some r.bytes };

    ghost file = { λ _. 9 };

    ghost size = { λ r. length r.bytes };

    ghost count = { λ r. r.faults };

    fn name(&self) -> u64 {
        NUMBER
    }

    fn len(&self) -> u64 {
        self.bytes.len() as u64
    }

    fn read_at(&mut self, at: u64, buf: &mut [u8]) -> Result<usize, Failed> {
        self.calls = self.calls.saturating_add(1);
        if self.calls == self.fails {
            self.faults = self.faults.saturating_add(1);
            return Err(Failed);
        }
        if at >= self.bytes.len() as u64 {
            return Ok(0);
        }
        let rest = &self.bytes.as_slice()[at as usize..];
        let count = rest.len().min(buf.len()).min(MOST);
        buf[..count].copy_from_slice(&rest[..count]);
        Ok(count)
    }

    fn faults(&self) -> u64 {
        self.faults
    }
}

//! An open log of the system.
use std::fs::File;
use std::io::{self, ErrorKind};
use std::os::unix::fs::FileExt;

/// How much longer a log is made at a time, in bytes: 1 MiB.
const STEP: u64 = 1_048_576;

/// How many zeros are written at once.
const ZEROS: usize = 65_536;

/// An open log: its handle, how long its file is, and whether it grew since it was synced.
#[derive(Drop)]
pub struct LogFile {
    pub number: u64,
    pub file: File,
    pub size: u64,
    pub grew: bool,
}

impl LogFile {
    /// Writes bytes at a place; first the file is made longer by zeros where they don't fit.
    pub fn append(&mut self, at: u64, bytes: &[u8]) -> io::Result<()> {
        let Some(end) = at.checked_add(bytes.len() as u64) else {
            return Err(io::Error::from(ErrorKind::FileTooLarge));
        };
        if end > self.size {
            self.grow(end)?;
        }
        self.file.write_all_at(bytes, at)
    }

    // Makes the file longer by zeros, beyond a place, by at least a step.
    fn grow(&mut self, end: u64) -> io::Result<()> {
        let zeros = [0u8; ZEROS];
        self.grew = true;
        for _ in 0..u64::MAX {
            if self.size >= end.saturating_add(STEP) {
                break;
            }
            self.file.write_all_at(&zeros, self.size)?;
            self.size = self.size.saturating_add(ZEROS as u64);
        }
        Ok(())
    }

    /// Opens a gate: writes the byte 1.
    pub fn open_gate(&mut self, at: u64) -> io::Result<()> {
        self.file.write_all_at(&[1], at)
    }

    /// Makes what was written stable; the size too, where it changed.
    pub fn sync(&mut self) -> io::Result<()> {
        if self.grew {
            self.file.sync_all()?;
            self.grew = false;
            Ok(())
        } else {
            self.file.sync_data()
        }
    }
}

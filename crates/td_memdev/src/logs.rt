//! Logs in memory.
ghost use Rattle.std.specs.Prelude.{◌≡◌, ◌+◌, ◌^◌, ◌<◌, ◌≤◌, [], ◌∷◌, length, map, true, false, Some, None, IfSome, IfOk, OnOk, OnErr};
ghost use Rattle.std.specs.Option.{option_map};
ghost use Rattle.td_outside.specs.Logs.{new_log, after_write, after_sync, after_torn_write, widened};
ghost use Rattle.td_memdev.specs.Entries.{stable_entry};

use crate::table::Numbered;
use std::alloc::Global;
use std::marker::Model;
use td_layer::{NoMem, Seq};

/// The bytes of a log, how long it was when it was synced last, and where it was written since.
#[derive(Drop)]
pub struct MemLog {
    bytes: Vec<u8>,
    stable: usize,
    unsynced: Option<(usize, usize)>,
}

impl Model for MemLog {
    ghost use Rattle.td_outside.specs.Image.{Log};

    ghost Value = { Log };

    ghost view = { λ s. record { bytes = s.bytes.items; stable = s.stable; unsynced = s.unsynced } };
}

// A range that takes in another.
fn widened_range(range: Option<(usize, usize)>, from: usize, to: usize) -> Option<(usize, usize)>
    ensures { result ≡ widened from to range }
{
    match range {
        None => Some((from, to)),
        Some((first, last)) => Some((from.min(first), to.max(last))),
    }
}

impl MemLog {
    /// A log of one stable byte, a closed gate.
    pub fn new(alloc: Global) -> Result<MemLog, NoMem>
        ensures { IfOk result (λ log. log ≡ new_log) }
    {
        let bytes = Vec::from_slice(alloc, &[0])?;
        Ok(MemLog {
            bytes,
            stable: 1,
            unsynced: None,
        })
    }

    /// A log of these bytes, all of them stable.
    pub fn of_bytes(alloc: Global, bytes: &[u8]) -> Result<MemLog, NoMem>
        ensures { IfOk result (λ log. log ≡ record { bytes = bytes.now; stable = length bytes.now; unsynced = None }) }
    {
        let stable = bytes.len();
        let bytes = Vec::from_slice(alloc, bytes)?;
        Ok(MemLog {
            bytes,
            stable,
            unsynced: None,
        })
    }

    /// Writes over what is there, and past the end.
    pub fn write(&mut self, at: usize, bytes: &[u8]) -> Result<(), NoMem>
        requires { at ≤ length self.old.bytes }
        ensures ok { OnOk result (self.new ≡ after_write at bytes.now self.old) }
        ensures err { OnErr result (self.new ≡ self.old) }
    {
        let over = bytes.len().min(self.bytes.len() - at);
        self.bytes.extend_from_slice(&bytes[over..])?;
        self.bytes[at..at + over].copy_from_slice(&bytes[..over]);
        self.unsynced = widened_range(self.unsynced, at, at + bytes.len());
        Ok(())
    }

    /// Opens a gate: writes the byte 1.
    pub fn open_gate(&mut self, at: usize)
        requires { at < length self.old.bytes }
        ensures { self.new ≡ after_write at (1 ∷ []) self.old }
    {
        self.bytes[at] = 1;
        self.unsynced = widened_range(self.unsynced, at, at + 1);
    }

    /// A write of some bytes that failed and left the bytes as they were.
    pub fn tear(&mut self, at: usize, count: usize)
        requires place { at ≤ length self.old.bytes }
        requires fits { count < 2 ^ 63 }
        ensures { self.new ≡ after_torn_write at count self.old.bytes self.old }
    {
        self.unsynced = widened_range(self.unsynced, at, at + count);
    }

    /// Makes all bytes stable.
    pub fn sync(&mut self)
        ensures { self.new ≡ after_sync self.old }
    {
        self.stable = self.bytes.len();
        self.unsynced = None;
    }

    /// A copy of the bytes.
    pub fn copy_bytes(&self, alloc: Global) -> Result<Seq<u8>, NoMem>
        ensures { IfOk result (λ bytes. bytes ≡ self.now.bytes) }
    {
        Seq::of_bytes(alloc, &self.bytes)
    }
}

/// The log of a number, if it is there, and what calls that failed leave in doubt: whether a crash may leave a new log,
/// and whether it may leave none.
#[derive(Drop)]
pub struct LogEntry {
    pub number: u64,
    pub log: Option<MemLog>,
    pub fresh: bool,
    pub gone: bool,
}

impl Numbered for LogEntry {
    ghost number = { λ entry. entry.number };

    fn number(&self) -> u64 {
        self.number
    }
}

impl LogEntry {
    /// An entry without a log, of which nothing is in doubt.
    pub fn new(number: u64) -> LogEntry
        ensures { result ≡ record { number = number; log = None; fresh = false; gone = false } }
    {
        LogEntry {
            number,
            log: None,
            fresh: false,
            gone: false,
        }
    }

    /// Writes to the log, where it is there.
    pub fn write(&mut self, at: usize, bytes: &[u8]) -> Result<(), NoMem>
        requires { IfSome self.old.log (λ log. at ≤ length log.bytes) }
        ensures ok { OnOk result (self.new ≡ record self.old
            { log = option_map (after_write at bytes.now) self.old.log }) }
        ensures err { OnErr result (self.new ≡ self.old) }
    {
        if let Some(log) = &mut self.log {
            log.write(at, bytes)?;
        }
        Ok(())
    }

    /// Opens a gate of the log, where it is there.
    pub fn open_gate(&mut self, at: usize)
        requires { IfSome self.old.log (λ log. at < length log.bytes) }
        ensures { self.new ≡ record self.old { log = option_map (after_write at (1 ∷ [])) self.old.log } }
    {
        if let Some(log) = &mut self.log {
            log.open_gate(at);
        }
    }

    /// A write of some bytes that failed and left the bytes as they were.
    pub fn tear(&mut self, at: usize, count: usize)
        requires place { IfSome self.old.log (λ log. at ≤ length log.bytes) }
        requires fits { count < 2 ^ 63 }
        ensures { self.new ≡ record self.old {
          log = option_map (λ log. after_torn_write at count log.bytes log)
              self.old.log;
        } }
    {
        if let Some(log) = &mut self.log {
            log.tear(at, count);
        }
    }

    /// Makes the log stable, where it is there.
    pub fn sync(&mut self)
        ensures { self.new ≡ record self.old { log = option_map after_sync self.old.log } }
    {
        if let Some(log) = &mut self.log {
            log.sync();
        }
    }

    /// Puts a log in, of which nothing is in doubt.
    pub fn set_log(&mut self, log: MemLog)
        ensures { self.new ≡ record self.old { log = Some log; fresh = false; gone = false } }
    {
        self.log = Some(log);
        self.fresh = false;
        self.gone = false;
    }

    /// A copy of the log's bytes, where it is there.
    pub fn copy_bytes(&self, alloc: Global) -> Result<Option<Seq<u8>>, NoMem>
        ensures { IfOk result (λ bytes. bytes ≡ option_map (λ log. log.bytes) self.now.log) }
    {
        match &self.log {
            None => Ok(None),
            Some(log) => {
                let bytes = log.copy_bytes(alloc)?;
                Ok(Some(bytes))
            }
        }
    }
}

/// Entries of these logs, by number, each with its bytes, all of them stable.
pub fn entries_of_logs(alloc: Global, logs: &[(u64, Seq<u8>)]) -> Result<Vec<LogEntry>, NoMem>
    ensures { IfOk result (λ entries. entries.items ≡ map stable_entry logs.now) }
{
    let mut entries = Vec::new(alloc);
    for pair in logs {
        let log = MemLog::of_bytes(alloc, pair.1.as_slice())?;
        let entry = LogEntry {
            number: pair.0,
            log: Some(log),
            fresh: false,
            gone: false,
        };
        entries.push(entry)?;
    }
    Ok(entries)
}

//! A store in memory.
ghost use Rattle.std.specs.Prelude.{◌≡◌, ◌+◌, ◌-◌, ◌^◌, ◌<◌, ◌≤◌, Bool, true, false, [], ◌∷◌, ◌++◌, List, Option, Some, None, length, IfSome, IfOk, OnOk, OnErr, IsErrOf, IsOk, is_err, is_ok, is_some, if◌then◌else◌};
ghost use Rattle.std.specs.Option.{option_map};
ghost use Rattle.td_outside.specs.Causes.{HasCause, HasFault, TakesOver, raised};
ghost use Rattle.td_outside.specs.Files.{NamesFiles, IsFinished, IsUnread, IsNew, after_create, GivesUp, Finishes, after_open, after_close, after_remove, after_failed_remove, after_swap, SwapFails};
ghost use Rattle.td_outside.specs.Image.{Image, Along, Becomes, at_rest};
ghost use Rattle.td_outside.specs.Logs.{HasLog, after_write, after_sync, with_log, after_log_create, after_failed_log_create, after_log_drop, after_failed_log_drop, Tears};
ghost use Rattle.td_outside.specs.declared.faults.IoFault.TheVariants as io_fault;
ghost use Rattle.td_memdev.specs.Kept.{image_of, log_entry, file_entry, log_of, bytes_of, is_making};
ghost use Rattle.td_memdev.specs.Entries.{as_entered};
ghost use Rattle.td_memdev.specs.Parts.{parts_image};
ghost use Rattle.td_memdev.specs.Tables.{IsTable, IsAt};
ghost use Rattle.td_memdev.specs.Track.{IsAsListed, FailsAsListed, is_next_listed, with_faults};

use crate::calls::Calls;
use crate::files::{FileEntry, FileState, MemFile, close_all, entries_of_files, finished_numbers};
use crate::logs::{LogEntry, MemLog, entries_of_logs};
use crate::reader::{MemReader, MemWriter};
use crate::table::{free_from, place_of};
use std::alloc::Global;
use std::marker::Model;
use td_layer::{Copied, NoMem, Seq};
use td_outside::{Failed, IoFault, Reader, Store, Writer};

/// A store in memory: a head, logs and files. A call fails exactly where its list says so.
#[derive(Drop)]
pub struct MemStore {
    head: Option<Seq<u8>>,
    heads: Seq<Seq<u8>>,
    logs: Vec<LogEntry>,
    files: Vec<FileEntry>,
    made: u64,
    calls: Calls,
}

impl Model for MemStore {
    ghost use Rattle.td_memdev.specs.Tables.{IsTable};
    ghost use Rattle.td_memdev.specs.Kept.{Kept};

    ghost Value = { Kept };

    ghost view = { λ s. record {
      head = s.head;
      heads = s.heads;
      logs = s.logs.items;
      files = s.files.items;
      made = s.made;
      track = s.calls;
    } };

    ghost invariant = { λ s. IsTable (λ entry. entry.number) s.logs.items
        × IsTable (λ entry. entry.number) s.files.items };
}

impl MemStore {
    /// An empty store. `fails` lists the calls that fail, as pairs of an object and a call, both from 1 but for the
    /// store, which is object 0: its readers and writers are numbered in the order in which they are made, and each
    /// object numbers those of its own calls that can answer a failure.
    pub fn new(alloc: Global, fails: Seq<(u64, u64)>) -> MemStore
        ensures image { image_of result ≡ parts_image None [] [] }
        ensures track { result.track ≡ record { object = 0; calls = 0; fails = fails; faults = 0 } }
        ensures made { result.made ≡ 0 }
    {
        MemStore {
            head: None,
            heads: Seq::new(alloc),
            logs: Vec::new(alloc),
            files: Vec::new(alloc),
            made: 0,
            calls: Calls::new(0, fails),
        }
    }

    /// A store of this head, these logs and these finished files, by number, all of them stable.
    pub fn of_parts(
        alloc: Global,
        head: Option<Seq<u8>>,
        logs: Seq<(u64, Seq<u8>)>,
        files: Seq<(u64, Seq<u8>)>,
        fails: Seq<(u64, u64)>,
    ) -> Result<MemStore, NoMem>
        requires logs { IsTable (λ pair. pair.0) logs }
        requires files { IsTable (λ pair. pair.0) files }
        ensures image { IfOk result (λ store. image_of store ≡ parts_image head logs files) }
        ensures track { IfOk result (λ store. store.track
            ≡ record { object = 0; calls = 0; fails = fails; faults = 0 }) }
        ensures made { IfOk result (λ store. store.made ≡ 0) }
    {
        let logs = entries_of_logs(alloc, logs.as_slice())?;
        let files = entries_of_files(alloc, files.as_slice())?;
        Ok(MemStore {
            head,
            heads: Seq::new(alloc),
            logs,
            files,
            made: 0,
            calls: Calls::new(0, fails),
        })
    }

    /// Begins anew, as a process finds it that enters: no reader is open, and the count of faults is 0.
    pub(crate) fn begin(&mut self)
        ensures begun { self.new ≡ as_entered self.old }
        ensures image { image_of self.new ≡ at_rest (image_of self.old) }
    {
        close_all(&mut self.files);
        self.calls.forget();
    }

    // The place of the entry of a log, which is made without a log where there is none.
    fn entry_for(&mut self, log: u64) -> Result<usize, NoMem>
        ensures there { IfOk result (λ place. IsAt (λ entry. entry.number) log place self.new.logs) }
        ensures within { IfOk result (λ place. place < length self.new.logs) }
        ensures same { self.new ≡ record self.old { logs = self.new.logs } }
        ensures image { image_of self.new ≡ image_of self.old }
        ensures err { OnErr result (self.new ≡ self.old) }
    {
        match place_of(&self.logs, log) {
            Some(place) => Ok(place),
            None => {
                self.logs.push(LogEntry::new(log))?;
                Ok(self.logs.len() - 1)
            }
        }
    }

    // The place of the entry of a log that is there.
    fn log_place(&self, log: u64) -> usize
        requires { is_some (log_of (log_entry self.now.logs log)) ≡ true }
        ensures there { IsAt (λ entry. entry.number) log result self.now.logs }
        ensures within { result < length self.now.logs }
    {
        match place_of(&self.logs, log) {
            Some(place) => place,
            None => unreachable!(),
        }
    }

    // The place of a file in making.
    fn making_place(&self, number: u64) -> Option<usize>
        ensures there { IfSome result (λ place. IsAt (λ entry. entry.number) number place self.now.files) }
        ensures within { IfSome result (λ place. place < length self.now.files) }
        ensures making { is_some result ≡ is_making (file_entry self.now.files number) }
    {
        let place = place_of(&self.files, number)?;
        if self.files[place].is_making() {
            Some(place)
        } else {
            None
        }
    }

    // The place of a finished file.
    fn finished_place(&self, name: u64) -> usize
        requires { is_some (bytes_of (file_entry self.now.files name)) ≡ true }
        ensures there { IsAt (λ entry. entry.number) name result self.now.files }
        ensures within { result < length self.now.files }
    {
        match place_of(&self.files, name) {
            Some(place) => place,
            None => unreachable!(),
        }
    }
}

// A copy of the bytes of a log, where it is there.
fn bytes_of_log(alloc: Global, logs: &[LogEntry], log: u64) -> Result<Option<Seq<u8>>, NoMem>
    ensures { IfOk result (λ bytes. bytes ≡ option_map (λ l. l.bytes) (log_of (log_entry logs.now log))) }
{
    match place_of(logs, log) {
        Some(place) => {
            let bytes = logs[place].copy_bytes(alloc)?;
            Ok(bytes)
        }
        None => Ok(None),
    }
}

impl Store for MemStore {
    type Reader = MemReader;

    type Writer = MemWriter;

    ghost told = { λ s. Some (image_of s) };

    ghost count = { λ s. s.track.faults };

    fn names(&mut self, alloc: Global) -> Result<Seq<u64>, IoFault>
        ensures names { IfOk result (λ names. NamesFiles names (image_of self.old)) }
        ensures same { Some (image_of self.new) ≡ Some (image_of self.old) }
        ensures no_memory { IsErrOf result io_fault.NoMemory → self.new ≡ self.old }
        ensures cause { HasFault self.old.track.faults self.new.track.faults result }
        ensures listed { FailsAsListed self.old.track self.new.track result }
    {
        let names = finished_numbers(alloc, &self.files)?;
        let fails = self.calls.will_fail();
        self.calls.count();
        if fails {
            return Err(IoFault::Failed);
        }
        Ok(names)
    }

    fn create(&mut self, alloc: Global) -> Result<MemWriter, IoFault>
        ensures new { IfOk result (λ w. IsNew w.number (image_of self.old)) }
        ensures ok { IfOk result (λ w. image_of self.new ≡ after_create w.number (image_of self.old)) }
        ensures empty { IfOk result (λ w. Some w.written ≡ Some []) }
        ensures writer { IfOk result (λ w. w.track.faults ≡ 0) }
        ensures failed { OnErr result (Some (image_of self.new) ≡ Some (image_of self.old)) }
        ensures no_memory { IsErrOf result io_fault.NoMemory → self.new ≡ self.old }
        ensures cause { HasFault self.old.track.faults self.new.track.faults result }
        ensures listed { FailsAsListed self.old.track self.new.track result }
        ensures object { IfOk result (λ w. (w.track.object ≡ raised self.old.made 1)
            × ((w.track.fails ≡ self.old.track.fails) × (w.track.calls ≡ 0))) }
        ensures made { self.new.made ≡ (if is_ok result then raised self.old.made 1 else self.old.made) }
    {
        let Some(number) = free_from(&self.files, 0) else {
            return Err(IoFault::NoMemory);
        };
        let object = self.made.saturating_add(1);
        let calls = self.calls.of_object(alloc, object)?;
        if self.calls.will_fail() {
            self.calls.count();
            return Err(IoFault::Failed);
        }
        let entry = FileEntry {
            number,
            state: FileState::Making,
        };
        if self.files.push(entry).is_err() {
            return Err(IoFault::NoMemory);
        }
        self.calls.count();
        self.made = object;
        Ok(MemWriter {
            number,
            bytes: Seq::new(alloc),
            calls,
        })
    }

    fn finish(&mut self, w: MemWriter) -> Result<u64, Failed>
        ensures number { IfOk result (λ n. n < 2 ^ 64 - 1) }
        ensures ok { IfOk result (λ n. Finishes w.number n w.written (image_of self.old) (image_of self.new)) }
        ensures failed { OnErr result (GivesUp w.number (image_of self.old) (image_of self.new)) }
        ensures cause { TakesOver self.old.track.faults w.track.faults self.new.track.faults result }
        ensures listed { (image_of self.old).making w.number ≡ true
            → IsAsListed (with_faults w.track.faults self.old.track) self.new.track (is_err result) }
    {
        let MemWriter {
            number,
            bytes,
            calls,
        } = w;
        let faults = calls.faults();
        self.calls.take_over(faults);
        let fails = self.calls.will_fail();
        self.calls.count();
        let Some(place) = self.making_place(number) else {
            if !fails {
                self.calls.add_fault();
            }
            return Err(Failed);
        };
        if fails {
            self.files[place].state = FileState::Lost;
            return Err(Failed);
        }
        let file = MemFile {
            bytes,
            readers: 0,
            removed: false,
        };
        self.files[place].state = FileState::Finished(file);
        Ok(number)
    }

    fn abandon(&mut self, w: MemWriter)
        ensures ok { GivesUp w.number (image_of self.old) (image_of self.new) }
        ensures over { raised self.old.track.faults w.track.faults ≤ self.new.track.faults }
        ensures listed { self.new.track ≡ with_faults w.track.faults self.old.track }
    {
        let MemWriter {
            number,
            bytes: _bytes,
            calls,
        } = w;
        self.calls.take_over(calls.faults());
        if let Some(place) = self.making_place(number) {
            self.files.remove(place);
        }
    }

    fn open_file(&mut self, alloc: Global, name: u64) -> Result<MemReader, IoFault>
        requires finished { IsFinished name (image_of self.old) }
        ensures ok { OnOk result (image_of self.new ≡ after_open name (image_of self.old)) }
        ensures bytes { IfOk result (λ r. Some r.bytes ≡ (image_of self.old).files name) }
        ensures file { IfOk result (λ r. r.number ≡ name) }
        ensures reader { IfOk result (λ r. r.track.faults ≡ 0) }
        ensures failed { OnErr result (Some (image_of self.new) ≡ Some (image_of self.old)) }
        ensures no_memory { IsErrOf result io_fault.NoMemory → self.new ≡ self.old }
        ensures cause { HasFault self.old.track.faults self.new.track.faults result }
        ensures listed { FailsAsListed self.old.track self.new.track result }
        ensures object { IfOk result (λ r. (r.track.object ≡ raised self.old.made 1)
            × ((r.track.fails ≡ self.old.track.fails) × (r.track.calls ≡ 0))) }
        ensures made { self.new.made ≡ (if is_ok result then raised self.old.made 1 else self.old.made) }
    {
        let place = self.finished_place(name);
        let object = self.made.saturating_add(1);
        let calls = self.calls.of_object(alloc, object)?;
        let Some(bytes) = self.files[place].bytes() else {
            unreachable!()
        };
        let bytes = bytes.copy()?;
        let Some(readers) = self.files[place].readers().checked_add(1) else {
            return Err(IoFault::NoMemory);
        };
        let fails = self.calls.will_fail();
        self.calls.count();
        if fails {
            return Err(IoFault::Failed);
        }
        self.files[place].set_readers(readers);
        self.made = object;
        Ok(MemReader {
            number: name,
            bytes,
            calls,
        })
    }

    fn close_file(&mut self, r: MemReader)
        ensures ok { image_of self.new ≡ after_close r.number (image_of self.old) }
        ensures over { raised self.old.track.faults r.track.faults ≤ self.new.track.faults }
        ensures listed { self.new.track ≡ with_faults r.track.faults self.old.track }
    {
        let MemReader {
            number,
            bytes: _bytes,
            calls,
        } = r;
        self.calls.take_over(calls.faults());
        if let Some(place) = place_of(&self.files, number) {
            let readers = self.files[place].readers();
            self.files[place].set_readers(readers.saturating_sub(1));
        }
    }

    fn remove(&mut self, name: u64) -> Result<(), Failed>
        requires unread { IsUnread name (image_of self.old) }
        ensures ok { OnOk result (image_of self.new ≡ after_remove name (image_of self.old)) }
        ensures failed { OnErr result (image_of self.new ≡ after_failed_remove name (image_of self.old)) }
        ensures cause { HasCause self.old.track.faults self.new.track.faults result }
        ensures listed { IsAsListed self.old.track self.new.track (is_err result) }
    {
        let place = self.finished_place(name);
        let fails = self.calls.will_fail();
        self.calls.count();
        if fails {
            self.files[place].mark_removed();
            return Err(Failed);
        }
        self.files.remove(place);
        Ok(())
    }

    fn head_read(&mut self, _alloc: Global) -> Result<Option<Seq<u8>>, IoFault>
        ensures head { IfOk result (λ head. head ≡ self.old.head) }
        ensures same { Some (image_of self.new) ≡ Some (image_of self.old) }
        ensures no_memory { IsErrOf result io_fault.NoMemory → self.new ≡ self.old }
        ensures cause { HasFault self.old.track.faults self.new.track.faults result }
        ensures listed { FailsAsListed self.old.track self.new.track result }
    {
        let head = self.head.copy()?;
        let fails = self.calls.will_fail();
        self.calls.count();
        if fails {
            return Err(IoFault::Failed);
        }
        Ok(head)
    }

    fn head_swap(&mut self, alloc: Global, bytes: &[u8]) -> Result<(), IoFault>
        ensures ok { OnOk result (image_of self.new ≡ after_swap bytes.now (image_of self.old)) }
        ensures failed { IsErrOf result io_fault.Failed → SwapFails bytes.now (image_of self.old) (image_of self.new) }
        ensures no_memory { IsErrOf result io_fault.NoMemory → self.new ≡ self.old }
        ensures cause { HasFault self.old.track.faults self.new.track.faults result }
        ensures listed { FailsAsListed self.old.track self.new.track result }
    {
        let head = Seq::of_bytes(alloc, bytes)?;
        if self.calls.will_fail() {
            self.heads.add(head)?;
            self.calls.count();
            return Err(IoFault::Failed);
        }
        self.calls.count();
        self.head = Some(head);
        self.heads = Seq::new(alloc);
        Ok(())
    }

    fn log_create(&mut self, alloc: Global, log: u64) -> Result<(), IoFault>
        ensures ok { OnOk result (image_of self.new ≡ after_log_create log (image_of self.old)) }
        ensures failed { IsErrOf result io_fault.Failed
            → image_of self.new ≡ after_failed_log_create log (image_of self.old) }
        ensures no_memory { IsErrOf result io_fault.NoMemory → self.new ≡ self.old }
        ensures cause { HasFault self.old.track.faults self.new.track.faults result }
        ensures listed { FailsAsListed self.old.track self.new.track result }
    {
        let fresh = MemLog::new(alloc)?;
        let place = self.entry_for(log)?;
        let fails = self.calls.will_fail();
        self.calls.count();
        if fails {
            self.logs[place].fresh = true;
            return Err(IoFault::Failed);
        }
        self.logs[place].set_log(fresh);
        Ok(())
    }

    fn log_append(&mut self, _alloc: Global, log: u64, at: u64, bytes: &[u8]) -> Result<(), IoFault>
        requires within { HasLog log (λ l. at ≤ length l.bytes) (image_of self.old) }
        ensures ok { OnOk result (image_of self.new ≡ with_log log (after_write at bytes.now) (image_of self.old)) }
        ensures failed { IsErrOf result io_fault.Failed
            → Tears log at (length bytes.now) (image_of self.old) (image_of self.new) }
        ensures no_memory { IsErrOf result io_fault.NoMemory → self.new ≡ self.old }
        ensures cause { HasFault self.old.track.faults self.new.track.faults result }
        ensures listed { FailsAsListed self.old.track self.new.track result }
    {
        let place = self.log_place(log);
        if self.calls.will_fail() {
            self.logs[place].tear(at as usize, bytes.len());
            self.calls.count();
            return Err(IoFault::Failed);
        }
        self.logs[place].write(at as usize, bytes)?;
        self.calls.count();
        Ok(())
    }

    fn log_gate(&mut self, log: u64, at: u64) -> Result<(), Failed>
        requires within { HasLog log (λ l. at < length l.bytes) (image_of self.old) }
        ensures ok { OnOk result (image_of self.new ≡ with_log log (after_write at (1 ∷ [])) (image_of self.old)) }
        ensures failed { OnErr result (Tears log at 1 (image_of self.old) (image_of self.new)) }
        ensures cause { HasCause self.old.track.faults self.new.track.faults result }
        ensures listed { IsAsListed self.old.track self.new.track (is_err result) }
    {
        let place = self.log_place(log);
        let fails = self.calls.will_fail();
        self.calls.count();
        if fails {
            self.logs[place].tear(at as usize, 1);
            return Err(Failed);
        }
        self.logs[place].open_gate(at as usize);
        Ok(())
    }

    fn log_sync(&mut self, log: u64) -> Result<(), Failed>
        requires there { HasLog log (λ _. Unit {0}) (image_of self.old) }
        ensures ok { OnOk result (image_of self.new ≡ with_log log after_sync (image_of self.old)) }
        ensures failed { OnErr result (Some (image_of self.new) ≡ Some (image_of self.old)) }
        ensures cause { HasCause self.old.track.faults self.new.track.faults result }
        ensures listed { IsAsListed self.old.track self.new.track (is_err result) }
    {
        let place = self.log_place(log);
        let fails = self.calls.will_fail();
        self.calls.count();
        if fails {
            return Err(Failed);
        }
        self.logs[place].sync();
        Ok(())
    }

    fn log_read(&mut self, alloc: Global, log: u64) -> Result<Option<Seq<u8>>, IoFault>
        ensures bytes { IfOk result (λ bytes. bytes ≡ option_map (λ l. l.bytes) ((image_of self.old).logs log)) }
        ensures same { Some (image_of self.new) ≡ Some (image_of self.old) }
        ensures no_memory { IsErrOf result io_fault.NoMemory → self.new ≡ self.old }
        ensures cause { HasFault self.old.track.faults self.new.track.faults result }
        ensures listed { FailsAsListed self.old.track self.new.track result }
    {
        let bytes = bytes_of_log(alloc, &self.logs, log)?;
        let fails = self.calls.will_fail();
        self.calls.count();
        if fails {
            return Err(IoFault::Failed);
        }
        Ok(bytes)
    }

    fn log_drop(&mut self, log: u64) -> Result<(), Failed>
        ensures ok { OnOk result (image_of self.new ≡ after_log_drop log (image_of self.old)) }
        ensures missing { (image_of self.old).logs log ≡ None → IsOk result }
        ensures failed { OnErr result (image_of self.new ≡ after_failed_log_drop log (image_of self.old)) }
        ensures cause { HasCause self.old.track.faults self.new.track.faults result }
        ensures listed { is_some ((image_of self.old).logs log) ≡ true
            → IsAsListed self.old.track self.new.track (is_err result) }
        ensures untouched { (image_of self.old).logs log ≡ None → self.new ≡ self.old }
    {
        let Some(place) = place_of(&self.logs, log) else {
            return Ok(());
        };
        if self.logs[place].log.is_none() {
            return Ok(());
        }
        let fails = self.calls.will_fail();
        self.calls.count();
        if fails {
            self.logs[place].gone = true;
            return Err(Failed);
        }
        self.logs.remove(place);
        Ok(())
    }

    fn faults(&self) -> u64 {
        self.calls.faults()
    }
}

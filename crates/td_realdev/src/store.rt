//! A store in a directory of the system, with its readers and writers.
ghost use Rattle.std.specs.Prelude.{◌≡◌, ◌≤◌, ◌<◌, ◌-◌, ◌^◌, None};
ghost use Rattle.std.specs.Io.{ReadsAtMost};
ghost use Rattle.td_outside.specs.Causes.{Rose, raised};
ghost use Rattle.td_outside.specs.declared.faults.IoFault.TheVariants as io_fault;

use crate::directory::Directory;
use std::alloc::Global;
use std::fs::File;
use std::io::{self, ErrorKind};
use std::marker::Model;
use std::os::unix::fs::FileExt;
use td_layer::Seq;
use td_outside::{Failed, IoFault, Reader, Store, Writer};

/// A reader of a file of the system. Contracts see the number of the file, its size and the count of faults.
pub struct FileReader {
    number: u64,
    file: File,
    size: u64,
    faults: u64,
}

impl Model for FileReader {
    ghost use Rattle.td_realdev.specs.Counts.{Reading};

    ghost Value = { Reading };

    ghost view = { λ r. record { number = r.number; size = r.size; faults = r.faults } };
}

impl Reader for FileReader {
    ghost bytes = { λ r. None };

    ghost file = { λ r. r.number };

    ghost size = { λ r. r.size };

    ghost count = { λ r. r.faults };

    fn name(&self) -> u64 {
        self.number
    }

    fn len(&self) -> u64 {
        self.size
    }

    fn read_at(&mut self, at: u64, buf: &mut [u8]) -> Result<usize, Failed> {
        if at >= self.size || buf.is_empty() {
            return Ok(0);
        }
        let left = self.size - at;
        let room = if left < buf.len() as u64 {
            left as usize
        } else {
            buf.len()
        };
        match read_some(&self.file, at, &mut buf[..room]) {
            Ok(count) if count > 0 => Ok(count),
            _ => {
                self.faults = self.faults.saturating_add(1);
                Err(Failed)
            }
        }
    }

    fn faults(&self) -> u64 {
        self.faults
    }
}

// Reads at a place of a file; a read that was interrupted is made again.
fn read_some(file: &File, at: u64, buf: &mut [u8]) -> io::Result<usize>
    ensures { ReadsAtMost result buf.new }
{
    for _ in 0..u64::MAX {
        match file.read_at(buf, at) {
            Ok(count) => return Ok(count),
            Err(error) => {
                if error.kind() != ErrorKind::Interrupted {
                    return Err(error);
                }
            }
        }
    }
    Err(io::Error::from(ErrorKind::Interrupted))
}

/// A writer of a file of the system. Each piece is written behind the last whole one, so that what a failed write left
/// there is written over. Contracts see the number of the file and the count of faults.
pub struct FileWriter {
    number: u64,
    file: File,
    end: u64,
    is_torn: bool,
    faults: u64,
}

impl Model for FileWriter {
    ghost use Rattle.std.specs.Prelude.{◌<◌, ◌-◌, ◌^◌};
    ghost use Rattle.td_realdev.specs.Counts.{Writing};

    ghost Value = { Writing };

    ghost view = { λ w. record { number = w.number; faults = w.faults } };

    ghost invariant = { λ w. w.number < 2 ^ 64 - 1 };
}

impl Writer for FileWriter {
    ghost written = { λ w. None };

    ghost name = { λ w. w.number };

    ghost count = { λ w. w.faults };

    fn write(&mut self, _alloc: Global, bytes: &[u8]) -> Result<(), IoFault> {
        let written = self.file.write_all_at(bytes, self.end);
        match (written, self.end.checked_add(bytes.len() as u64)) {
            (Ok(()), Some(end)) => {
                self.end = end;
                Ok(())
            }
            _ => {
                self.is_torn = true;
                self.faults = self.faults.saturating_add(1);
                Err(IoFault::Failed)
            }
        }
    }

    fn faults(&self) -> u64 {
        self.faults
    }
}

/// A store in a directory of the system. Contracts see its count of faults.
#[derive(Drop)]
pub struct DirStore {
    directory: Directory,
    faults: u64,
}

impl Model for DirStore {
    ghost use Rattle.std.specs.Prelude.{ℕ};

    ghost Value = { ℕ };

    ghost view = { λ s. s.faults };
}

impl DirStore {
    /// The store of an open directory, without a fault so far.
    pub(crate) fn new(directory: Directory) -> DirStore
        ensures { result ≡ 0 }
    {
        DirStore {
            directory,
            faults: 0,
        }
    }

    // Counts a fault.
    fn fail(&mut self) -> Failed
        ensures rose { Rose self.old self.new }
        ensures later { self.old ≤ self.new }
    {
        self.faults = self.faults.saturating_add(1);
        Failed
    }

    // Why a call failed: for want of memory, or by a fault, which is counted.
    fn fault(&mut self, error: &io::Error) -> IoFault
        ensures rose { result ≡ io_fault.Failed → Rose self.old self.new }
        ensures kept { result ≡ io_fault.NoMemory → self.new ≡ self.old }
        ensures later { self.old ≤ self.new }
    {
        if error.kind() == ErrorKind::OutOfMemory {
            IoFault::NoMemory
        } else {
            self.faults = self.faults.saturating_add(1);
            IoFault::Failed
        }
    }

    // Takes over the faults of what is handed back.
    fn take_over(&mut self, faults: u64)
        ensures { self.new ≡ raised self.old faults }
    {
        self.faults = self.faults.saturating_add(faults);
    }
}

impl Store for DirStore {
    type Reader = FileReader;

    type Writer = FileWriter;

    ghost told = { λ s. None };

    ghost count = { λ s. s };

    fn names(&mut self, alloc: Global) -> Result<Seq<u64>, IoFault> {
        match self.directory.names(alloc) {
            Ok(names) => Ok(names),
            Err(error) => Err(self.fault(&error)),
        }
    }

    fn create(&mut self, _alloc: Global) -> Result<FileWriter, IoFault> {
        match self.directory.create() {
            Ok((number, file)) => Ok(FileWriter {
                number,
                file,
                end: 0,
                is_torn: false,
                faults: 0,
            }),
            Err(error) => Err(self.fault(&error)),
        }
    }

    fn finish(&mut self, w: FileWriter) -> Result<u64, Failed> {
        let FileWriter {
            number,
            file,
            end,
            is_torn,
            faults,
        } = w;
        self.take_over(faults);
        match self.directory.finish(number, &file, end, is_torn) {
            Ok(()) => Ok(number),
            Err(_) => Err(self.fail()),
        }
    }

    fn abandon(&mut self, w: FileWriter) {
        let FileWriter {
            number,
            file: _file,
            end: _end,
            is_torn: _is_torn,
            faults,
        } = w;
        self.take_over(faults);
        if self.directory.abandon(number).is_err() {
            self.fail();
        }
    }

    fn open_file(&mut self, _alloc: Global, name: u64) -> Result<FileReader, IoFault> {
        match self.directory.open_file(name) {
            Ok((file, size)) => Ok(FileReader {
                number: name,
                file,
                size,
                faults: 0,
            }),
            Err(error) => Err(self.fault(&error)),
        }
    }

    fn close_file(&mut self, r: FileReader) {
        let FileReader {
            number: _number,
            file: _file,
            size: _size,
            faults,
        } = r;
        self.take_over(faults);
    }

    fn remove(&mut self, name: u64) -> Result<(), Failed> {
        match self.directory.remove(name) {
            Ok(()) => Ok(()),
            Err(_) => Err(self.fail()),
        }
    }

    fn head_read(&mut self, alloc: Global) -> Result<Option<Seq<u8>>, IoFault> {
        match self.directory.head_read(alloc) {
            Ok(head) => Ok(head),
            Err(error) => Err(self.fault(&error)),
        }
    }

    fn head_swap(&mut self, _alloc: Global, bytes: &[u8]) -> Result<(), IoFault> {
        match self.directory.head_swap(bytes) {
            Ok(()) => Ok(()),
            Err(error) => Err(self.fault(&error)),
        }
    }

    fn log_create(&mut self, _alloc: Global, log: u64) -> Result<(), IoFault> {
        match self.directory.log_create(log) {
            Ok(()) => Ok(()),
            Err(error) => Err(self.fault(&error)),
        }
    }

    fn log_append(
        &mut self,
        _alloc: Global,
        log: u64,
        at: u64,
        bytes: &[u8],
    ) -> Result<(), IoFault> {
        match self.directory.log_append(log, at, bytes) {
            Ok(()) => Ok(()),
            Err(error) => Err(self.fault(&error)),
        }
    }

    fn log_gate(&mut self, log: u64, at: u64) -> Result<(), Failed> {
        match self.directory.log_gate(log, at) {
            Ok(()) => Ok(()),
            Err(_) => Err(self.fail()),
        }
    }

    fn log_sync(&mut self, log: u64) -> Result<(), Failed> {
        match self.directory.log_sync(log) {
            Ok(()) => Ok(()),
            Err(_) => Err(self.fail()),
        }
    }

    fn log_read(&mut self, alloc: Global, log: u64) -> Result<Option<Seq<u8>>, IoFault> {
        match self.directory.log_read(alloc, log) {
            Ok(bytes) => Ok(bytes),
            Err(error) => Err(self.fault(&error)),
        }
    }

    fn log_drop(&mut self, log: u64) -> Result<(), Failed> {
        match self.directory.log_drop(log) {
            Ok(()) => Ok(()),
            Err(_) => Err(self.fail()),
        }
    }

    fn faults(&self) -> u64 {
        self.faults
    }
}

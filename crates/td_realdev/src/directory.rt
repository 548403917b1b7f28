//! A directory of the system that holds a head, logs and files.
//!
//! It holds `head`, `w` and a log's number, `f` and a file's number, in decimal; other names are ignored. The head and
//! a new log are written aside, synced and renamed, and then the directory is synced. A log is made longer ahead of its
//! end by zeros, so that a sync of what is written into it changes no size.
ghost use Rattle.std.specs.Prelude.{◌<◌, ◌-◌, ◌^◌, length, vec_len, IfOk, IfSome};

use crate::log::LogFile;
use crate::names::{number_of, path_of};
use std::alloc::Global;
use std::fs::{self, File};
use std::io::{self, ErrorKind};
use std::os::unix::fs::FileExt;
use td_layer::Seq;

/// An open directory, which no other process can have entered.
#[derive(Drop)]
pub struct Directory {
    rt: HostRuntime,
    alloc: Global,
    path: String,
    handle: File,
    logs: Vec<LogFile>,
    making: Vec<u64>,
    next: u64,
}

impl Directory {
    /// Opens and locks a directory, which is made where it is missing.
    pub fn open(rt: HostRuntime, alloc: Global, name: &str) -> io::Result<Directory> {
        let path = String::from_str(alloc, name)?;
        if let Err(error) = fs::create_dir(&rt, name) {
            if error.kind() != ErrorKind::AlreadyExists {
                return Err(error);
            }
        }
        let metadata = fs::metadata(&rt, name)?;
        if !metadata.is_dir() {
            return Err(io::Error::from(ErrorKind::NotADirectory));
        }
        let handle = File::open(&rt, name)?;
        handle.try_lock()?;
        Ok(Directory {
            rt,
            alloc,
            path,
            handle,
            logs: Vec::new(alloc),
            making: Vec::new(alloc),
            next: 1,
        })
    }

    /// The numbers of the finished files.
    pub fn names(&mut self, alloc: Global) -> io::Result<Seq<u64>> {
        let mut names = Vec::new(alloc);
        for entry in fs::read_dir(&self.rt, self.path.as_str())? {
            let entry = entry?;
            if let Some(number) = number_of(entry.file_name(), 'f') {
                if !self.making.contains(&number) {
                    names.push(number)?;
                }
                self.next = self.next.max(number.saturating_add(1));
            }
        }
        Ok(Seq::from_vec(alloc, names))
    }

    /// Begins a file under a number that no file has, below 2^64-1.
    pub fn create(&mut self) -> io::Result<(u64, File)>
        ensures { IfOk result (λ made. made.0 < 2 ^ 64 - 1) }
    {
        for number in self.next..u64::MAX {
            let path = path_of(self.alloc, &self.path, 'f', number)?;
            self.making.reserve(1)?;
            match File::create_new(&self.rt, path.as_str()) {
                Ok(file) => {
                    self.making.push(number).unwrap();
                    self.next = number + 1;
                    return Ok((number, file));
                }
                Err(error) => {
                    if error.kind() != ErrorKind::AlreadyExists {
                        return Err(error);
                    }
                }
            }
        }
        Err(io::Error::from(ErrorKind::StorageFull))
    }

    /// Makes a written file stable under its number. Where it fails, the file is abandoned.
    pub fn finish(&mut self, number: u64, file: &File, end: u64, is_torn: bool) -> io::Result<()> {
        if let Err(error) = self.make_stable(file, end, is_torn) {
            let _ = self.abandon(number);
            return Err(error);
        }
        self.forget(number);
        Ok(())
    }

    // Cuts off what a failed write left behind the end of a file, and syncs the file and the directory.
    fn make_stable(&self, file: &File, end: u64, is_torn: bool) -> io::Result<()> {
        if is_torn {
            file.set_len(end)?;
        }
        file.sync_all()?;
        self.handle.sync_all()
    }

    /// Takes an unfinished file away. Where it fails, the file stays in making, so that `names` doesn't list it.
    pub fn abandon(&mut self, number: u64) -> io::Result<()> {
        let path = path_of(self.alloc, &self.path, 'f', number)?;
        fs::remove_file(&self.rt, path.as_str())?;
        self.forget(number);
        Ok(())
    }

    // The file of a number is no longer in making.
    fn forget(&mut self, number: u64) {
        self.making.retain(|making| *making != number);
    }

    /// Opens a finished file, and tells its size in bytes.
    pub fn open_file(&mut self, number: u64) -> io::Result<(File, u64)> {
        let path = path_of(self.alloc, &self.path, 'f', number)?;
        let file = File::open(&self.rt, path.as_str())?;
        let size = file.metadata()?.len();
        Ok((file, size))
    }

    /// Takes a finished file away. Where only the sync of the directory fails, the file is gone all the same.
    pub fn remove(&mut self, number: u64) -> io::Result<()> {
        let path = path_of(self.alloc, &self.path, 'f', number)?;
        fs::remove_file(&self.rt, path.as_str())?;
        self.handle.sync_all()
    }

    /// The bytes of the head, or none.
    pub fn head_read(&mut self, alloc: Global) -> io::Result<Option<Seq<u8>>> {
        let path = self.path_to("head")?;
        match File::open(&self.rt, path.as_str()) {
            Ok(file) => {
                let bytes = bytes_of(alloc, &file)?;
                Ok(Some(bytes))
            }
            Err(error) if error.kind() == ErrorKind::NotFound => Ok(None),
            Err(error) => Err(error),
        }
    }

    /// Puts bytes in the place of the head: written aside, synced, renamed, and the directory synced. Where only the
    /// sync of the directory fails, the new head is there all the same.
    pub fn head_swap(&mut self, bytes: &[u8]) -> io::Result<()> {
        let path = self.path_to("head")?;
        self.put_aside(path.as_str(), bytes)?;
        self.handle.sync_all()
    }

    /// Puts a log of one byte, a closed gate, in the place of what is there: written aside, synced, renamed, and the
    /// directory synced. Where only the sync of the directory fails, the new log is there all the same.
    pub fn log_create(&mut self, number: u64) -> io::Result<()> {
        let path = path_of(self.alloc, &self.path, 'w', number)?;
        self.logs.reserve(1)?;
        let file = self.put_aside(path.as_str(), &[0])?;
        self.logs.retain(|log| log.number != number);
        let log = LogFile {
            number,
            file,
            size: 1,
            grew: false,
        };
        self.logs.push(log).unwrap();
        self.handle.sync_all()
    }

    /// Writes to a log.
    pub fn log_append(&mut self, number: u64, at: u64, bytes: &[u8]) -> io::Result<()> {
        let place = self.log_place(number)?;
        let log = &mut self.logs[place];
        log.append(at, bytes)
    }

    /// Opens a gate of a log.
    pub fn log_gate(&mut self, number: u64, at: u64) -> io::Result<()> {
        let place = self.log_place(number)?;
        let log = &mut self.logs[place];
        log.open_gate(at)
    }

    /// Makes a log stable.
    pub fn log_sync(&mut self, number: u64) -> io::Result<()> {
        let place = self.log_place(number)?;
        let log = &mut self.logs[place];
        log.sync()
    }

    /// The bytes of a log, or none where it isn't there.
    pub fn log_read(&mut self, alloc: Global, number: u64) -> io::Result<Option<Seq<u8>>> {
        match self.log_place(number) {
            Ok(place) => {
                let bytes = bytes_of(alloc, &self.logs[place].file)?;
                Ok(Some(bytes))
            }
            Err(error) if error.kind() == ErrorKind::NotFound => Ok(None),
            Err(error) => Err(error),
        }
    }

    /// Takes a log away, if it is there. Where only the sync of the directory fails, the log is gone all the same.
    pub fn log_drop(&mut self, number: u64) -> io::Result<()> {
        self.logs.retain(|log| log.number != number);
        let path = path_of(self.alloc, &self.path, 'w', number)?;
        match fs::remove_file(&self.rt, path.as_str()) {
            Ok(()) => self.handle.sync_all(),
            Err(error) if error.kind() == ErrorKind::NotFound => Ok(()),
            Err(error) => Err(error),
        }
    }

    // The place of the open log of a number, which is opened where it isn't.
    fn log_place(&mut self, number: u64) -> io::Result<usize>
        ensures { IfOk result (λ place. place < vec_len self.new.logs) }
    {
        if let Some(place) = place_of(&self.logs, number) {
            return Ok(place);
        }
        let path = path_of(self.alloc, &self.path, 'w', number)?;
        let file = File::options()
            .read(true)
            .write(true)
            .open(&self.rt, path.as_str())?;
        let size = file.metadata()?.len();
        self.logs.push(LogFile {
            number,
            file,
            size,
            grew: false,
        })?;
        Ok(self.logs.len() - 1)
    }

    // Writes a file aside, syncs it, and renames it to its path. Where it fails, what was at the path is as it was.
    // The directory isn't synced yet. Gives the file's handle.
    fn put_aside(&self, path: &str, bytes: &[u8]) -> io::Result<File> {
        let mut aside = String::from_str(self.alloc, path)?;
        aside.push_str(".new")?;
        let file = File::options()
            .read(true)
            .write(true)
            .create(true)
            .truncate(true)
            .open(&self.rt, aside.as_str())?;
        file.write_all_at(bytes, 0)?;
        file.sync_all()?;
        fs::rename(&self.rt, aside.as_str(), path)?;
        Ok(file)
    }

    // The path of a name in the directory.
    fn path_to(&self, name: &str) -> io::Result<String> {
        let mut path = String::from_str(self.alloc, self.path.as_str())?;
        path.push('/')?;
        path.push_str(name)?;
        Ok(path)
    }
}

/// All bytes of an open file.
pub fn bytes_of(alloc: Global, file: &File) -> io::Result<Seq<u8>> {
    let size = file.metadata()?.len();
    let Ok(size) = usize::try_from(size) else {
        return Err(io::Error::from(ErrorKind::FileTooLarge));
    };
    let mut bytes = vec![in alloc; 0u8; size]?;
    file.read_exact_at(bytes.as_mut_slice(), 0)?;
    Ok(Seq::from_vec(alloc, bytes))
}

// The place of the open log of a number.
fn place_of(logs: &[LogFile], number: u64) -> Option<usize>
    ensures { IfSome result (λ place. place < length logs.now) }
{
    for (place, log) in logs.iter().enumerate() {
        if log.number == number {
            return Some(place);
        }
    }
    None
}

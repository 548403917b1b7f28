//! Files in memory.
ghost use Rattle.std.specs.Prelude.{◌≡◌, ℕ, map, IfOk};
ghost use Rattle.std.specs.Option.{option_copied};
ghost use Rattle.td_memdev.specs.Kept.{state_bytes, state_making, state_readers};
ghost use Rattle.td_memdev.specs.Entries.{with_readers, closed, marked, numbers_of, finished_entry};

use crate::table::Numbered;
use std::alloc::Global;
use td_layer::{NoMem, Seq};

/// A finished file: its bytes, how many readers of it are open, and whether a removal failed, so that a crash may leave
/// none.
#[derive(Drop)]
pub struct MemFile {
    pub bytes: Seq<u8>,
    pub readers: u64,
    pub removed: bool,
}

/// What there is under a number: a file in making, one that couldn't be finished, or a finished one.
#[derive(Drop)]
pub enum FileState {
    Making,
    Lost,
    Finished(MemFile),
}

/// A file and its number.
#[derive(Drop)]
pub struct FileEntry {
    pub number: u64,
    pub state: FileState,
}

impl Numbered for FileEntry {
    ghost number = { λ entry. entry.number };

    fn number(&self) -> u64 {
        self.number
    }
}

impl FileEntry {
    /// The bytes of a finished file.
    pub fn bytes(&self) -> Option<&Seq<u8>>
        ensures { option_copied result ≡ state_bytes self.now.state }
    {
        match &self.state {
            FileState::Finished(file) => Some(&file.bytes),
            _ => None,
        }
    }

    /// Whether the file is in making.
    pub fn is_making(&self) -> bool
        ensures { result ≡ state_making self.now.state }
    {
        matches!(&self.state, FileState::Making)
    }

    /// How many readers of the file are open.
    pub fn readers(&self) -> u64
        ensures { result ≡ state_readers self.now.state }
    {
        match &self.state {
            FileState::Finished(file) => file.readers,
            _ => 0,
        }
    }

    /// Sets how many readers of a finished file are open.
    pub fn set_readers(&mut self, readers: u64)
        ensures { self.new ≡ record self.old { state = with_readers readers self.old.state } }
    {
        if let FileState::Finished(file) = &mut self.state {
            file.readers = readers;
        }
    }

    /// Marks a finished file as one that a crash may take away.
    pub fn mark_removed(&mut self)
        ensures { self.new ≡ record self.old { state = marked self.old.state } }
    {
        if let FileState::Finished(file) = &mut self.state {
            file.removed = true;
        }
    }
}

/// Ends all open readers.
pub fn close_all(files: &mut [FileEntry])
    ensures { files.new ≡ map closed files.old }
{
    for entry in files.iter_mut() {
        entry.set_readers(0);
    }
}

/// The numbers of the finished files.
pub fn finished_numbers(alloc: Global, files: &[FileEntry]) -> Result<Seq<u64>, NoMem>
    ensures { IfOk result (λ numbers. numbers ≡ numbers_of files.now) }
{
    let mut numbers = Seq::new(alloc);
    for entry in files {
        if entry.bytes().is_some() {
            numbers.add(entry.number)?;
        }
    }
    Ok(numbers)
}

/// Entries of these finished files, by number.
pub fn entries_of_files(alloc: Global, files: &[(u64, Seq<u8>)]) -> Result<Vec<FileEntry>, NoMem>
    ensures { IfOk result (λ entries. entries.items ≡ map finished_entry files.now) }
{
    let mut entries = Vec::new(alloc);
    for pair in files {
        let bytes = pair.1.copy()?;
        let file = MemFile {
            bytes,
            readers: 0,
            removed: false,
        };
        let entry = FileEntry {
            number: pair.0,
            state: FileState::Finished(file),
        };
        entries.push(entry)?;
    }
    Ok(entries)
}

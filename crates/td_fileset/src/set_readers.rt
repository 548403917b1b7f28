//! The readers of file sets.
ghost use Rattle.std.specs.Prelude.{◌≡◌, ◌+◌, ◌<◌, ◌≤◌, [], ◌∷◌, length, map, sum, List, Some, None, MatchOption};
ghost use Rattle.td_fileset.specs.Sources.{Reads, InSttFile, InDataFile};
ghost use Rattle.td_fileset.specs.Layered.{opened, listed};
ghost use Rattle.td_fileset.specs.Pieces.{no_set};
ghost use Rattle.td_fileset.specs.Opened.{scan_reads, scan_count, with_kept, HasRoom, shown_count};

use crate::any_scan::AnyScan;
use std::alloc::Global;
use std::marker::Model;
use td_fileio::FileBytes;

/// The open readers of a file set: those of its stt files, the newest first, and that of its data file, where there is
/// one. Contracts see the files that they read, how often they failed together, and for how many readers of stt files
/// there is memory.
#[derive(Drop)]
pub struct SetReaders<R: FileBytes> {
    pub range: u32,
    pub stt: Vec<R>,
    pub main: Option<R>,
}

impl<R: FileBytes> Model for SetReaders<R> {
    ghost use Rattle.std.specs.Prelude.{◌≤◌, map, length, vec_capacity};
    ghost use Rattle.std.specs.Option.{option_map};
    ghost use Rattle.td_fileset.specs.Sources.{InSttFile, InDataFile};
    ghost use Rattle.td_fileset.specs.Layered.{opened, failed_of};
    ghost use Rattle.td_fileset.specs.Opened.{Readers};

    ghost Value = { Readers };

    ghost view = { λ s. record {
      files = record {
        range = s.range;
        stt = map (opened InSttFile R.bytes R.file R.size) s.stt.items;
        main = option_map (opened InDataFile R.bytes R.file R.size) s.main;
      };
      failed = failed_of R.count s.stt.items s.main;
      room = vec_capacity s.stt;
    } };

    ghost invariant = { λ s. length s.stt.items ≤ vec_capacity s.stt };
}

// How often readers failed together, up to the number's end.
fn faults_of<R: FileBytes>(readers: &[R]) -> u64
    ensures { result ≡ shown_count (sum (map R.count readers.now)) }
{
    let mut faults: u64 = 0;
    for reader in readers {
        faults = faults.saturating_add(reader.faults());
    }
    faults
}

impl<R: FileBytes> SetReaders<R> {
    // The set of no file.
    pub(crate) fn none(alloc: Global) -> SetReaders<R>
        ensures files { result.files ≡ no_set }
        ensures failed { result.failed ≡ 0 }
    {
        SetReaders {
            range: 0,
            stt: Vec::new(alloc),
            main: None,
        }
    }

    // Ends the set of no file, of which none failed.
    #[tactic(auto, using(crate::proofs::Advanced::none_failed))]
    pub(crate) fn done(self)
        requires stt { self.files.stt ≡ [] }
        requires main { self.files.main ≡ None }
        ensures { self.failed ≡ 0 }
    {
        let SetReaders {
            range: _,
            stt,
            main,
        } = self;
        stt.destroy_empty();
        match main {
            None => {}
            Some(_reader) => unreachable!(),
        }
    }

    // The day range.
    pub(crate) fn range(&self) -> u32
        ensures { result ≡ self.now.files.range }
    {
        self.range
    }

    // How often its readers failed together, up to the number's end.
    pub(crate) fn faults(&self) -> u64
        ensures { result ≡ shown_count self.now.failed }
    {
        let faults = faults_of(self.stt.as_slice());
        match &self.main {
            None => faults,
            Some(reader) => faults.saturating_add(reader.faults()),
        }
    }

    // There is room for the readers that are in the set.
    pub(crate) fn room(&self)
        ensures { HasRoom [] self.now }
    {
        let _ = &self.stt;
    }

    // Takes the reader of the oldest stt file out, or gives none where there is none.
    pub(crate) fn take_oldest(&mut self) -> Option<R>
        ensures files { MatchOption result ((self.new.files ≡ self.old.files) × (self.old.files.stt ≡ []))
            (λ r. self.old.files ≡ with_kept InSttFile (opened InSttFile R.bytes R.file R.size r) self.new.files) }
        ensures failed { MatchOption result (self.new.failed ≡ self.old.failed)
            (λ r. self.old.failed ≡ self.new.failed + R.count r) }
        ensures room { self.new.room ≡ self.old.room }
    {
        self.stt.pop()
    }

    // Takes the reader of the data file out, or gives none where there is none.
    pub(crate) fn take_data(&mut self) -> Option<R>
        ensures files { MatchOption result (self.new.files ≡ self.old.files)
            (λ r. self.old.files ≡ with_kept InDataFile (opened InDataFile R.bytes R.file R.size r) self.new.files) }
        ensures failed { MatchOption result (self.new.failed ≡ self.old.failed)
            (λ r. self.old.failed ≡ self.new.failed + R.count r) }
        ensures room { self.new.room ≡ self.old.room }
        ensures none { self.new.files.main ≡ None }
    {
        self.main.take()
    }

    // Puts the reader of an stt file behind the others.
    fn put_oldest(&mut self, reader: R)
        requires { length self.old.files.stt < self.old.room }
        ensures files { self.new.files
            ≡ with_kept InSttFile (opened InSttFile R.bytes R.file R.size reader) self.old.files }
        ensures failed { self.new.failed ≡ self.old.failed + R.count reader }
        ensures room { self.old.room ≤ self.new.room }
    {
        match self.stt.push(reader) {
            Ok(()) => {}
            Err(_failed) => unreachable!(),
        }
    }

    // Puts the reader of the data file in, where none is.
    fn put_data(&mut self, reader: R)
        requires { self.old.files.main ≡ None }
        ensures files { self.new.files
            ≡ with_kept InDataFile (opened InDataFile R.bytes R.file R.size reader) self.old.files }
        ensures failed { self.new.failed ≡ self.old.failed + R.count reader }
        ensures room { self.new.room ≡ self.old.room }
    {
        match self.main.replace(reader) {
            None => {}
            Some(_other) => unreachable!(),
        }
    }

    // Puts the reader of a scan where it belongs. A scan of a memtable has none.
    pub(crate) fn give_back(&mut self, scan: AnyScan<'_, R>)
        requires { HasRoom (scan_reads scan ∷ []) self.old }
        ensures files { self.new.files
            ≡ with_kept (scan_reads scan.entry).kept (scan_reads scan.entry) self.old.files }
        ensures failed { self.new.failed ≡ self.old.failed + scan_count scan.entry }
        ensures room { (rs : List Reads) → HasRoom (scan_reads scan.entry ∷ rs) self.old → HasRoom rs self.new }
    {
        match scan {
            AnyScan::Memtable(_) => {}
            AnyScan::Stt(scan) => self.put_oldest(scan.into_reader()),
            AnyScan::Data(scan) => self.put_data(scan.into_reader()),
        }
    }
}

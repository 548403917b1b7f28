//! A place, its store, and the store's readers and writers.
ghost use Rattle.std.specs.Prelude.{◌≡◌, ℕ, ◌+◌, ◌-◌, ◌^◌, ◌<◌, ◌≤◌, Bool, true, false, [], ◌∷◌, ◌++◌, List, Option, Some, None, length, IfSome, IfOk, OnOk, OnErr, IsErrOf, is_ok, IsOk};
ghost use Rattle.std.specs.Option.{option_map};
ghost use Rattle.td_outside.specs.Causes.{HasCause, HasFault, TakesOver, raised};
ghost use Rattle.td_outside.specs.Files.{NamesFiles, IsFinished, IsUnread, IsNew, after_create, after_abandon, GivesUp, Finishes, after_open, after_close, after_remove, after_failed_remove, after_swap, SwapFails, ReadsWithin, ReadsAt};
ghost use Rattle.td_outside.specs.Image.{Image, Along, Becomes, at_rest};
ghost use Rattle.td_outside.specs.Logs.{HasLog, after_write, after_sync, with_log, after_log_create, after_failed_log_create, after_log_drop, after_failed_log_drop, Tears};
ghost use Rattle.td_outside.specs.declared.faults.IoFault.TheVariants as io_fault;

use crate::faults::{Failed, IoFault};
use std::alloc::Global;
use td_layer::Seq;

/// A reader of a finished file. It is spent by [`Store::close_file`].
pub trait Reader: Send {
    /// The bytes of its file, where it tells them.
    ghost bytes: { Self → Option (List ℕ) };

    /// The number of its file.
    ghost file: { Self → ℕ };

    /// How many bytes its file has.
    ghost size: { Self → ℕ };

    /// How often it failed.
    ghost count: { Self → ℕ };

    /// The number of its file.
    fn name(&self) -> u64
        ensures { result ≡ file self.now };

    /// How many bytes its file has.
    fn len(&self) -> u64
        ensures size { result ≡ size self.now }
        ensures bytes { IfSome (bytes self.now) (λ b. length b ≡ result) };

    /// Reads bytes of its file from `at` on into the front of `buf`: at least one where the buffer isn't empty and `at`
    /// is less than `len`, and none behind the end. The file stays as it is.
    fn read_at(&mut self, at: u64, buf: &mut [u8]) -> Result<usize, Failed>
        ensures within { ReadsWithin (size self.old) at (length buf.new) result }
        ensures read { ReadsAt (bytes self.old) at buf.new result }
        ensures bytes { bytes self.new ≡ bytes self.old }
        ensures file { file self.new ≡ file self.old }
        ensures size { size self.new ≡ size self.old }
        ensures cause { HasCause (count self.old) (count self.new) result };

    /// How often it failed, up to the number's end.
    fn faults(&self) -> u64
        ensures { result ≡ count self.now };
}

/// A writer of a file in making. It is spent by [`Store::finish`] or [`Store::abandon`].
pub trait Writer: Send {
    /// The bytes that were written, where it tells them.
    ghost written: { Self → Option (List ℕ) };

    /// The name of its file in making.
    ghost name: { Self → ℕ };

    /// How often it failed.
    ghost count: { Self → ℕ };

    /// Adds a whole piece at the end, or nothing.
    fn write(&mut self, alloc: Global, bytes: &[u8]) -> Result<(), IoFault>
        ensures ok { OnOk result (Becomes (λ old. old ++ bytes.now) (written self.old) (written self.new)) }
        ensures failed { OnErr result (written self.new ≡ written self.old) }
        ensures name { name self.new ≡ name self.old }
        ensures no_memory { IsErrOf result io_fault.NoMemory → self.new ≡ self.old }
        ensures cause { HasFault (count self.old) (count self.new) result };

    /// How often it failed, up to the number's end.
    fn faults(&self) -> u64
        ensures { result ≡ count self.now };
}

/// A store: a head, logs by number, and finished files by number. What each call makes of them is said over what the
/// store tells; a store that tells nothing is held to the counts alone, and to what the calls answer.
///
/// What isn't named as changed stays. A call that finds no memory leaves the store as it was. A call that fails leaves
/// what a read gives as it was, but for a swap of the head, which may have been done, and for a write to a log, which
/// may have left anything in its range; what a crash may leave after it is told as a doubt.
pub trait Store: Send {
    type Reader: Reader;

    type Writer: Writer;

    /// Its image, where it tells it.
    ghost told: { Self → Option Image };

    /// How often it failed.
    ghost count: { Self → ℕ };

    /// The numbers of the finished files, each once.
    fn names(&mut self, alloc: Global) -> Result<Seq<u64>, IoFault>
        ensures names { IfOk result (λ names. IfSome (told self.old) (NamesFiles names)) }
        ensures same { told self.new ≡ told self.old }
        ensures no_memory { IsErrOf result io_fault.NoMemory → self.new ≡ self.old }
        ensures cause { HasFault (count self.old) (count self.new) result };

    /// Begins a new file, under a new name.
    fn create(&mut self, alloc: Global) -> Result<Self::Writer, IoFault>
        ensures new { IfOk result (λ w. IfSome (told self.old) (IsNew (Self.Writer.name w))) }
        ensures ok { IfOk result (λ w. Becomes (after_create (Self.Writer.name w)) (told self.old) (told self.new)) }
        ensures empty { IfOk result (λ w. Self.Writer.written w ≡ option_map (λ _. []) (told self.old)) }
        ensures writer { IfOk result (λ w. Self.Writer.count w ≡ 0) }
        ensures failed { OnErr result (told self.new ≡ told self.old) }
        ensures no_memory { IsErrOf result io_fault.NoMemory → self.new ≡ self.old }
        ensures cause { HasFault (count self.old) (count self.new) result };

    /// Makes a finished file of the writer's bytes, stable, under the number that it answers, which no finished file
    /// and no open reader had. Where it fails there is no file. The faults of the writer become the store's.
    fn finish(&mut self, w: Self::Writer) -> Result<u64, Failed>
        ensures number { IfOk result (λ n. n < 2 ^ 64 - 1) }
        ensures ok { IfOk result (λ n. IfSome (Self.Writer.written w)
            (λ bytes. Along (Finishes (Self.Writer.name w) n bytes) (told self.old) (told self.new))) }
        ensures untold { told self.old ≡ None → told self.new ≡ None }
        ensures failed { OnErr result (Along (GivesUp (Self.Writer.name w)) (told self.old) (told self.new)) }
        ensures cause { TakesOver (count self.old) (Self.Writer.count w) (count self.new) result };

    /// Gives an unfinished file up. The faults of the writer become the store's.
    fn abandon(&mut self, w: Self::Writer)
        ensures ok { Along (GivesUp (Self.Writer.name w)) (told self.old) (told self.new) }
        ensures over { raised (count self.old) (Self.Writer.count w) ≤ count self.new };

    /// A reader of a finished file.
    fn open_file(&mut self, alloc: Global, name: u64) -> Result<Self::Reader, IoFault>
        requires finished { IfSome (told self.old) (IsFinished name) }
        ensures ok { OnOk result (Becomes (after_open name) (told self.old) (told self.new)) }
        ensures bytes { IfOk result (λ r. IfSome (told self.old) (λ image. Self.Reader.bytes r ≡ image.files name)) }
        ensures file { IfOk result (λ r. Self.Reader.file r ≡ name) }
        ensures reader { IfOk result (λ r. Self.Reader.count r ≡ 0) }
        ensures failed { OnErr result (told self.new ≡ told self.old) }
        ensures no_memory { IsErrOf result io_fault.NoMemory → self.new ≡ self.old }
        ensures cause { HasFault (count self.old) (count self.new) result };

    /// Ends an open reader of the reader's file, where that file has one. The faults of the reader become the store's.
    fn close_file(&mut self, r: Self::Reader)
        ensures ok { Becomes (after_close (Self.Reader.file r)) (told self.old) (told self.new) }
        ensures over { raised (count self.old) (Self.Reader.count r) ≤ count self.new };

    /// Takes away a finished file of which no reader is open.
    fn remove(&mut self, name: u64) -> Result<(), Failed>
        requires unread { IfSome (told self.old) (IsUnread name) }
        ensures ok { OnOk result (Becomes (after_remove name) (told self.old) (told self.new)) }
        ensures failed { OnErr result (Becomes (after_failed_remove name) (told self.old) (told self.new)) }
        ensures cause { HasCause (count self.old) (count self.new) result };

    /// The head, or none.
    fn head_read(&mut self, alloc: Global) -> Result<Option<Seq<u8>>, IoFault>
        ensures head { IfOk result (λ head. IfSome (told self.old) (λ image. head ≡ image.head)) }
        ensures same { told self.new ≡ told self.old }
        ensures no_memory { IsErrOf result io_fault.NoMemory → self.new ≡ self.old }
        ensures cause { HasFault (count self.old) (count self.new) result };

    /// Puts these bytes in the place of the head, whole and stable. Where it fails the old or the new head is there.
    fn head_swap(&mut self, alloc: Global, bytes: &[u8]) -> Result<(), IoFault>
        ensures ok { OnOk result (Becomes (after_swap bytes.now) (told self.old) (told self.new)) }
        ensures failed { IsErrOf result io_fault.Failed → Along (SwapFails bytes.now) (told self.old) (told self.new) }
        ensures no_memory { IsErrOf result io_fault.NoMemory → self.new ≡ self.old }
        ensures cause { HasFault (count self.old) (count self.new) result };

    /// Puts a log whose one stable byte is a closed gate, 0, in the place of what is there.
    fn log_create(&mut self, alloc: Global, log: u64) -> Result<(), IoFault>
        ensures ok { OnOk result (Becomes (after_log_create log) (told self.old) (told self.new)) }
        ensures failed { IsErrOf result io_fault.Failed
            → Becomes (after_failed_log_create log) (told self.old) (told self.new) }
        ensures no_memory { IsErrOf result io_fault.NoMemory → self.new ≡ self.old }
        ensures cause { HasFault (count self.old) (count self.new) result };

    /// Writes over what is there, and past the end. Until a sync, a crash may leave any bytes in the range.
    fn log_append(&mut self, alloc: Global, log: u64, at: u64, bytes: &[u8]) -> Result<(), IoFault>
        requires within { IfSome (told self.old) (HasLog log (λ l. at ≤ length l.bytes)) }
        ensures ok { OnOk result (Becomes (with_log log (after_write at bytes.now)) (told self.old) (told self.new)) }
        ensures failed { IsErrOf result io_fault.Failed
            → Along (Tears log at (length bytes.now)) (told self.old) (told self.new) }
        ensures no_memory { IsErrOf result io_fault.NoMemory → self.new ≡ self.old }
        ensures cause { HasFault (count self.old) (count self.new) result };

    /// Writes the byte 1 at a place. Until a sync, a crash may leave any byte there.
    fn log_gate(&mut self, log: u64, at: u64) -> Result<(), Failed>
        requires within { IfSome (told self.old) (HasLog log (λ l. at < length l.bytes)) }
        ensures ok { OnOk result (Becomes (with_log log (after_write at (1 ∷ []))) (told self.old) (told self.new)) }
        ensures failed { OnErr result (Along (Tears log at 1) (told self.old) (told self.new)) }
        ensures cause { HasCause (count self.old) (count self.new) result };

    /// Makes all that a read of the log gives stable.
    fn log_sync(&mut self, log: u64) -> Result<(), Failed>
        requires there { IfSome (told self.old) (HasLog log (λ _. Unit {0})) }
        ensures ok { OnOk result (Becomes (with_log log after_sync) (told self.old) (told self.new)) }
        ensures failed { OnErr result (told self.new ≡ told self.old) }
        ensures cause { HasCause (count self.old) (count self.new) result };

    /// The bytes of a log, or none where it isn't there.
    fn log_read(&mut self, alloc: Global, log: u64) -> Result<Option<Seq<u8>>, IoFault>
        ensures bytes { IfOk result (λ bytes. IfSome (told self.old)
            (λ image. bytes ≡ option_map (λ l. l.bytes) (image.logs log))) }
        ensures same { told self.new ≡ told self.old }
        ensures no_memory { IsErrOf result io_fault.NoMemory → self.new ≡ self.old }
        ensures cause { HasFault (count self.old) (count self.new) result };

    /// Takes away a log. Of one that isn't there it is Ok and changes nothing.
    fn log_drop(&mut self, log: u64) -> Result<(), Failed>
        ensures ok { OnOk result (Becomes (after_log_drop log) (told self.old) (told self.new)) }
        ensures missing { IfSome (told self.old) (λ image. image.logs log ≡ None → IsOk result) }
        ensures failed { OnErr result (Becomes (after_failed_log_drop log) (told self.old) (told self.new)) }
        ensures cause { HasCause (count self.old) (count self.new) result };

    /// How often it failed, up to the number's end.
    fn faults(&self) -> u64
        ensures { result ≡ count self.now };
}

/// A place that has a store.
pub trait Place {
    type Dir: Store;

    /// The image of its store, where it tells it and the store isn't out.
    ghost told: { Self → Option Image };

    /// Whether its store is out. It is always told.
    ghost is_out: { Self → Bool };

    /// How often it failed.
    ghost count: { Self → ℕ };

    /// How often the stores failed that it took back.
    ghost taken: { Self → ℕ };

    /// Gives its store out, which has no fault so far and the image of the place with no reader open: a process that
    /// enters has opened none yet. Where it is refused, the store stays in, and its image is as it was.
    fn enter(&mut self, alloc: Global, name: &[u8]) -> Result<Self::Dir, IoFault>
        requires inside { is_out self.old ≡ false }
        ensures out { is_out self.new ≡ is_ok result }
        ensures image { IfOk result (λ dir. Self.Dir.told dir ≡ option_map at_rest (told self.old)) }
        ensures store { IfOk result (λ dir. Self.Dir.count dir ≡ 0) }
        ensures refused { OnErr result (told self.new ≡ told self.old) }
        ensures taken { taken self.new ≡ taken self.old }
        ensures no_memory { IsErrOf result io_fault.NoMemory → self.new ≡ self.old }
        ensures cause { HasFault (count self.old) (count self.new) result };

    /// Takes a store back, with its image and its faults, also where it fails.
    fn leave(&mut self, dir: Self::Dir) -> Result<(), Failed>
        ensures inside { is_out self.new ≡ false }
        ensures image { told self.new ≡ Self.Dir.told dir }
        ensures taken { raised (taken self.old) (Self.Dir.count dir) ≤ taken self.new }
        ensures cause { HasCause (count self.old) (count self.new) result };

    /// How often it failed, up to the number's end.
    fn faults(&self) -> u64
        ensures { result ≡ count self.now };

    /// How often the stores failed that it took back, up to the number's end.
    fn taken(&self) -> u64
        ensures { result ≡ taken self.now };
}

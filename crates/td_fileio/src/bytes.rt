//! The bytes of a finished file.
ghost use Rattle.std.specs.Prelude.{◌≡◌, ℕ, List, Option, IfSome, length};
ghost use Rattle.td_outside.specs.Causes.{HasCause};
ghost use Rattle.td_outside.specs.Files.{ReadsWithin, ReadsAt};

use td_outside::{Failed, Reader};

/// A finished file that is read: what each [`Reader`] is, without its bound `Send`, so that the methods of a scan,
/// whose trait has no such bound, can call functions over it.
pub trait FileBytes {
    /// The bytes of the file, where it tells them.
    ghost bytes: { Self → Option (List ℕ) };

    /// The number of the file.
    ghost file: { Self → ℕ };

    /// How many bytes the file has.
    ghost size: { Self → ℕ };

    /// How often reading failed.
    ghost count: { Self → ℕ };

    /// The number of the file.
    fn name(&self) -> u64
        ensures { result ≡ file self.now };

    /// How many bytes the file has.
    fn len(&self) -> u64
        ensures size { result ≡ size self.now }
        ensures bytes { IfSome (bytes self.now) (λ b. length b ≡ result) };

    /// Reads bytes of the file from `at` on into the front of `buf`: at least one where the buffer isn't empty and
    /// `at` is less than `len`, and none behind the end. The file stays as it is.
    fn read_at(&mut self, at: u64, buf: &mut [u8]) -> Result<usize, Failed>
        ensures within { ReadsWithin (size self.old) at (length buf.new) result }
        ensures read { ReadsAt (bytes self.old) at buf.new result }
        ensures bytes { bytes self.new ≡ bytes self.old }
        ensures file { file self.new ≡ file self.old }
        ensures size { size self.new ≡ size self.old }
        ensures cause { HasCause (count self.old) (count self.new) result };

    /// How often reading failed, up to the number's end.
    fn faults(&self) -> u64
        ensures { result ≡ count self.now };
}

impl<R: Reader> FileBytes for R {
    ghost bytes = { λ s. R.bytes s };

    ghost file = { λ s. R.file s };

    ghost size = { λ s. R.size s };

    ghost count = { λ s. R.count s };

    fn name(&self) -> u64 {
        Reader::name(self)
    }

    fn len(&self) -> u64 {
        Reader::len(self)
    }

    fn read_at(&mut self, at: u64, buf: &mut [u8]) -> Result<usize, Failed> {
        Reader::read_at(self, at, buf)
    }

    fn faults(&self) -> u64 {
        Reader::faults(self)
    }
}

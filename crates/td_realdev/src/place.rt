//! A place of the system: a directory under a name.
ghost use Rattle.std.specs.Prelude.{◌≡◌, false, None};

use crate::directory::Directory;
use crate::store::DirStore;
use std::alloc::Global;
use std::io::{self, ErrorKind};
use std::marker::Model;
use std::str;
use td_outside::{Failed, IoFault, Place, Store};

/// A place that enters the directory of a name, which it makes where it is missing, and locks it against other
/// processes while its store is out. Contracts see whether the store is out, and the counts.
#[derive(Drop)]
pub struct DirPlace {
    rt: HostRuntime,
    is_out: bool,
    faults: u64,
    taken: u64,
}

impl Model for DirPlace {
    ghost use Rattle.td_realdev.specs.Counts.{Holding};

    ghost Value = { Holding };

    ghost view = { λ p. record { is_out = p.is_out; faults = p.faults; taken = p.taken } };
}

impl DirPlace {
    /// The place of the system's directories, whose store isn't out, without a fault so far.
    pub fn new(rt: HostRuntime) -> DirPlace
        ensures { result ≡ record { is_out = false; faults = 0; taken = 0 } }
    {
        DirPlace {
            rt,
            is_out: false,
            faults: 0,
            taken: 0,
        }
    }
}

// Opens the directory of a name.
fn open(rt: &HostRuntime, alloc: Global, name: &[u8]) -> io::Result<Directory> {
    let Ok(name) = str::from_utf8(name) else {
        return Err(io::Error::from(ErrorKind::InvalidFilename));
    };
    let own = rt.clone()?;
    Directory::open(own, alloc, name)
}

impl Place for DirPlace {
    type Dir = DirStore;

    ghost told = { λ p. None };

    ghost is_out = { λ p. p.is_out };

    ghost count = { λ p. p.faults };

    ghost taken = { λ p. p.taken };

    fn enter(&mut self, alloc: Global, name: &[u8]) -> Result<DirStore, IoFault> {
        match open(&self.rt, alloc, name) {
            Ok(directory) => {
                self.is_out = true;
                Ok(DirStore::new(directory))
            }
            Err(error) => {
                if error.kind() == ErrorKind::OutOfMemory {
                    return Err(IoFault::NoMemory);
                }
                self.faults = self.faults.saturating_add(1);
                Err(IoFault::Failed)
            }
        }
    }

    /// The directory is closed, and its lock ends. It never fails.
    fn leave(&mut self, dir: DirStore) -> Result<(), Failed> {
        self.taken = self.taken.saturating_add(dir.faults());
        self.is_out = false;
        Ok(())
    }

    fn faults(&self) -> u64 {
        self.faults
    }

    fn taken(&self) -> u64 {
        self.taken
    }
}

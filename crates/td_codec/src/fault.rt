//! Why a field was not read.
ghost use Rattle.std.specs.Prelude.{◌≡◌};
ghost use Rattle.td_codec.specs.declared.fault.ReadFault.TheVariants.{NoMemory};

use std::alloc::AllocError;
use td_layer::NoMem;

/// Why bytes were not read: there was no memory; or a field is cut short or breaks its rule, and so many bytes are left
/// where the first such field begins.
#[derive(Clone, Copy, Debug, PartialEq, Eq)]
pub enum ReadFault {
    NoMemory,
    Broken(usize),
}

impl From<NoMem> for ReadFault {
    ghost from_gives = { λ _ e. e ≡ NoMemory };

    fn from(_: NoMem) -> ReadFault {
        ReadFault::NoMemory
    }
}

impl From<AllocError> for ReadFault {
    ghost from_gives = { λ _ e. e ≡ NoMemory };

    fn from(_: AllocError) -> ReadFault {
        ReadFault::NoMemory
    }
}

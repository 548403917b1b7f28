//! Why a head was not read.
ghost use Rattle.std.specs.Prelude.{◌≡◌};
ghost use Rattle.td_manifest.specs.declared.fault.HeadFault.TheVariants.{NoMemory};

use td_layer::NoMem;

/// Why bytes were not read as a head: they break its form first at this place; or there was no memory.
#[derive(Clone, Copy, Debug, PartialEq, Eq)]
pub enum HeadFault {
    NotThis(u64),
    NoMemory,
}

impl From<NoMem> for HeadFault {
    ghost from_gives = { λ _ e. e ≡ NoMemory };

    fn from(_: NoMem) -> HeadFault {
        HeadFault::NoMemory
    }
}

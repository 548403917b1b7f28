//! Why a call on the outside was not done.
ghost use Rattle.std.specs.Prelude.{◌≡◌};
ghost use Rattle.td_outside.specs.declared.faults.IoFault.TheVariants as io_fault;

use td_layer::NoMem;

/// A call on the outside failed, and the count of faults of the object has risen.
#[derive(Clone, Copy, Debug, PartialEq, Eq)]
pub struct Failed;

/// Why a call on the outside that takes memory was not done. `NoMemory` leaves the object as it was.
#[derive(Clone, Copy, Debug, PartialEq, Eq)]
pub enum IoFault {
    Failed,
    NoMemory,
}

impl From<Failed> for IoFault {
    ghost from_gives = { λ _ e. e ≡ io_fault.Failed };

    fn from(_: Failed) -> IoFault {
        IoFault::Failed
    }
}

impl From<NoMem> for IoFault {
    ghost from_gives = { λ _ e. e ≡ io_fault.NoMemory };

    fn from(_: NoMem) -> IoFault {
        IoFault::NoMemory
    }
}

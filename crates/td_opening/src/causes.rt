//! Why a store was not opened.
ghost use Rattle.std.specs.Prelude.{◌≡◌};

use td_layer::NoMem;
use td_outside::{Failed, IoFault};
use td_stands::FileId;

/// Why a store was not opened: the store failed; a file of it breaks its form first at a place, in bytes from 0; or
/// there was no memory.
#[derive(Clone, Copy)]
pub enum OpenCause {
    StoreFault,
    NotThisStore { file: FileId, at: u64 },
    NoMemory,
}

impl From<IoFault> for OpenCause {
    ghost use Rattle.td_opening.specs.Opening.{open_cause};

    ghost from_gives = { λ fault cause. cause ≡ open_cause fault };

    fn from(fault: IoFault) -> OpenCause {
        match fault {
            IoFault::Failed => OpenCause::StoreFault,
            IoFault::NoMemory => OpenCause::NoMemory,
        }
    }
}

impl From<Failed> for OpenCause {
    ghost use Rattle.td_opening.specs.declared.causes.OpenCause.TheVariants as causes;

    ghost from_gives = { λ _ cause. cause ≡ causes.StoreFault };

    fn from(_: Failed) -> OpenCause {
        OpenCause::StoreFault
    }
}

impl From<NoMem> for OpenCause {
    ghost use Rattle.td_opening.specs.declared.causes.OpenCause.TheVariants as causes;

    ghost from_gives = { λ _ cause. cause ≡ causes.NoMemory };

    fn from(_: NoMem) -> OpenCause {
        OpenCause::NoMemory
    }
}

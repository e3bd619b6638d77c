//! How a run ends.
ghost use Rattle.std.specs.Prelude.{◌≡◌};
ghost use Rattle.mn_perform.specs.declared.ended.Fault.TheVariants.{Write, NoMemory};

use mn_edge::DeviceBad;
use std::alloc::{AllocError, AllocFailed};

/// How a run ended that met no fault.
#[derive(Clone, Copy, Debug, PartialEq, Eq)]
pub enum Ended {
    /// All its lines were played.
    All,
    /// A line met a full journal, and no line after it was played.
    TooManySteps,
}

/// Why a run was cut off.
#[derive(Clone, Copy, Debug, PartialEq, Eq)]
pub enum Fault {
    /// The shelf failed to read.
    Read,
    /// The shelf or the sink failed to write.
    Write,
    /// Memory ran out.
    NoMemory,
}

ghost use Rattle.mn_perform.specs.Fails.{fault_of};

/// A call that writes failed.
impl From<DeviceBad> for Fault {
    ghost from_gives = { λ bad fault. fault ≡ fault_of bad };

    fn from(bad: DeviceBad) -> Self {
        match bad {
            DeviceBad::Failed => Fault::Write,
            DeviceBad::NoMemory => Fault::NoMemory,
        }
    }
}

impl From<AllocError> for Fault {
    ghost from_gives = { λ _ fault. fault ≡ NoMemory };

    fn from(_: AllocError) -> Self {
        Fault::NoMemory
    }
}

impl<T: Drop> From<AllocFailed<T>> for Fault {
    ghost from_gives = { λ _ fault. fault ≡ NoMemory };

    fn from(_: AllocFailed<T>) -> Self {
        Fault::NoMemory
    }
}

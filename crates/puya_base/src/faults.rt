use crate::memory::Memory;
use std::alloc::{AllocError, AllocFailed};

/// Why a file was not read or not written. `Missing` and `TooLong` come from a read alone.
#[derive(Clone, Copy, Debug, PartialEq, Eq)]
pub enum FileFault {
    Missing,
    TooLong,
    Failed,
    Memory,
}

/// Why a sink did not take all the bytes.
#[derive(Clone, Copy, Debug, PartialEq, Eq)]
pub enum SinkFault {
    Failed,
    Memory,
}

/// Why a step of the machine did not act: it fails by its definition, or memory ran out.
#[derive(Clone, Copy, Debug, PartialEq, Eq)]
pub enum StepFault {
    Fails,
    Memory,
}

impl From<Memory> for StepFault {
    ghost use Rattle.std.specs.Prelude.{◌≡◌};
    ghost use Rattle.puya_base.specs.declared.faults.StepFault.{StepFault};

    ghost from_gives = { λ _ e. e ≡ StepFault.Memory };

    fn from(_e: Memory) -> StepFault {
        StepFault::Memory
    }
}

impl From<AllocError> for StepFault {
    ghost use Rattle.std.specs.Prelude.{◌≡◌};
    ghost use Rattle.puya_base.specs.declared.faults.StepFault.{StepFault};

    ghost from_gives = { λ _ e. e ≡ StepFault.Memory };

    fn from(_e: AllocError) -> StepFault {
        StepFault::Memory
    }
}

impl<T: Drop> From<AllocFailed<T>> for StepFault {
    ghost use Rattle.std.specs.Prelude.{◌≡◌};
    ghost use Rattle.puya_base.specs.declared.faults.StepFault.{StepFault};

    ghost from_gives = { λ _ e. e ≡ StepFault.Memory };

    fn from(_e: AllocFailed<T>) -> StepFault {
        StepFault::Memory
    }
}

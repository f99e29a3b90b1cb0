use puya_base::Memory;
use std::alloc::{AllocError, AllocFailed};

/// Why no immediate was read.
#[derive(Clone, Copy, Debug, PartialEq, Eq)]
pub enum ImmFault {
    /// The bytes end.
    Cut,
    /// The byte is no field of the row.
    Outside(u8),
    /// A number isn't spelled in its shortest form, or is 2^64 or more.
    Overlong,
    Memory,
}

impl From<Memory> for ImmFault {
    ghost use Rattle.std.specs.Prelude.{◌≡◌};
    ghost use Rattle.avm_ops.specs.declared.imm_fault.ImmFault.{ImmFault};

    ghost from_gives = { λ _ e. e ≡ ImmFault.Memory };

    fn from(_e: Memory) -> ImmFault {
        ImmFault::Memory
    }
}

impl From<AllocError> for ImmFault {
    ghost use Rattle.std.specs.Prelude.{◌≡◌};
    ghost use Rattle.avm_ops.specs.declared.imm_fault.ImmFault.{ImmFault};

    ghost from_gives = { λ _ e. e ≡ ImmFault.Memory };

    fn from(_e: AllocError) -> ImmFault {
        ImmFault::Memory
    }
}

impl<T: Drop> From<AllocFailed<T>> for ImmFault {
    ghost use Rattle.std.specs.Prelude.{◌≡◌};
    ghost use Rattle.avm_ops.specs.declared.imm_fault.ImmFault.{ImmFault};

    ghost from_gives = { λ _ e. e ≡ ImmFault.Memory };

    fn from(_e: AllocFailed<T>) -> ImmFault {
        ImmFault::Memory
    }
}

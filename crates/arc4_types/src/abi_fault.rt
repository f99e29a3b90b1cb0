ghost use Rattle.std.specs.Prelude.{◌≡◌};
ghost use Rattle.arc4_types.specs.declared.abi_fault.AbiFault.TheVariants as fault;

use puya_base::Memory;
use std::alloc::{AllocError, AllocFailed};

/// Why bytes are no encoding of a type: the first fault of reading them from left to right. `Memory` is want of memory.
#[derive(Clone, Copy, Debug, PartialEq, Eq)]
pub enum AbiFault {
    /// Bytes are missing, or some are left over.
    Length,
    /// An offset isn't where its tail begins.
    Offset,
    /// The byte of a bool is neither 00 nor 80, or a bit that stands for no bool is set.
    Bit,
    Memory,
}

impl From<Memory> for AbiFault {
    ghost from_gives = { λ _ e. e ≡ fault.Memory };

    fn from(_e: Memory) -> AbiFault {
        AbiFault::Memory
    }
}

impl From<AllocError> for AbiFault {
    ghost from_gives = { λ _ e. e ≡ fault.Memory };

    fn from(_e: AllocError) -> AbiFault {
        AbiFault::Memory
    }
}

impl<T: Drop> From<AllocFailed<T>> for AbiFault {
    ghost from_gives = { λ _ e. e ≡ fault.Memory };

    fn from(_e: AllocFailed<T>) -> AbiFault {
        AbiFault::Memory
    }
}

//! What a contract is compiled to.

use puya_base::{Blob, List, Memory, Name, Refusal, SourceFault};
use std::alloc::{AllocError, AllocFailed};

/// The two programs of a contract, and its description (ARC-56), which is none until descriptions are written.
#[derive(Drop)]
pub struct Build {
    pub name: Name,
    pub approval: Blob,
    pub clear: Blob,
    pub arc56: Option<Blob>,
}

/// One for each contract, in reading order.
pub type Builds = List<Build>;

/// Why a source was not compiled.
#[derive(Clone, Copy, Debug, PartialEq, Eq)]
pub enum CompileFault {
    /// The first rule that the source breaks, and where.
    Refused(Refusal),
    /// The source uses a form of the language that is not built yet and breaks none of P01 to P07, or it breaks no rule and is
    /// not of the one form that is compiled.
    NotBuilt,
    Memory,
}

impl From<Memory> for CompileFault {
    ghost use Rattle.std.specs.Prelude.{◌≡◌};
    ghost use Rattle.compiler.specs.declared.build.CompileFault.{CompileFault};

    ghost from_gives = { λ _ e. e ≡ CompileFault.Memory };

    fn from(_e: Memory) -> CompileFault {
        CompileFault::Memory
    }
}

impl From<AllocError> for CompileFault {
    ghost use Rattle.std.specs.Prelude.{◌≡◌};
    ghost use Rattle.compiler.specs.declared.build.CompileFault.{CompileFault};

    ghost from_gives = { λ _ e. e ≡ CompileFault.Memory };

    fn from(_e: AllocError) -> CompileFault {
        CompileFault::Memory
    }
}

impl<T: Drop> From<AllocFailed<T>> for CompileFault {
    ghost use Rattle.std.specs.Prelude.{◌≡◌};
    ghost use Rattle.compiler.specs.declared.build.CompileFault.{CompileFault};

    ghost from_gives = { λ _ e. e ≡ CompileFault.Memory };

    fn from(_e: AllocFailed<T>) -> CompileFault {
        CompileFault::Memory
    }
}

impl From<SourceFault> for CompileFault {
    ghost use Rattle.std.specs.Prelude.{◌≡◌};
    ghost use Rattle.compiler.specs.Source.{fault_of};

    ghost from_gives = { λ f e. e ≡ fault_of f };

    fn from(fault: SourceFault) -> CompileFault {
        match fault {
            SourceFault::Refused(refusal) => CompileFault::Refused(refusal),
            SourceFault::Memory => CompileFault::Memory,
        }
    }
}

use crate::memory::Memory;
use std::alloc::{AllocError, AllocFailed};

/// A place in a source: its line from 1, and its column in bytes from 1, after a byte order mark.
/// Line 0 and column 0 stand for no place of the source.
#[derive(Clone, Copy, Debug, PartialEq, Eq)]
pub struct Place {
    pub line: u32,
    pub col: u32,
}

/// The rules that a source can break, in the order in which ties are settled.
#[derive(Clone, Copy, Debug, PartialEq, Eq)]
pub enum Rule {
    P01,
    P02,
    P03,
    P04,
    P05,
    P06,
    P07,
    P08,
    P09,
    P10,
    P11,
    P12,
    P13,
    P14,
    P15,
    P16,
    P17,
    P18,
    P19,
    P20,
    P21,
    P22,
    P23,
    P24,
    P25,
}

/// A broken rule, and where it is broken.
#[derive(Clone, Copy, Debug, PartialEq, Eq)]
pub struct Refusal {
    pub rule: Rule,
    pub place: Place,
}

/// Why a source was not read.
#[derive(Clone, Copy, Debug, PartialEq, Eq)]
pub enum SourceFault {
    Refused(Refusal),
    Memory,
}

impl From<Memory> for SourceFault {
    ghost use Rattle.std.specs.Prelude.{◌≡◌};
    ghost use Rattle.puya_base.specs.declared.source.SourceFault.{SourceFault};

    ghost from_gives = { λ _ e. e ≡ SourceFault.Memory };

    fn from(_e: Memory) -> SourceFault {
        SourceFault::Memory
    }
}

impl From<AllocError> for SourceFault {
    ghost use Rattle.std.specs.Prelude.{◌≡◌};
    ghost use Rattle.puya_base.specs.declared.source.SourceFault.{SourceFault};

    ghost from_gives = { λ _ e. e ≡ SourceFault.Memory };

    fn from(_e: AllocError) -> SourceFault {
        SourceFault::Memory
    }
}

impl<T: Drop> From<AllocFailed<T>> for SourceFault {
    ghost use Rattle.std.specs.Prelude.{◌≡◌};
    ghost use Rattle.puya_base.specs.declared.source.SourceFault.{SourceFault};

    ghost from_gives = { λ _ e. e ≡ SourceFault.Memory };

    fn from(_e: AllocFailed<T>) -> SourceFault {
        SourceFault::Memory
    }
}

/// How much the compiler optimises.
#[derive(Clone, Copy, Debug, PartialEq, Eq)]
pub enum Level {
    L0,
    L1,
    L2,
}

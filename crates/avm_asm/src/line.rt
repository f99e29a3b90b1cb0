use avm_ops::Instr;
use puya_base::{List, Memory};
use std::alloc::AllocError;

/// The labels that a table names, at most 255 of them.
pub type Labels = List<u32>;

/// The lines of a program, in its order.
pub type Lines = List<Line>;

/// An instruction with one branch.
#[derive(Clone, Copy, Debug, PartialEq, Eq)]
pub enum JumpKind {
    Bnz,
    Bz,
    B,
    Callsub,
}

/// An instruction with a branch for each of its labels.
#[derive(Clone, Copy, Debug, PartialEq, Eq)]
pub enum TableKind {
    Switch,
    Match,
}

/// A line of a program before its places are known: labels go by numbers.
#[derive(Drop)]
pub enum Line {
    /// An instruction that doesn't branch.
    Op(Instr),
    /// The place behind it has this label. It takes no bytes.
    Label(u32),
    Jump(JumpKind, u32),
    Table(TableKind, Labels),
}

/// Why lines have no code; the first of these that shows, in the order of judging.
#[derive(Clone, Copy, Debug, PartialEq, Eq)]
pub enum AsmFault {
    /// That label is named and stands nowhere.
    NoLabel(u32),
    /// That label stands a second time.
    TwiceLabel(u32),
    /// A branch to that label would lead so many bytes on, which 16 signed bits don't hold.
    Far(u32, i64),
    Memory,
}

impl From<AllocError> for AsmFault {
    ghost use Rattle.std.specs.Prelude.{◌≡◌};
    ghost use Rattle.avm_asm.specs.declared.line.AsmFault.{AsmFault};

    ghost from_gives = { λ _ e. e ≡ AsmFault.Memory };

    fn from(_e: AllocError) -> AsmFault {
        AsmFault::Memory
    }
}

impl From<Memory> for AsmFault {
    ghost use Rattle.std.specs.Prelude.{◌≡◌};
    ghost use Rattle.avm_asm.specs.declared.line.AsmFault.{AsmFault};

    ghost from_gives = { λ _ e. e ≡ AsmFault.Memory };

    fn from(_e: Memory) -> AsmFault {
        AsmFault::Memory
    }
}

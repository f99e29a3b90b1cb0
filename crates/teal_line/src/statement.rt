use avm_asm::{JumpKind, TableKind};
use avm_ops::Instr;
use puya_base::{List, Memory, Name};
use std::alloc::{AllocError, AllocFailed};

/// Label names, in the order of their line.
pub type Names = List<Name>;

/// What a line of TEAL text says: labels go by their names.
#[derive(Drop)]
pub enum Statement {
    /// An instruction that doesn't branch.
    Op(Instr),
    /// The place behind it has this label.
    Label(Name),
    Jump(JumpKind, Name),
    Table(TableKind, Names),
}

/// Why a line says nothing; the first of these that shows, in this order.
#[derive(Clone, Copy, Debug, PartialEq, Eq)]
pub enum Flaw {
    /// An unknown instruction or field, or a label of other characters than a label has.
    Word,
    /// More or fewer immediates than the instruction takes.
    Count,
    /// An immediate that is no number, or none of its range.
    Number,
    /// An immediate that is no byte string.
    Bytes,
    Memory,
}

impl From<Memory> for Flaw {
    ghost use Rattle.std.specs.Prelude.{◌≡◌};
    ghost use Rattle.teal_line.specs.declared.statement.Flaw.{Flaw};

    ghost from_gives = { λ _ e. e ≡ Flaw.Memory };

    fn from(_e: Memory) -> Flaw {
        Flaw::Memory
    }
}

impl From<AllocError> for Flaw {
    ghost use Rattle.std.specs.Prelude.{◌≡◌};
    ghost use Rattle.teal_line.specs.declared.statement.Flaw.{Flaw};

    ghost from_gives = { λ _ e. e ≡ Flaw.Memory };

    fn from(_e: AllocError) -> Flaw {
        Flaw::Memory
    }
}

impl<T: Drop> From<AllocFailed<T>> for Flaw {
    ghost use Rattle.std.specs.Prelude.{◌≡◌};
    ghost use Rattle.teal_line.specs.declared.statement.Flaw.{Flaw};

    ghost from_gives = { λ _ e. e ≡ Flaw.Memory };

    fn from(_e: AllocFailed<T>) -> Flaw {
        Flaw::Memory
    }
}

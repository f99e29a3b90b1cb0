use puya_base::Memory;

/// Why a text is no TEAL, with the number of its line from 1; the first line that shows one, and there the first in this order.
#[derive(Clone, Copy, Debug, PartialEq, Eq)]
pub enum TealFault {
    /// A byte of 128 or more.
    NotAscii(u32),
    /// The first line that isn't empty isn't `#pragma version 10`, or a later pragma is none that is known.
    Pragma(u32),
    /// An unknown instruction or field, or a label of other characters than a label has.
    Word(u32),
    /// More or fewer immediates than the instruction takes, or over 255 labels.
    Count(u32),
    /// An immediate that is no number, or none of its range.
    Number(u32),
    /// An immediate that is no byte string.
    Bytes(u32),
    Memory,
}

impl From<Memory> for TealFault {
    ghost use Rattle.std.specs.Prelude.{◌≡◌};
    ghost use Rattle.teal_text.specs.declared.fault.TealFault.{TealFault};

    ghost from_gives = { λ _ e. e ≡ TealFault.Memory };

    fn from(_e: Memory) -> TealFault {
        TealFault::Memory
    }
}

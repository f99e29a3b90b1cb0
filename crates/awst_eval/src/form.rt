//! The table of the operators and the forms of the library.

ghost use Rattle.std.specs.Prelude.{◌≡◌};
ghost use Rattle.awst.specs.Forms.{action_of as action_there};
ghost use Rattle.awst_eval.specs.Computing.{action_shown};

use awst::Primitive;

/// The members of Txn and Global.
#[derive(Clone, Copy, Debug, PartialEq, Eq)]
pub(crate) enum Member {
    Sender,
    Fee,
    Note,
    OnCompletion,
    ArgumentCount,
    /// 0 in a creating call.
    CalledApplication,
    ZeroAddress,
    CreatorAddress,
    Round,
    LatestTimestamp,
    CurrentApplication,
}

/// A form that depends on its parts and the call alone.
#[derive(Clone, Copy, Debug, PartialEq, Eq)]
pub(crate) enum Form {
    /// What the instruction of a value row with that opcode leaves.
    Instruction(u8),
    /// Whether it leaves a number that is not 0.
    Test(u8),
    /// Whether the part's truth is as said.
    HasTruth(bool),
    /// A bool as 1 or 0.
    NumberOfFlag,
    SameBytes,
    ByteAt,
    /// With or without a start, with or without an end.
    Slice(bool, bool),
    Of(Member),
    Argument,
}

/// What a form does.
#[derive(Clone, Copy, Debug, PartialEq, Eq)]
pub(crate) enum Action {
    Computes(Form),
    /// One log of the joined parts.
    LogsParts,
}

/// What an operator or a form of the library does (AVM specification, "Opcodes").
pub(crate) fn action_of(prim: Primitive) -> Action
    ensures { action_shown result ≡ action_there prim }
{
    match prim {
        Primitive::Less => Action::Computes(Form::Test(0x0c)),
        Primitive::Greater => Action::Computes(Form::Test(0x0d)),
        Primitive::AtMost => Action::Computes(Form::Test(0x0e)),
        Primitive::AtLeast => Action::Computes(Form::Test(0x0f)),
        Primitive::Equal => Action::Computes(Form::Test(0x12)),
        Primitive::NotEqual => Action::Computes(Form::Test(0x13)),
        Primitive::Not => Action::Computes(Form::HasTruth(false)),
        Primitive::Truth => Action::Computes(Form::HasTruth(true)),
        Primitive::NumberOfBool => Action::Computes(Form::NumberOfFlag),
        Primitive::ByteAt => Action::Computes(Form::ByteAt),
        Primitive::SliceAll => Action::Computes(Form::Slice(false, false)),
        Primitive::SliceFrom => Action::Computes(Form::Slice(true, false)),
        Primitive::SliceTo => Action::Computes(Form::Slice(false, true)),
        Primitive::SliceBetween => Action::Computes(Form::Slice(true, true)),
        Primitive::BytesOf => Action::Computes(Form::SameBytes),
        Primitive::TxnSender => Action::Computes(Form::Of(Member::Sender)),
        Primitive::TxnFee => Action::Computes(Form::Of(Member::Fee)),
        Primitive::TxnNote => Action::Computes(Form::Of(Member::Note)),
        Primitive::TxnOnCompletion => Action::Computes(Form::Of(Member::OnCompletion)),
        Primitive::TxnNumAppArgs => Action::Computes(Form::Of(Member::ArgumentCount)),
        Primitive::TxnApplicationId => Action::Computes(Form::Of(Member::CalledApplication)),
        Primitive::TxnApplicationArgs => Action::Computes(Form::Argument),
        Primitive::GlobalZeroAddress => Action::Computes(Form::Of(Member::ZeroAddress)),
        Primitive::GlobalCreatorAddress => Action::Computes(Form::Of(Member::CreatorAddress)),
        Primitive::GlobalRound => Action::Computes(Form::Of(Member::Round)),
        Primitive::GlobalLatestTimestamp => Action::Computes(Form::Of(Member::LatestTimestamp)),
        Primitive::GlobalCurrentApplicationId => {
            Action::Computes(Form::Of(Member::CurrentApplication))
        }
        Primitive::Log => Action::LogsParts,
        Primitive::Add => Action::Computes(Form::Instruction(0x08)),
        Primitive::Sub => Action::Computes(Form::Instruction(0x09)),
        Primitive::Mul => Action::Computes(Form::Instruction(0x0b)),
        Primitive::FloorDiv => Action::Computes(Form::Instruction(0x0a)),
        Primitive::Mod => Action::Computes(Form::Instruction(0x18)),
        Primitive::Power | Primitive::OpExp => Action::Computes(Form::Instruction(0x94)),
        Primitive::ShiftLeft | Primitive::OpShl => Action::Computes(Form::Instruction(0x90)),
        Primitive::ShiftRight | Primitive::OpShr => Action::Computes(Form::Instruction(0x91)),
        Primitive::BitAnd => Action::Computes(Form::Instruction(0x1a)),
        Primitive::BitOr => Action::Computes(Form::Instruction(0x19)),
        Primitive::BitXor => Action::Computes(Form::Instruction(0x1b)),
        Primitive::Invert => Action::Computes(Form::Instruction(0x1c)),
        Primitive::Join | Primitive::OpConcat => Action::Computes(Form::Instruction(0x50)),
        Primitive::Length => Action::Computes(Form::Instruction(0x15)),
        Primitive::OpAddw => Action::Computes(Form::Instruction(0x1e)),
        Primitive::OpMulw => Action::Computes(Form::Instruction(0x1d)),
        Primitive::OpBitlen => Action::Computes(Form::Instruction(0x93)),
        Primitive::OpItob => Action::Computes(Form::Instruction(0x16)),
        Primitive::OpSqrt => Action::Computes(Form::Instruction(0x92)),
        Primitive::OpSha256 => Action::Computes(Form::Instruction(0x01)),
        Primitive::OpSha512Of256 => Action::Computes(Form::Instruction(0x03)),
        Primitive::OpBtoi => Action::Computes(Form::Instruction(0x17)),
        Primitive::OpBzero => Action::Computes(Form::Instruction(0xaf)),
        Primitive::OpDivmodw => Action::Computes(Form::Instruction(0x1f)),
        Primitive::OpDivw => Action::Computes(Form::Instruction(0x97)),
        Primitive::OpExtract => Action::Computes(Form::Instruction(0x58)),
        Primitive::OpExtractUint16 => Action::Computes(Form::Instruction(0x59)),
        Primitive::OpExtractUint32 => Action::Computes(Form::Instruction(0x5a)),
        Primitive::OpExtractUint64 => Action::Computes(Form::Instruction(0x5b)),
        Primitive::OpGetbit => Action::Computes(Form::Instruction(0x53)),
        Primitive::OpGetbyte => Action::Computes(Form::Instruction(0x55)),
        Primitive::OpReplace => Action::Computes(Form::Instruction(0x5d)),
        Primitive::OpSetbitBytes | Primitive::OpSetbitUint64 => {
            Action::Computes(Form::Instruction(0x54))
        }
        Primitive::OpSetbyte => Action::Computes(Form::Instruction(0x56)),
        Primitive::OpSubstring => Action::Computes(Form::Instruction(0x52)),
    }
}

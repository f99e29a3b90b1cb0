use crate::rows::{
    Action, Arithmetic, Comparison, ConstantRow, Count, FieldRow, Fields, FlowRow, Format, Hash,
    Part, Row, ScratchRow, StackRow, StateRow, Unary, ValueRow, Wide, Word,
};

/// The rows of the opcodes below 128, by their opcodes.
pub(super) static LOW: [Option<Row>; 128] = [
    // 00 err
    entry!(
        Format::Nothing,
        Action::Flow(FlowRow::Fail),
        1,
        only!(0),
        only!(0)
    ),
    // 01 sha256
    entry!(
        Format::Nothing,
        Action::Value(ValueRow::Hash(Hash::Sha256)),
        35,
        only!(1),
        only!(1)
    ),
    None,
    // 03 sha512_256
    entry!(
        Format::Nothing,
        Action::Value(ValueRow::Hash(Hash::Sha512Of256)),
        45,
        only!(1),
        only!(1)
    ),
    None,
    None,
    None,
    None,
    // 08 +
    entry!(
        Format::Nothing,
        Action::Value(ValueRow::Arithmetic(Arithmetic::Add)),
        1,
        only!(2),
        only!(1)
    ),
    // 09 -
    entry!(
        Format::Nothing,
        Action::Value(ValueRow::Arithmetic(Arithmetic::Subtract)),
        1,
        only!(2),
        only!(1)
    ),
    // 0a /
    entry!(
        Format::Nothing,
        Action::Value(ValueRow::Arithmetic(Arithmetic::Divide)),
        1,
        only!(2),
        only!(1)
    ),
    // 0b *
    entry!(
        Format::Nothing,
        Action::Value(ValueRow::Arithmetic(Arithmetic::Multiply)),
        1,
        only!(2),
        only!(1)
    ),
    // 0c <
    entry!(
        Format::Nothing,
        Action::Value(ValueRow::Comparison(Comparison::Less)),
        1,
        only!(2),
        only!(1)
    ),
    // 0d >
    entry!(
        Format::Nothing,
        Action::Value(ValueRow::Comparison(Comparison::Greater)),
        1,
        only!(2),
        only!(1)
    ),
    // 0e <=
    entry!(
        Format::Nothing,
        Action::Value(ValueRow::Comparison(Comparison::LessOrEqual)),
        1,
        only!(2),
        only!(1)
    ),
    // 0f >=
    entry!(
        Format::Nothing,
        Action::Value(ValueRow::Comparison(Comparison::GreaterOrEqual)),
        1,
        only!(2),
        only!(1)
    ),
    // 10 &&
    entry!(
        Format::Nothing,
        Action::Value(ValueRow::Comparison(Comparison::Both)),
        1,
        only!(2),
        only!(1)
    ),
    // 11 ||
    entry!(
        Format::Nothing,
        Action::Value(ValueRow::Comparison(Comparison::Either)),
        1,
        only!(2),
        only!(1)
    ),
    // 12 ==
    entry!(
        Format::Nothing,
        Action::Value(ValueRow::Equal),
        1,
        only!(2),
        only!(1)
    ),
    // 13 !=
    entry!(
        Format::Nothing,
        Action::Value(ValueRow::NotEqual),
        1,
        only!(2),
        only!(1)
    ),
    // 14 !
    entry!(
        Format::Nothing,
        Action::Value(ValueRow::Unary(Unary::Not)),
        1,
        only!(1),
        only!(1)
    ),
    // 15 len
    entry!(
        Format::Nothing,
        Action::Value(ValueRow::Len),
        1,
        only!(1),
        only!(1)
    ),
    // 16 itob
    entry!(
        Format::Nothing,
        Action::Value(ValueRow::Itob),
        1,
        only!(1),
        only!(1)
    ),
    // 17 btoi
    entry!(
        Format::Nothing,
        Action::Value(ValueRow::Btoi),
        1,
        only!(1),
        only!(1)
    ),
    // 18 %
    entry!(
        Format::Nothing,
        Action::Value(ValueRow::Arithmetic(Arithmetic::Modulo)),
        1,
        only!(2),
        only!(1)
    ),
    // 19 |
    entry!(
        Format::Nothing,
        Action::Value(ValueRow::Arithmetic(Arithmetic::BitOr)),
        1,
        only!(2),
        only!(1)
    ),
    // 1a &
    entry!(
        Format::Nothing,
        Action::Value(ValueRow::Arithmetic(Arithmetic::BitAnd)),
        1,
        only!(2),
        only!(1)
    ),
    // 1b ^
    entry!(
        Format::Nothing,
        Action::Value(ValueRow::Arithmetic(Arithmetic::BitXor)),
        1,
        only!(2),
        only!(1)
    ),
    // 1c ~
    entry!(
        Format::Nothing,
        Action::Value(ValueRow::Unary(Unary::BitNot)),
        1,
        only!(1),
        only!(1)
    ),
    // 1d mulw
    entry!(
        Format::Nothing,
        Action::Value(ValueRow::Wide(Wide::Multiply)),
        1,
        only!(2),
        only!(2)
    ),
    // 1e addw
    entry!(
        Format::Nothing,
        Action::Value(ValueRow::Wide(Wide::Add)),
        1,
        only!(2),
        only!(2)
    ),
    // 1f divmodw
    entry!(
        Format::Nothing,
        Action::Value(ValueRow::Wide(Wide::DivideModulo)),
        20,
        only!(4),
        only!(4)
    ),
    // 20 intcblock
    entry!(
        Format::Ints,
        Action::Constant(ConstantRow::IntBlock),
        1,
        only!(0),
        only!(0)
    ),
    // 21 intc
    entry!(
        Format::Byte,
        Action::Constant(ConstantRow::Int),
        1,
        only!(0),
        only!(1)
    ),
    // 22 intc_0
    entry!(
        Format::Nothing,
        Action::Constant(ConstantRow::IntAt(0)),
        1,
        only!(0),
        only!(1)
    ),
    // 23 intc_1
    entry!(
        Format::Nothing,
        Action::Constant(ConstantRow::IntAt(1)),
        1,
        only!(0),
        only!(1)
    ),
    // 24 intc_2
    entry!(
        Format::Nothing,
        Action::Constant(ConstantRow::IntAt(2)),
        1,
        only!(0),
        only!(1)
    ),
    // 25 intc_3
    entry!(
        Format::Nothing,
        Action::Constant(ConstantRow::IntAt(3)),
        1,
        only!(0),
        only!(1)
    ),
    // 26 bytecblock
    entry!(
        Format::Blobs,
        Action::Constant(ConstantRow::BytesBlock),
        1,
        only!(0),
        only!(0)
    ),
    // 27 bytec
    entry!(
        Format::Byte,
        Action::Constant(ConstantRow::Bytes),
        1,
        only!(0),
        only!(1)
    ),
    // 28 bytec_0
    entry!(
        Format::Nothing,
        Action::Constant(ConstantRow::BytesAt(0)),
        1,
        only!(0),
        only!(1)
    ),
    // 29 bytec_1
    entry!(
        Format::Nothing,
        Action::Constant(ConstantRow::BytesAt(1)),
        1,
        only!(0),
        only!(1)
    ),
    // 2a bytec_2
    entry!(
        Format::Nothing,
        Action::Constant(ConstantRow::BytesAt(2)),
        1,
        only!(0),
        only!(1)
    ),
    // 2b bytec_3
    entry!(
        Format::Nothing,
        Action::Constant(ConstantRow::BytesAt(3)),
        1,
        only!(0),
        only!(1)
    ),
    None,
    None,
    None,
    None,
    None,
    // 31 txn
    entry!(
        Format::Field(Fields::Transaction),
        Action::Field(FieldRow::Txn),
        1,
        only!(0),
        only!(1)
    ),
    // 32 global
    entry!(
        Format::Field(Fields::Global),
        Action::Field(FieldRow::Global),
        1,
        only!(0),
        only!(1)
    ),
    None,
    // 34 load
    entry!(
        Format::Byte,
        Action::Scratch(ScratchRow::Load),
        1,
        only!(0),
        only!(1)
    ),
    // 35 store
    entry!(
        Format::Byte,
        Action::Scratch(ScratchRow::Store),
        1,
        only!(1),
        only!(0)
    ),
    // 36 txna
    entry!(
        Format::FieldAndByte(Fields::Array),
        Action::Field(FieldRow::Txna),
        1,
        only!(0),
        only!(1)
    ),
    None,
    None,
    None,
    None,
    None,
    None,
    None,
    None,
    None,
    // 40 bnz
    entry!(
        Format::Jump,
        Action::Flow(FlowRow::BranchIfNotZero),
        1,
        only!(1),
        only!(0)
    ),
    // 41 bz
    entry!(
        Format::Jump,
        Action::Flow(FlowRow::BranchIfZero),
        1,
        only!(1),
        only!(0)
    ),
    // 42 b
    entry!(
        Format::Jump,
        Action::Flow(FlowRow::Branch),
        1,
        only!(0),
        only!(0)
    ),
    // 43 return
    entry!(
        Format::Nothing,
        Action::Flow(FlowRow::Return),
        1,
        only!(1),
        only!(1)
    ),
    // 44 assert
    entry!(
        Format::Nothing,
        Action::Flow(FlowRow::Assert),
        1,
        only!(1),
        only!(0)
    ),
    // 45 bury
    entry!(
        Format::Byte,
        Action::Stack(StackRow::Bury),
        1,
        and_counted!(1),
        and_counted!(0)
    ),
    // 46 popn
    entry!(
        Format::Byte,
        Action::Stack(StackRow::PopN),
        1,
        and_counted!(0),
        only!(0)
    ),
    // 47 dupn
    entry!(
        Format::Byte,
        Action::Stack(StackRow::DupN),
        1,
        only!(1),
        and_counted!(1)
    ),
    // 48 pop
    entry!(
        Format::Nothing,
        Action::Stack(StackRow::Pop),
        1,
        only!(1),
        only!(0)
    ),
    // 49 dup
    entry!(
        Format::Nothing,
        Action::Stack(StackRow::Dup),
        1,
        only!(1),
        only!(2)
    ),
    // 4a dup2
    entry!(
        Format::Nothing,
        Action::Stack(StackRow::Dup2),
        1,
        only!(2),
        only!(4)
    ),
    // 4b dig
    entry!(
        Format::Byte,
        Action::Stack(StackRow::Dig),
        1,
        and_counted!(1),
        and_counted!(2)
    ),
    // 4c swap
    entry!(
        Format::Nothing,
        Action::Stack(StackRow::Swap),
        1,
        only!(2),
        only!(2)
    ),
    // 4d select
    entry!(
        Format::Nothing,
        Action::Value(ValueRow::Select),
        1,
        only!(3),
        only!(1)
    ),
    // 4e cover
    entry!(
        Format::Byte,
        Action::Stack(StackRow::Cover),
        1,
        and_counted!(1),
        and_counted!(1)
    ),
    // 4f uncover
    entry!(
        Format::Byte,
        Action::Stack(StackRow::Uncover),
        1,
        and_counted!(1),
        and_counted!(1)
    ),
    // 50 concat
    entry!(
        Format::Nothing,
        Action::Value(ValueRow::Concat),
        1,
        only!(2),
        only!(1)
    ),
    // 51 substring
    entry!(
        Format::Two,
        Action::Value(ValueRow::Part(Part::Substring)),
        1,
        only!(1),
        only!(1)
    ),
    // 52 substring3
    entry!(
        Format::Nothing,
        Action::Value(ValueRow::Part(Part::Substring3)),
        1,
        only!(3),
        only!(1)
    ),
    // 53 getbit
    entry!(
        Format::Nothing,
        Action::Value(ValueRow::GetBit),
        1,
        only!(2),
        only!(1)
    ),
    // 54 setbit
    entry!(
        Format::Nothing,
        Action::Value(ValueRow::SetBit),
        1,
        only!(3),
        only!(1)
    ),
    // 55 getbyte
    entry!(
        Format::Nothing,
        Action::Value(ValueRow::GetByte),
        1,
        only!(2),
        only!(1)
    ),
    // 56 setbyte
    entry!(
        Format::Nothing,
        Action::Value(ValueRow::SetByte),
        1,
        only!(3),
        only!(1)
    ),
    // 57 extract
    entry!(
        Format::Two,
        Action::Value(ValueRow::Part(Part::Extract)),
        1,
        only!(1),
        only!(1)
    ),
    // 58 extract3
    entry!(
        Format::Nothing,
        Action::Value(ValueRow::Part(Part::Extract3)),
        1,
        only!(3),
        only!(1)
    ),
    // 59 extract_uint16
    entry!(
        Format::Nothing,
        Action::Value(ValueRow::ExtractNumber(Word::Two)),
        1,
        only!(2),
        only!(1)
    ),
    // 5a extract_uint32
    entry!(
        Format::Nothing,
        Action::Value(ValueRow::ExtractNumber(Word::Four)),
        1,
        only!(2),
        only!(1)
    ),
    // 5b extract_uint64
    entry!(
        Format::Nothing,
        Action::Value(ValueRow::ExtractNumber(Word::Eight)),
        1,
        only!(2),
        only!(1)
    ),
    // 5c replace2
    entry!(
        Format::Byte,
        Action::Value(ValueRow::Replace2),
        1,
        only!(2),
        only!(1)
    ),
    // 5d replace3
    entry!(
        Format::Nothing,
        Action::Value(ValueRow::Replace3),
        1,
        only!(3),
        only!(1)
    ),
    None,
    None,
    None,
    None,
    // 62 app_local_get
    entry!(
        Format::Nothing,
        Action::State(StateRow::LocalGet),
        1,
        only!(2),
        only!(1)
    ),
    // 63 app_local_get_ex
    entry!(
        Format::Nothing,
        Action::State(StateRow::LocalGetEx),
        1,
        only!(3),
        only!(2)
    ),
    // 64 app_global_get
    entry!(
        Format::Nothing,
        Action::State(StateRow::GlobalGet),
        1,
        only!(1),
        only!(1)
    ),
    // 65 app_global_get_ex
    entry!(
        Format::Nothing,
        Action::State(StateRow::GlobalGetEx),
        1,
        only!(2),
        only!(2)
    ),
    // 66 app_local_put
    entry!(
        Format::Nothing,
        Action::State(StateRow::LocalPut),
        1,
        only!(3),
        only!(0)
    ),
    // 67 app_global_put
    entry!(
        Format::Nothing,
        Action::State(StateRow::GlobalPut),
        1,
        only!(2),
        only!(0)
    ),
    // 68 app_local_del
    entry!(
        Format::Nothing,
        Action::State(StateRow::LocalDel),
        1,
        only!(2),
        only!(0)
    ),
    // 69 app_global_del
    entry!(
        Format::Nothing,
        Action::State(StateRow::GlobalDel),
        1,
        only!(1),
        only!(0)
    ),
    None,
    None,
    None,
    None,
    None,
    None,
    None,
    None,
    None,
    None,
    None,
    None,
    None,
    None,
    None,
    None,
    None,
    None,
    None,
    None,
    None,
    None,
];

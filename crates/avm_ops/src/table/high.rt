use crate::rows::{
    Action, Arithmetic, ConstantRow, Count, FieldRow, Fields, FlowRow, Format, FrameRow, Row,
    StateRow, Unary, ValueRow, Wide,
};

/// The rows of the opcodes from 128 on: at 0 stands that of 128.
pub(super) static HIGH: [Option<Row>; 128] = [
    // 80 pushbytes
    entry!(
        Format::Bytes,
        Action::Constant(ConstantRow::PushBytes),
        1,
        only!(0),
        only!(1)
    ),
    // 81 pushint
    entry!(
        Format::Int,
        Action::Constant(ConstantRow::PushInt),
        1,
        only!(0),
        only!(1)
    ),
    // 82 pushbytess
    entry!(
        Format::Blobs,
        Action::Constant(ConstantRow::PushBytess),
        1,
        only!(0),
        and_counted!(0)
    ),
    // 83 pushints
    entry!(
        Format::Ints,
        Action::Constant(ConstantRow::PushInts),
        1,
        only!(0),
        and_counted!(0)
    ),
    None,
    None,
    None,
    None,
    // 88 callsub
    entry!(
        Format::Jump,
        Action::Frame(FrameRow::CallSub),
        1,
        only!(0),
        only!(0)
    ),
    // 89 retsub
    entry!(
        Format::Nothing,
        Action::Frame(FrameRow::RetSub),
        1,
        only!(0),
        only!(0)
    ),
    // 8a proto
    entry!(
        Format::Two,
        Action::Frame(FrameRow::Proto),
        1,
        only!(0),
        only!(0)
    ),
    // 8b frame_dig
    entry!(
        Format::Signed,
        Action::Frame(FrameRow::FrameDig),
        1,
        only!(0),
        only!(1)
    ),
    // 8c frame_bury
    entry!(
        Format::Signed,
        Action::Frame(FrameRow::FrameBury),
        1,
        only!(1),
        only!(0)
    ),
    // 8d switch
    entry!(
        Format::Jumps,
        Action::Flow(FlowRow::Switch),
        1,
        only!(1),
        only!(0)
    ),
    // 8e match
    entry!(
        Format::Jumps,
        Action::Flow(FlowRow::Match),
        1,
        and_counted!(1),
        only!(0)
    ),
    None,
    // 90 shl
    entry!(
        Format::Nothing,
        Action::Value(ValueRow::Arithmetic(Arithmetic::ShiftLeft)),
        1,
        only!(2),
        only!(1)
    ),
    // 91 shr
    entry!(
        Format::Nothing,
        Action::Value(ValueRow::Arithmetic(Arithmetic::ShiftRight)),
        1,
        only!(2),
        only!(1)
    ),
    // 92 sqrt
    entry!(
        Format::Nothing,
        Action::Value(ValueRow::Unary(Unary::SquareRoot)),
        4,
        only!(1),
        only!(1)
    ),
    // 93 bitlen
    entry!(
        Format::Nothing,
        Action::Value(ValueRow::BitLength),
        1,
        only!(1),
        only!(1)
    ),
    // 94 exp
    entry!(
        Format::Nothing,
        Action::Value(ValueRow::Arithmetic(Arithmetic::Power)),
        1,
        only!(2),
        only!(1)
    ),
    None,
    None,
    // 97 divw
    entry!(
        Format::Nothing,
        Action::Value(ValueRow::Wide(Wide::Divide)),
        1,
        only!(3),
        only!(1)
    ),
    None,
    None,
    None,
    None,
    None,
    None,
    None,
    None,
    None,
    None,
    None,
    None,
    None,
    None,
    None,
    None,
    None,
    None,
    None,
    None,
    None,
    None,
    None,
    // af bzero
    entry!(
        Format::Nothing,
        Action::Value(ValueRow::Bzero),
        1,
        only!(1),
        only!(1)
    ),
    // b0 log
    entry!(
        Format::Nothing,
        Action::State(StateRow::Log),
        1,
        only!(1),
        only!(0)
    ),
    None,
    None,
    None,
    None,
    None,
    None,
    None,
    None,
    // b9 box_create
    entry!(
        Format::Nothing,
        Action::State(StateRow::BoxCreate),
        1,
        only!(2),
        only!(1)
    ),
    // ba box_extract
    entry!(
        Format::Nothing,
        Action::State(StateRow::BoxExtract),
        1,
        only!(3),
        only!(1)
    ),
    // bb box_replace
    entry!(
        Format::Nothing,
        Action::State(StateRow::BoxReplace),
        1,
        only!(3),
        only!(0)
    ),
    // bc box_del
    entry!(
        Format::Nothing,
        Action::State(StateRow::BoxDel),
        1,
        only!(1),
        only!(1)
    ),
    // bd box_len
    entry!(
        Format::Nothing,
        Action::State(StateRow::BoxLen),
        1,
        only!(1),
        only!(2)
    ),
    // be box_get
    entry!(
        Format::Nothing,
        Action::State(StateRow::BoxGet),
        1,
        only!(1),
        only!(2)
    ),
    // bf box_put
    entry!(
        Format::Nothing,
        Action::State(StateRow::BoxPut),
        1,
        only!(2),
        only!(0)
    ),
    // c0 txnas
    entry!(
        Format::Field(Fields::Array),
        Action::Field(FieldRow::Txnas),
        1,
        only!(1),
        only!(1)
    ),
    None,
    None,
    None,
    None,
    None,
    None,
    None,
    None,
    None,
    None,
    None,
    None,
    None,
    None,
    None,
    None,
    None,
    None,
    None,
    None,
    None,
    None,
    None,
    None,
    None,
    None,
    None,
    None,
    None,
    None,
    None,
    None,
    None,
    None,
    None,
    None,
    None,
    None,
    None,
    None,
    None,
    None,
    None,
    None,
    None,
    None,
    None,
    None,
    None,
    None,
    None,
    None,
    None,
    None,
    None,
    None,
    None,
    None,
    None,
    None,
    None,
    None,
    None,
];

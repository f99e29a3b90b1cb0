//! The members of the library's names.

ghost use Rattle.std.specs.Prelude.{◌≡◌, map};
ghost use Rattle.algopy_library.specs.Members as spec;

use crate::form::{Admits, Form};
use crate::row::Row;
use crate::scalar::Scalar;
use crate::table::named_in;
use awst::Primitive;

/// What stands behind a name of the library and a point.
#[derive(Clone, Copy, Debug, PartialEq, Eq)]
pub enum Member {
    /// What is called with arguments.
    Form(Form),
    /// A value, and its type.
    Value(Primitive, Scalar),
    /// A number.
    Number(u64),
    /// An application, of which only `id` can be asked.
    Application(Primitive),
    /// `Bytes.from_hex`.
    FromHex,
    /// A name that stands in a package as well.
    Row(Row),
    /// A name that is left out of the language.
    LeftOut,
}

type Table = &'static [(&'static [u8], Member)];

/// The members of `op`.
static OPERATIONS: [(&[u8], Member); 40] = [
    (
        b"addw",
        Member::Form(Form {
            prim: Primitive::OpAddw,
            first: Admits::Number,
            second: Admits::Number,
            third: Admits::Nothing,
            fourth: Admits::Nothing,
            results: 2,
            result: Scalar::UInt64,
        }),
    ),
    (
        b"mulw",
        Member::Form(Form {
            prim: Primitive::OpMulw,
            first: Admits::Number,
            second: Admits::Number,
            third: Admits::Nothing,
            fourth: Admits::Nothing,
            results: 2,
            result: Scalar::UInt64,
        }),
    ),
    (
        b"bitlen",
        Member::Form(Form {
            prim: Primitive::OpBitlen,
            first: Admits::Either,
            second: Admits::Nothing,
            third: Admits::Nothing,
            fourth: Admits::Nothing,
            results: 1,
            result: Scalar::UInt64,
        }),
    ),
    (
        b"itob",
        Member::Form(Form {
            prim: Primitive::OpItob,
            first: Admits::Number,
            second: Admits::Nothing,
            third: Admits::Nothing,
            fourth: Admits::Nothing,
            results: 1,
            result: Scalar::Bytes,
        }),
    ),
    (
        b"sqrt",
        Member::Form(Form {
            prim: Primitive::OpSqrt,
            first: Admits::Number,
            second: Admits::Nothing,
            third: Admits::Nothing,
            fourth: Admits::Nothing,
            results: 1,
            result: Scalar::UInt64,
        }),
    ),
    (
        b"sha256",
        Member::Form(Form {
            prim: Primitive::OpSha256,
            first: Admits::Bytes,
            second: Admits::Nothing,
            third: Admits::Nothing,
            fourth: Admits::Nothing,
            results: 1,
            result: Scalar::Bytes,
        }),
    ),
    (
        b"sha512_256",
        Member::Form(Form {
            prim: Primitive::OpSha512Of256,
            first: Admits::Bytes,
            second: Admits::Nothing,
            third: Admits::Nothing,
            fourth: Admits::Nothing,
            results: 1,
            result: Scalar::Bytes,
        }),
    ),
    (
        b"btoi",
        Member::Form(Form {
            prim: Primitive::OpBtoi,
            first: Admits::Bytes,
            second: Admits::Nothing,
            third: Admits::Nothing,
            fourth: Admits::Nothing,
            results: 1,
            result: Scalar::UInt64,
        }),
    ),
    (
        b"bzero",
        Member::Form(Form {
            prim: Primitive::OpBzero,
            first: Admits::Number,
            second: Admits::Nothing,
            third: Admits::Nothing,
            fourth: Admits::Nothing,
            results: 1,
            result: Scalar::Bytes,
        }),
    ),
    (
        b"concat",
        Member::Form(Form {
            prim: Primitive::OpConcat,
            first: Admits::Bytes,
            second: Admits::Bytes,
            third: Admits::Nothing,
            fourth: Admits::Nothing,
            results: 1,
            result: Scalar::Bytes,
        }),
    ),
    (
        b"divmodw",
        Member::Form(Form {
            prim: Primitive::OpDivmodw,
            first: Admits::Number,
            second: Admits::Number,
            third: Admits::Number,
            fourth: Admits::Number,
            results: 4,
            result: Scalar::UInt64,
        }),
    ),
    (
        b"divw",
        Member::Form(Form {
            prim: Primitive::OpDivw,
            first: Admits::Number,
            second: Admits::Number,
            third: Admits::Number,
            fourth: Admits::Nothing,
            results: 1,
            result: Scalar::UInt64,
        }),
    ),
    (
        b"exp",
        Member::Form(Form {
            prim: Primitive::OpExp,
            first: Admits::Number,
            second: Admits::Number,
            third: Admits::Nothing,
            fourth: Admits::Nothing,
            results: 1,
            result: Scalar::UInt64,
        }),
    ),
    (
        b"extract",
        Member::Form(Form {
            prim: Primitive::OpExtract,
            first: Admits::Bytes,
            second: Admits::Number,
            third: Admits::Number,
            fourth: Admits::Nothing,
            results: 1,
            result: Scalar::Bytes,
        }),
    ),
    (
        b"extract_uint16",
        Member::Form(Form {
            prim: Primitive::OpExtractUint16,
            first: Admits::Bytes,
            second: Admits::Number,
            third: Admits::Nothing,
            fourth: Admits::Nothing,
            results: 1,
            result: Scalar::UInt64,
        }),
    ),
    (
        b"extract_uint32",
        Member::Form(Form {
            prim: Primitive::OpExtractUint32,
            first: Admits::Bytes,
            second: Admits::Number,
            third: Admits::Nothing,
            fourth: Admits::Nothing,
            results: 1,
            result: Scalar::UInt64,
        }),
    ),
    (
        b"extract_uint64",
        Member::Form(Form {
            prim: Primitive::OpExtractUint64,
            first: Admits::Bytes,
            second: Admits::Number,
            third: Admits::Nothing,
            fourth: Admits::Nothing,
            results: 1,
            result: Scalar::UInt64,
        }),
    ),
    (
        b"getbit",
        Member::Form(Form {
            prim: Primitive::OpGetbit,
            first: Admits::Either,
            second: Admits::Number,
            third: Admits::Nothing,
            fourth: Admits::Nothing,
            results: 1,
            result: Scalar::UInt64,
        }),
    ),
    (
        b"getbyte",
        Member::Form(Form {
            prim: Primitive::OpGetbyte,
            first: Admits::Bytes,
            second: Admits::Number,
            third: Admits::Nothing,
            fourth: Admits::Nothing,
            results: 1,
            result: Scalar::UInt64,
        }),
    ),
    (
        b"replace",
        Member::Form(Form {
            prim: Primitive::OpReplace,
            first: Admits::Bytes,
            second: Admits::Number,
            third: Admits::Bytes,
            fourth: Admits::Nothing,
            results: 1,
            result: Scalar::Bytes,
        }),
    ),
    (
        b"setbit_bytes",
        Member::Form(Form {
            prim: Primitive::OpSetbitBytes,
            first: Admits::Bytes,
            second: Admits::Number,
            third: Admits::Number,
            fourth: Admits::Nothing,
            results: 1,
            result: Scalar::Bytes,
        }),
    ),
    (
        b"setbit_uint64",
        Member::Form(Form {
            prim: Primitive::OpSetbitUint64,
            first: Admits::Number,
            second: Admits::Number,
            third: Admits::Number,
            fourth: Admits::Nothing,
            results: 1,
            result: Scalar::UInt64,
        }),
    ),
    (
        b"setbyte",
        Member::Form(Form {
            prim: Primitive::OpSetbyte,
            first: Admits::Bytes,
            second: Admits::Number,
            third: Admits::Number,
            fourth: Admits::Nothing,
            results: 1,
            result: Scalar::Bytes,
        }),
    ),
    (
        b"shl",
        Member::Form(Form {
            prim: Primitive::OpShl,
            first: Admits::Number,
            second: Admits::Number,
            third: Admits::Nothing,
            fourth: Admits::Nothing,
            results: 1,
            result: Scalar::UInt64,
        }),
    ),
    (
        b"shr",
        Member::Form(Form {
            prim: Primitive::OpShr,
            first: Admits::Number,
            second: Admits::Number,
            third: Admits::Nothing,
            fourth: Admits::Nothing,
            results: 1,
            result: Scalar::UInt64,
        }),
    ),
    (
        b"substring",
        Member::Form(Form {
            prim: Primitive::OpSubstring,
            first: Admits::Bytes,
            second: Admits::Number,
            third: Admits::Number,
            fourth: Admits::Nothing,
            results: 1,
            result: Scalar::Bytes,
        }),
    ),
    (b"AppGlobal", Member::LeftOut),
    (b"AppLocal", Member::LeftOut),
    (b"Box", Member::LeftOut),
    (b"EllipticCurve", Member::LeftOut),
    (b"Scratch", Member::LeftOut),
    (b"base64_decode", Member::LeftOut),
    (b"ecdsa_pk_decompress", Member::LeftOut),
    (b"ecdsa_pk_recover", Member::LeftOut),
    (b"ecdsa_verify", Member::LeftOut),
    (b"ed25519verify", Member::LeftOut),
    (b"ed25519verify_bare", Member::LeftOut),
    (b"keccak256", Member::LeftOut),
    (b"sha3_256", Member::LeftOut),
    (b"vrf_verify", Member::LeftOut),
];

/// The members of `Txn`.
static TRANSACTION: [(&[u8], Member); 7] = [
    (
        b"sender",
        Member::Value(Primitive::TxnSender, Scalar::Account),
    ),
    (b"fee", Member::Value(Primitive::TxnFee, Scalar::UInt64)),
    (b"note", Member::Value(Primitive::TxnNote, Scalar::Bytes)),
    (
        b"on_completion",
        Member::Value(Primitive::TxnOnCompletion, Scalar::UInt64),
    ),
    (
        b"num_app_args",
        Member::Value(Primitive::TxnNumAppArgs, Scalar::UInt64),
    ),
    (
        b"application_id",
        Member::Application(Primitive::TxnApplicationId),
    ),
    (
        b"application_args",
        Member::Form(Form {
            prim: Primitive::TxnApplicationArgs,
            first: Admits::Number,
            second: Admits::Nothing,
            third: Admits::Nothing,
            fourth: Admits::Nothing,
            results: 1,
            result: Scalar::Bytes,
        }),
    ),
];

/// The members of `Global`.
static GLOBALS: [(&[u8], Member); 5] = [
    (
        b"zero_address",
        Member::Value(Primitive::GlobalZeroAddress, Scalar::Account),
    ),
    (
        b"creator_address",
        Member::Value(Primitive::GlobalCreatorAddress, Scalar::Account),
    ),
    (
        b"round",
        Member::Value(Primitive::GlobalRound, Scalar::UInt64),
    ),
    (
        b"latest_timestamp",
        Member::Value(Primitive::GlobalLatestTimestamp, Scalar::UInt64),
    ),
    (
        b"current_application_id",
        Member::Application(Primitive::GlobalCurrentApplicationId),
    ),
];

/// The members of `OnCompleteAction`, by their on-completion numbers.
static ACTIONS: [(&[u8], Member); 6] = [
    (b"NoOp", Member::Number(0)),
    (b"OptIn", Member::Number(1)),
    (b"CloseOut", Member::Number(2)),
    (b"ClearState", Member::Number(3)),
    (b"UpdateApplication", Member::Number(4)),
    (b"DeleteApplication", Member::Number(5)),
];

/// The members of `Bytes`.
static BYTES: [(&[u8], Member); 2] = [
    (b"from_hex", Member::FromHex),
    (b"from_bytes", Member::LeftOut),
];

/// The members of any other type.
static TYPE: [(&[u8], Member); 1] = [(b"from_bytes", Member::LeftOut)];

/// The members of `typing`.
static TYPING: [(&[u8], Member); 1] = [(b"Literal", Member::Row(Row::Literal))];

fn members_of(row: Row) -> Table
    ensures { map (λ e. (e.0.now, e.1)) result.now ≡ spec.members_of row }
{
    match row {
        Row::Op => &OPERATIONS,
        Row::Txn => &TRANSACTION,
        Row::Global => &GLOBALS,
        Row::OnCompleteAction => &ACTIONS,
        Row::Bytes => &BYTES,
        Row::UInt64 => &TYPE,
        Row::Bool => &TYPE,
        Row::Text => &TYPE,
        Row::Account => &TYPE,
        Row::Tuple => &TYPE,
        Row::Typing => &TYPING,
        _ => &[],
    }
}

#[tactic(auto, unfolding(crate::specs::Members::member_named))]
/// The member of a name of the library.
pub fn member_named(row: Row, name: &[u8]) -> Option<Member>
    ensures { result ≡ spec.member_named row name.now }
{
    named_in(members_of(row), name)
}

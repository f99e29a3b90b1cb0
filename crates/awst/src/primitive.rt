//! Operators and forms of the library (Algorand Python guide, "Types", "Operations", "Ops").

/// What an expression does with the values of its parts, which are evaluated first, from left to right.
///
/// `i`, `j`, `n` are UInt64; `b`, `c` are Bytes. A form that fails on some values says where.
#[derive(Clone, Copy, Debug, PartialEq, Eq)]
pub enum Primitive {
    /// `i + j`; fails from 2^64 on.
    Add,
    /// `i - j`; fails below 0.
    Sub,
    /// `i * j`; fails from 2^64 on.
    Mul,
    /// `i // j`; fails where j is 0.
    FloorDiv,
    /// `i % j`; fails where j is 0.
    Mod,
    /// `i ** j`; fails from 2^64 on, and on 0 to the 0.
    Power,
    /// `i << j`, the low 64 bits; fails where j is above 63.
    ShiftLeft,
    /// `i >> j`; fails where j is above 63.
    ShiftRight,
    /// `i & j`.
    BitAnd,
    /// `i | j`.
    BitOr,
    /// `i ^ j`.
    BitXor,
    /// `~i`.
    Invert,
    /// `i < j`.
    Less,
    /// `i > j`.
    Greater,
    /// `i <= j`.
    AtMost,
    /// `i >= j`.
    AtLeast,
    /// `==` on two values of one type among UInt64, bool, Bytes, String and Account.
    Equal,
    /// `!=` on the same.
    NotEqual,
    /// `+` on two Bytes or two Strings; fails above 4096 bytes.
    Join,
    /// `not` of a bool, a UInt64, Bytes or a String.
    Not,
    /// `bool(x)` of the same, and what stands round a condition that is no bool: not 0, not empty.
    Truth,
    /// `UInt64(x)` of a bool: 1 or 0.
    NumberOfBool,
    /// `b[i]`, one byte as Bytes; fails out of range.
    ByteAt,
    /// `b[:]`.
    SliceAll,
    /// `b[i:]`.
    SliceFrom,
    /// `b[:j]`.
    SliceTo,
    /// `b[i:j]`; ends are clamped to the length, and it is empty where i is not below j.
    SliceBetween,
    /// `b.length`.
    Length,
    /// `.bytes` of a String or an Account.
    BytesOf,
    /// `op.addw(i, j)`: the high and the low word.
    OpAddw,
    /// `op.mulw(i, j)`: the high and the low word.
    OpMulw,
    /// `op.bitlen(i)` or `op.bitlen(b)`.
    OpBitlen,
    /// `op.itob(i)`: 8 bytes.
    OpItob,
    /// `op.sqrt(i)`, rounded down.
    OpSqrt,
    /// `op.sha256(b)`.
    OpSha256,
    /// `op.sha512_256(b)`.
    OpSha512Of256,
    /// `op.btoi(b)`; fails above 8 bytes.
    OpBtoi,
    /// `op.bzero(n)`; fails above 4096.
    OpBzero,
    /// `op.concat(b, c)`; fails above 4096 bytes.
    OpConcat,
    /// `op.divmodw(i, j, i2, j2)`: quotient and remainder, two words each; fails where the divisor is 0.
    OpDivmodw,
    /// `op.divw(i, j, n)`; fails where n is 0 or the quotient passes 2^64-1.
    OpDivw,
    /// `op.exp(i, j)`; fails as `**`.
    OpExp,
    /// `op.extract(b, i, n)`: n bytes from i on; fails out of range.
    OpExtract,
    /// `op.extract_uint16(b, i)`; fails out of range.
    OpExtractUint16,
    /// `op.extract_uint32(b, i)`; fails out of range.
    OpExtractUint32,
    /// `op.extract_uint64(b, i)`; fails out of range.
    OpExtractUint64,
    /// `op.getbit(b, j)` or `op.getbit(i, j)`: 0 or 1; fails out of range.
    OpGetbit,
    /// `op.getbyte(b, i)`; fails out of range.
    OpGetbyte,
    /// `op.replace(b, i, c)`: c written over b from i on; fails out of range.
    OpReplace,
    /// `op.setbit_bytes(b, i, j)`; fails out of range, and where j is above 1.
    OpSetbitBytes,
    /// `op.setbit_uint64(i, j, n)`; fails out of range, and where n is above 1.
    OpSetbitUint64,
    /// `op.setbyte(b, i, j)`; fails out of range, and where j is above 255.
    OpSetbyte,
    /// `op.shl(i, j)`; fails as `<<`.
    OpShl,
    /// `op.shr(i, j)`; fails as `>>`.
    OpShr,
    /// `op.substring(b, i, j)`: the bytes from i up to j; fails out of range.
    OpSubstring,
    /// `Txn.sender`.
    TxnSender,
    /// `Txn.fee`, in microAlgos.
    TxnFee,
    /// `Txn.note`.
    TxnNote,
    /// `Txn.on_completion`.
    TxnOnCompletion,
    /// `Txn.num_app_args`.
    TxnNumAppArgs,
    /// `Txn.application_id.id`: 0 where the call creates the application.
    TxnApplicationId,
    /// `Txn.application_args(i)`; fails out of range.
    TxnApplicationArgs,
    /// `Global.zero_address`.
    GlobalZeroAddress,
    /// `Global.creator_address`.
    GlobalCreatorAddress,
    /// `Global.round`.
    GlobalRound,
    /// `Global.latest_timestamp`, in seconds.
    GlobalLatestTimestamp,
    /// `Global.current_application_id.id`.
    GlobalCurrentApplicationId,
    /// `log(x1, .., xm)`: one log of the joined bytes, a UInt64 as 8 bytes; fails above 4096 bytes and past the limits of a call's logs.
    Log,
}

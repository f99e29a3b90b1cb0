use puya_base::{Blob, List};

/// A value of an ARC-4 type.
#[derive(Drop)]
pub enum AbiValue {
    /// Of `uint8` to `uint64` and `byte`.
    Number(u64),
    /// Of `bool`.
    Flag(bool),
    /// Of `string`, `byte[]` and `address`.
    Data(Blob),
    /// Of every other array, and of a tuple.
    Parts(AbiValues),
}

/// The parts of an array or a tuple, in order.
pub type AbiValues = List<AbiValue>;

//! Types of one value.

/// A type whose values are one number or one byte string (Algorand Python guide, "Types").
#[derive(Clone, Copy, Debug, PartialEq, Eq)]
pub enum Scalar {
    UInt64,
    Bool,
    Bytes,
    Text,
    Account,
}

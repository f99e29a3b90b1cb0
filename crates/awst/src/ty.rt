//! Types of values (Algorand Python guide, "Types").

use puya_base::List;

pub type Tys = List<Ty>;

/// The type of a value.
#[derive(Drop)]
pub enum Ty {
    /// A number below 2^64.
    UInt64,
    /// `True` or `False`.
    Bool,
    /// At most 4096 bytes.
    Bytes,
    /// `String`: at most 4096 bytes, which nothing checks to be UTF-8.
    Text,
    /// An address of 32 bytes.
    Account,
    /// `None`, which only a function gives.
    Nothing,
    /// A tuple of its parts.
    Tuple(Tys),
}

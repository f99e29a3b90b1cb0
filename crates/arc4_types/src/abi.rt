use puya_base::{Boxed, List};

/// An ARC-4 type (ARC-4, "Types").
#[derive(Drop)]
pub enum Abi {
    /// A number of so many bits: 8, 16, 32 or 64.
    Uint(u16),
    /// A number of 8 bits that is named `byte`.
    Byte,
    Bool,
    /// `string`: bytes with their count.
    Text,
    /// 32 bytes.
    Address,
    /// `T[]`: as many parts as its encoding says.
    Array(Boxed<Abi>),
    /// `T[N]`: exactly N parts.
    Fixed(Boxed<Abi>, u32),
    /// `(T1,T2,..)`.
    Tuple(Abis),
}

/// The types of the parts of a tuple, or of the arguments of a method.
pub type Abis = List<Abi>;

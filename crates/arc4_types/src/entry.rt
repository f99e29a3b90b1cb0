use crate::abi_value::AbiValue;

/// What a head tells of a part.
#[derive(Drop)]
pub(crate) enum Entry {
    /// Its value.
    Told(AbiValue),
    /// The offset of its tail.
    Waits(u16),
}

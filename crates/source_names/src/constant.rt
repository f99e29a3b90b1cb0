//! Constants.

use puya_base::Blob;

/// What a constant of the module stands for.
#[derive(Drop)]
pub enum Constant {
    Number(u64),
    Text(Blob),
    Bytes(Blob),
    Flag(bool),
    /// A literal that is too long.
    Unknown,
}

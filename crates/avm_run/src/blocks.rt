use avm_ops::Ints;
use puya_base::Blobs;

/// The constant blocks, as `intcblock` and `bytecblock` set them.
#[derive(Debug, Drop)]
pub struct Blocks {
    pub ints: Ints,
    /// Byte strings of any length: one of over 4096 bytes fails when it is pushed.
    pub blobs: Blobs,
}

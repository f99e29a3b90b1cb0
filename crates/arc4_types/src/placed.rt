use puya_base::Blob;

/// The encoding of a part of a tuple, where it stands.
#[derive(Drop)]
pub(crate) enum Placed {
    /// In the head.
    Here(Blob),
    /// In the tails, with an offset in the head.
    Later(Blob),
}

//! Names and literals as they stand in a source (Python reference 2.3, 2.4).

use puya_base::{Blob, Name, Place};

/// A name of the source, at the place of its first byte.
#[derive(Debug, Drop)]
pub struct Word {
    pub name: Name,
    pub place: Place,
}

/// A number, a string or a bytes literal with the text of its token, at the place of its first byte.
#[derive(Debug, Drop)]
pub struct Literal {
    pub text: Blob,
    pub place: Place,
}

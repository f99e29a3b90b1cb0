//! TEAL text: a program printed as text, and text read as lines.
#![tactic(auto)]

mod decoding;
mod fault;
mod laws;
mod line_words;
mod names;
mod numbering;
mod printing;
mod reading;
mod targets;

pub use fault::TealFault;
pub use laws::printed_text_is_read_back;
pub use printing::print;
pub use reading::read;

//! Bytes of a source to tokens, and what the tokens of numbers and strings stand for.
#![tactic(auto)]

mod bytes;
mod layout;
mod literals;
mod numbers;
mod pieces;
mod scan;
mod token;
mod words;

pub use literals::add_literal;
pub use numbers::number_value;
pub use scan::tokens;
pub use token::{Token, TokenKind, Tokens};
pub use words::words_are_longest;

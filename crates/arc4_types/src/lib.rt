//! ARC-4 types and their values: signatures and selectors, and the coding of values as bytes.
#![tactic(auto)]

mod abi;
mod abi_fault;
mod abi_value;
mod bools;
mod cursor;
mod decoding;
mod encoding;
mod entry;
mod form;
mod head;
mod joining;
mod laws;
mod method;
mod number;
mod placed;
mod row;

pub use abi::{Abi, Abis};
pub use abi_fault::AbiFault;
pub use abi_value::{AbiValue, AbiValues};
pub use decoding::decode;
pub use encoding::encode;
pub use laws::{encoding_is_injective, encodings_are_read, only_encodings_are_read};
pub use method::{selector, signature};

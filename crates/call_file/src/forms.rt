ghost use Rattle.std.specs.Prelude.{◌≡◌, Option};
ghost use Rattle.std.specs.Result.{result_ok};
ghost use Rattle.serde_json.specs.Data.{Data};
ghost use Rattle.serde_json.specs.Find.{as_str, as_bool};
ghost use Rattle.serde_json.specs.View.{view};
ghost use Rattle.call_file.specs.Faults.{Reads};
ghost use Rattle.call_file.specs.Forms.{number, from_one, number_within, completion, bytes_within, list_within, arguments};

use crate::fault::FormFault;
use crate::lists::{read_texts, total_within};
use crate::values::{items, read_bytes};
use puya_base::{Blob, Blobs, Name};
use serde_json::Value;
use std::alloc::Global;

/// The on-completion number of the clear state program (AVM specification, "OnCompletion").
const CLEAR_STATE: u8 = 3;

/// The most on-completion number.
const MOST_COMPLETION: u64 = 5;

/// The most arguments of a call, and the most bytes of them together.
const MOST_ARGUMENTS: usize = 16;

const MOST_ARGUMENT_BYTES: usize = 2048;

/// What the value of a field must be.
pub(crate) trait Form<T>: Drop {
    /// The thing that a value stands for, or none where it is of no such form.
    ghost reads: { Self → Data → Option T };

    /// The thing that the value stands for.
    fn read(self, alloc: Global, value: &Value) -> Result<T, FormFault>
        ensures { Reads (reads self (view value.now)) result };
}

/// Any text.
#[derive(Drop)]
pub(crate) struct Text;

impl Form<Name> for Text {
    ghost reads = { λ _. as_str };

    fn read(self, alloc: Global, value: &Value) -> Result<Name, FormFault> {
        match value.as_str() {
            Some(text) => Ok(Name::new(alloc, text)?),
            None => Err(FormFault::Bad),
        }
    }
}

/// True or false.
#[derive(Drop)]
pub(crate) struct Flag;

impl Form<bool> for Flag {
    ghost reads = { λ _. as_bool };

    fn read(self, _alloc: Global, value: &Value) -> Result<bool, FormFault> {
        match value.as_bool() {
            Some(flag) => Ok(flag),
            None => Err(FormFault::Bad),
        }
    }
}

/// A whole number from 0 to 2^64-1.
#[derive(Drop)]
pub(crate) struct Number;

impl Form<u64> for Number {
    ghost reads = { λ _. number };

    fn read(self, _alloc: Global, value: &Value) -> Result<u64, FormFault> {
        match value.as_u64() {
            Some(n) => Ok(n),
            None => Err(FormFault::Bad),
        }
    }
}

/// A whole number from 1 to 2^64-1.
#[derive(Drop)]
pub(crate) struct FromOne;

impl Form<u64> for FromOne {
    ghost reads = { λ _. from_one };

    fn read(self, _alloc: Global, value: &Value) -> Result<u64, FormFault> {
        match value.as_u64() {
            Some(n) if 1 <= n => Ok(n),
            _ => Err(FormFault::Bad),
        }
    }
}

/// A whole number from `low` to `high`.
#[derive(Drop)]
pub(crate) struct Within {
    pub(crate) low: u64,
    pub(crate) high: u64,
}

impl Form<u64> for Within {
    ghost reads = { λ form. number_within form.low form.high };

    fn read(self, _alloc: Global, value: &Value) -> Result<u64, FormFault> {
        match value.as_u64() {
            Some(n) if self.low <= n && n <= self.high => Ok(n),
            _ => Err(FormFault::Bad),
        }
    }
}

/// An on-completion number, 0 to 5 and not 3 where the call creates.
#[derive(Drop)]
pub(crate) struct Completion {
    pub(crate) creating: bool,
}

impl Form<u8> for Completion {
    ghost reads = { λ form. completion form.creating };

    fn read(self, _alloc: Global, value: &Value) -> Result<u8, FormFault> {
        match value.as_u64() {
            Some(n) if n <= MOST_COMPLETION => {
                let completion = n as u8;
                if self.creating && completion == CLEAR_STATE {
                    Err(FormFault::Bad)
                } else {
                    Ok(completion)
                }
            }
            _ => Err(FormFault::Bad),
        }
    }
}

/// From `low` to `high` bytes.
#[derive(Drop)]
pub(crate) struct Bytes {
    pub(crate) low: usize,
    pub(crate) high: usize,
}

impl Form<Blob> for Bytes {
    ghost reads = { λ form. bytes_within form.low form.high };

    fn read(self, alloc: Global, value: &Value) -> Result<Blob, FormFault> {
        read_bytes(alloc, value, self.low, self.high)
    }
}

/// At most so many texts of from `low` to `high` bytes.
#[derive(Drop)]
pub(crate) struct Texts {
    pub(crate) most: usize,
    pub(crate) low: usize,
    pub(crate) high: usize,
}

impl Form<Blobs> for Texts {
    ghost reads = { λ form. list_within form.most (bytes_within form.low form.high) };

    fn read(self, alloc: Global, value: &Value) -> Result<Blobs, FormFault> {
        match items(value, self.most) {
            Some(items) => read_texts(alloc, items, self.low, self.high),
            None => Err(FormFault::Bad),
        }
    }
}

/// At most 16 arguments, of at most 2048 bytes together.
#[derive(Drop)]
pub(crate) struct Arguments;

impl Form<Blobs> for Arguments {
    ghost reads = { λ _. arguments };

    fn read(self, alloc: Global, value: &Value) -> Result<Blobs, FormFault> {
        let texts = Texts {
            most: MOST_ARGUMENTS,
            low: 0,
            high: MOST_ARGUMENT_BYTES,
        };
        let list = texts.read(alloc, value)?;
        if total_within(list.as_slice(), MOST_ARGUMENT_BYTES) {
            Ok(list)
        } else {
            Err(FormFault::Bad)
        }
    }
}

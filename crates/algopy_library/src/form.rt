//! Which arguments a form takes and what it gives.

ghost use Rattle.std.specs.Prelude.{◌≡◌};
ghost use Rattle.algopy_library.specs.Forms as spec;

use crate::scalar::Scalar;
use awst::Primitive;

/// Which types an argument may have.
#[derive(Clone, Copy, Debug, PartialEq, Eq)]
pub enum Admits {
    /// There is no such argument.
    Nothing,
    Number,
    Bytes,
    Either,
}

/// A form of the library: its operation, what each of its at most four arguments admits, how many values it gives, and the type of each.
#[derive(Clone, Copy, Debug, PartialEq, Eq)]
pub struct Form {
    pub prim: Primitive,
    pub first: Admits,
    pub second: Admits,
    pub third: Admits,
    pub fourth: Admits,
    pub results: u32,
    pub result: Scalar,
}

/// What an argument of a form admits, the first being that of number 0.
pub fn admitted(form: &Form, i: usize) -> Admits
    ensures { result ≡ spec.admitted form.now i }
{
    match i {
        0 => form.first,
        1 => form.second,
        2 => form.third,
        3 => form.fourth,
        _ => Admits::Nothing,
    }
}

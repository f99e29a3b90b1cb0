ghost use Rattle.std.specs.Prelude.{◌≡◌, ◌+◌, ◌<◌, ◌≤◌, Some, drop, length, map, slice_get};
ghost use Rattle.arc4_types.specs.Types.{type_of};
ghost use Rattle.arc4_types.specs.Groups.{bools_in, form_of, row_of};

use crate::abi::Abi;
use crate::form::{Form, form_of};

/// The type of a part of a row, where `types` has one for each part, or one for all.
pub(crate) fn type_at(types: &[Abi], count: usize, i: usize) -> &Abi
    requires inside { i < count }
    requires row { length (row_of types.now count) ≡ count }
    ensures { slice_get (row_of types.now count) i ≡ Some result.now }
{
    match types {
        [one] => one,
        _ => &types[i],
    }
}

/// How many parts from part `i` on are bools, up to eight.
#[tactic(auto, using(crate::proofs::Runs::bools_more, crate::proofs::Runs::bools_full, crate::proofs::Runs::bools_past, crate::proofs::Runs::bools_stop))]
pub(crate) fn bools_from(types: &[Abi], count: usize, i: usize) -> usize
    requires inside { i < count }
    requires row { length (row_of types.now count) ≡ count }
    ensures value { result ≡ bools_in (drop i (map (λ t. form_of (type_of t)) (row_of types.now count))) 8 }
    ensures most { result ≤ 8 }
    ensures within { i + result ≤ count }
{
    let mut run = 0;
    while run < 8 && i + run < count && form_of(type_at(types, count, i + run)) == Form::Bool {
        run += 1;
    }
    run
}

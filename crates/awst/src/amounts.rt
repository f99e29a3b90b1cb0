//! How many places a function's code may hold, and what it needs on the stack.

ghost use Rattle.std.specs.Prelude.{◌≡◌};
ghost use Rattle.awst.specs.Capped.{capped};
ghost use Rattle.awst.specs.Functions.{places_of, stack_need_of};

use crate::contract::Func;
use crate::loads::body_load;
use crate::waits::{scalars, total_scalars};

/// The places that each `for` holds.
const PLACES_OF_FOR: u64 = 3;

/// How many places the code of a function may hold, at most 2^64-1: the scalars of its variables, three for each `for`,
/// and the greatest number that its result has or that wait while an expression is evaluated.
pub fn places(f: &Func) -> u64
    ensures { result ≡ capped (places_of f.now) }
{
    let params = total_scalars(f.params.as_slice());
    let variables = params.saturating_add(total_scalars(f.locals.as_slice()));
    let load = body_load(f.body.as_slice());
    let fors = load.fors.saturating_mul(PLACES_OF_FOR);
    let most = load.wait.max(scalars(&f.result));
    variables.saturating_add(fors).saturating_add(most)
}

/// What an open function needs on the stack, at most 2^64-1: two for each of its places, sixteen more,
/// and one for each literal of its greatest choice among literals.
pub fn stack_need(f: &Func) -> u64
    ensures { result ≡ capped (stack_need_of f.now) }
{
    let literals = body_load(f.body.as_slice()).literals;
    let twice = places(f).saturating_mul(2);
    twice.saturating_add(16).saturating_add(literals)
}

//! The first rule that is broken.

ghost use Rattle.std.specs.Prelude.{◌≡◌, IfOk, None};
ghost use Rattle.path_rules.specs.Rules.{IsBroken, IsFirst};
ghost use Rattle.path_rules.specs.Told as spec;

use crate::digest::digest;
use crate::note::Notes;
use crate::order::{earlier_place, earlier_refusal};
use crate::summary::Touched;
use crate::told::told_by;
use puya_base::{Memory, Place, Refusal, Rule};
use std::alloc::Global;

fn first_read(touched: &[Touched]) -> Option<Place>
    ensures { result ≡ spec.first_read None touched.now }
{
    let mut first = None;
    for t in touched {
        first = earlier_place(first, t.effect.unassigned.read);
    }
    first
}

fn refused_at(rule: Rule, place: Option<Place>) -> Option<Refusal>
    ensures { result ≡ spec.refused_at rule place }
{
    match place {
        None => None,
        Some(place) => Some(Refusal { rule, place }),
    }
}

fn where_it_holds(holds: bool, place: Option<Place>) -> Option<Place>
    ensures { result ≡ spec.where_it_holds holds place }
{
    if holds { place } else { None }
}

/// The first refusal, by place and then by the number of the rule, of those that the notes on a function's body bring;
/// none exactly where there is none. It is refused what the notes say is broken, P17 at a read of a variable that some path
/// reaches before an assignment, P19 at `break` and `continue` outside loops, and P18 at `end`, the place of the name of a
/// function that has a result, where some path reaches the end. All variables begin unassigned, so the notes of a function
/// begin with an assignment of each parameter.
///
/// The time grows with the notes times the depth at which they stand, but for a factor that is the number of digits of their
/// count; the depth of the recursion is that of blocks. The error is want of memory.
pub fn broken(alloc: Global, notes: &Notes, end: Option<Place>) -> Result<Option<Refusal>, Memory>
    ensures { IfOk result (λ first. IsFirst (IsBroken notes.now end) first) }
{
    let listed = notes.as_slice();
    let summary = digest(alloc, listed)?;
    let read = first_read(summary.touched.as_slice());
    let missing = where_it_holds(summary.others.goes, end);
    let told = told_by(None, false, listed);
    let first = earlier_refusal(told, refused_at(Rule::P17, read));
    Ok(earlier_refusal(first, refused_at(Rule::P18, missing)))
}

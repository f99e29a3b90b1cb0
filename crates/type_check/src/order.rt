//! The first of several broken rules, by place and then by number.

ghost use Rattle.std.specs.Prelude.{◌≡◌};
ghost use Rattle.path_rules.specs.Order as spec;
ghost use Rattle.path_rules.specs.Rules as rules;
ghost use Rattle.type_check.specs.Firsts.{first_in};

use puya_base::{Refusal, Rule};

fn number_of(rule: Rule) -> u8
    ensures { result ≡ rules.number_of rule }
{
    rule as u8 + 1
}

fn precedes(q: Refusal, r: Refusal) -> bool
    ensures { result ≡ spec.precedes q r }
{
    if q.place.line == r.place.line {
        if q.place.col == r.place.col {
            number_of(q.rule) < number_of(r.rule)
        } else {
            q.place.col < r.place.col
        }
    } else {
        q.place.line < r.place.line
    }
}

/// The refusal that comes first, where both are there.
pub(crate) fn earlier(a: Option<Refusal>, b: Option<Refusal>) -> Option<Refusal>
    ensures { result ≡ spec.earlier_refusal a b }
{
    let Some(q) = a else {
        return b;
    };
    let Some(r) = b else {
        return a;
    };
    if precedes(r, q) { b } else { a }
}

/// The refusal that comes first of these and of one that may be there.
pub(crate) fn first_of(before: Option<Refusal>, told: &[Refusal]) -> Option<Refusal>
    ensures { result ≡ first_in before told.now }
{
    let mut first = before;
    let mut rest = told;
    while let [one, behind @ ..] = rest {
        first = earlier(first, Some(*one));
        rest = behind;
    }
    first
}

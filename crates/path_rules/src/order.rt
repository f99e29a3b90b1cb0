//! The earlier of two places, and of two refusals.

ghost use Rattle.std.specs.Prelude.{◌≡◌};
ghost use Rattle.path_rules.specs.Rules.{number_of};
ghost use Rattle.path_rules.specs.Order as spec;

use puya_base::{Place, Refusal, Rule};

fn is_before(p: Place, q: Place) -> bool
    ensures { result ≡ spec.is_before p q }
{
    if p.line == q.line {
        p.col < q.col
    } else {
        p.line < q.line
    }
}

/// The earlier of two places, where both are there.
pub(crate) fn earlier_place(a: Option<Place>, b: Option<Place>) -> Option<Place>
    ensures { result ≡ spec.earlier_place a b }
{
    let Some(p) = a else {
        return b;
    };
    let Some(q) = b else {
        return a;
    };
    if is_before(q, p) { b } else { a }
}

/// The number of a rule.
fn number_of(rule: Rule) -> u8
    ensures { result ≡ number_of rule }
{
    rule as u8 + 1
}

fn precedes(q: Refusal, r: Refusal) -> bool
    ensures { result ≡ spec.precedes q r }
{
    if q.place.line == r.place.line {
        if q.place.col == r.place.col {
            number_of(q.rule) < number_of(r.rule)
        } else {
            q.place.col < r.place.col
        }
    } else {
        q.place.line < r.place.line
    }
}

/// The refusal that comes first, by place and then by rule, where both are there.
pub(crate) fn earlier_refusal(a: Option<Refusal>, b: Option<Refusal>) -> Option<Refusal>
    ensures { result ≡ spec.earlier_refusal a b }
{
    let Some(q) = a else {
        return b;
    };
    let Some(r) = b else {
        return a;
    };
    if precedes(r, q) { b } else { a }
}

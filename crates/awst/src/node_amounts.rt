//! What the code of a node may weigh in bytes, and what a run pays for it in units of the budget.

ghost use Rattle.std.specs.Prelude.{◌≡◌, ℕ, ◌+◌, ◌*◌, ◌≤◌, length, map};
ghost use Rattle.awst.specs.Capped.{capped};
ghost use Rattle.awst.specs.Heads.{own_head};
ghost use Rattle.awst.specs.Plain.{bare_of, total_of, tree_of};
ghost use Rattle.awst.specs.Table.{amounts, own_match, own_prim, varint_within};
ghost use Rattle.awst.specs.Tree.{node_of};

use crate::expression::{Expr, ExprKind, Index};
use crate::primitive::Primitive;
use crate::waits::scalars;

/// The weight of a node in bytes and its price in units of the budget, each at most 2^64-1.
#[derive(Clone, Copy, Debug, PartialEq, Eq)]
pub struct Amounts {
    pub weight: u64,
    pub price: u64,
}

/// A node whose amounts depend on one number of scalars and on nothing else.
#[derive(Clone, Copy, Debug, PartialEq, Eq)]
pub enum HeadKind {
    /// A read of a variable: the scalars of the value.
    Local,
    /// A tuple: the scalars of the value.
    Tuple,
    /// A part of a tuple: the scalars of the part.
    Item,
    /// `and`, `or`, a conditional expression: the scalars of the value.
    Choice,
    /// A call: the scalars of the parameters and of the result.
    Call,
    /// An assignment: the scalars of the value.
    Assign,
    /// An expression as a statement: the scalars of the value.
    Effect,
    /// `assert`: any number.
    Assert,
    /// `if`, and each `elif`: the scalars of the variables that are assigned from there on.
    If,
    /// `while`: the scalars of the variables that the loop assigns, as at every loop.
    While,
    /// `for` over `urange`.
    Range,
    /// `for` over a value.
    Each,
    /// `break`, `continue`: the scalars of the variables that the innermost loop assigns.
    Leave,
    /// `return`: the scalars of the value.
    Return,
    /// Rejecting: any number.
    Fail,
}

/// A fixed amount, and so much for each scalar.
#[derive(Clone, Copy)]
struct Rate {
    fixed: u64,
    each: u64,
}

/// The table of the nodes whose price is their weight.
fn rate_of(head: HeadKind) -> Rate
    ensures { (s : ℕ) → own_head head s ≡ amounts (result.fixed + result.each * s) 0 }
{
    match head {
        HeadKind::Local | HeadKind::Tuple | HeadKind::Effect => Rate { fixed: 0, each: 4 },
        HeadKind::Item => Rate { fixed: 0, each: 8 },
        HeadKind::Choice | HeadKind::If => Rate { fixed: 48, each: 8 },
        HeadKind::Call => Rate { fixed: 12, each: 6 },
        HeadKind::Assign => Rate { fixed: 0, each: 10 },
        HeadKind::Assert | HeadKind::Fail => Rate { fixed: 8, each: 0 },
        HeadKind::While => Rate { fixed: 64, each: 8 },
        HeadKind::Range => Rate {
            fixed: 138,
            each: 8,
        },
        HeadKind::Each => Rate {
            fixed: 170,
            each: 8,
        },
        HeadKind::Leave => Rate { fixed: 16, each: 8 },
        HeadKind::Return => Rate {
            fixed: 16,
            each: 10,
        },
    }
}

/// A fixed amount and so much for each of a number, at most 2^64-1; the number may be one that stands still there.
pub(crate) fn linear(fixed: u64, each: u64, count: u64) -> u64
    ensures { (n : ℕ) → count ≡ capped n → result ≡ capped (fixed + each * n) }
{
    each.saturating_mul(count).saturating_add(fixed)
}

/// The amounts of a node whose price is its weight.
fn paid(amount: u64) -> Amounts
    ensures weight { result.weight ≡ amount }
    ensures price { result.price ≡ amount }
{
    Amounts {
        weight: amount,
        price: amount,
    }
}

/// The amounts of a node that depend on one number of scalars, which may be one that stands still at 2^64-1.
pub fn head_amounts(head: HeadKind, scalars: u64) -> Amounts
    ensures weight { (s : ℕ) → scalars ≡ capped s → result.weight ≡ capped (own_head head s).weight }
    ensures price { (s : ℕ) → scalars ≡ capped s → result.price ≡ capped (own_head head s).price }
{
    let rate = rate_of(head);
    paid(linear(rate.fixed, rate.each, scalars))
}

/// The amounts of a choice among so many literals, which have so many bytes together, by the scalars of the variables
/// that are assigned in it. The numbers may be such that stand still at 2^64-1.
pub fn match_amounts(literals: u64, size: u64, scalars: u64) -> Amounts
    ensures weight { (n b s : ℕ) → literals ≡ capped n → size ≡ capped b → scalars ≡ capped s → result.weight ≡ capped (own_match n b s).weight }
    ensures price { (n b s : ℕ) → literals ≡ capped n → scalars ≡ capped s → result.price ≡ capped (own_match n b s).price }
{
    let assigned = linear(48, 8, scalars);
    Amounts {
        weight: linear(0, 16, literals)
            .saturating_add(size)
            .saturating_add(assigned),
        price: linear(0, 8, literals).saturating_add(assigned),
    }
}

/// The amounts of a form by the scalars of its value and, of a log, by the number of its parts.
/// The numbers may be such that stand still at 2^64-1.
pub fn primitive_amounts(prim: Primitive, scalars: u64, parts: u64) -> Amounts
    ensures weight { (s p : ℕ) → scalars ≡ capped s → parts ≡ capped p → result.weight ≡ capped (own_prim prim s p).weight }
    ensures price { (s p : ℕ) → scalars ≡ capped s → parts ≡ capped p → result.price ≡ capped (own_prim prim s p).price }
{
    match prim {
        Primitive::SliceAll | Primitive::SliceFrom | Primitive::SliceTo | Primitive::SliceBetween =>
            paid(64),
        Primitive::Log => paid(linear(16, 16, parts)),
        Primitive::OpSha256 => dear_form(scalars, 35),
        Primitive::OpSha512Of256 => dear_form(scalars, 45),
        Primitive::OpDivmodw => dear_form(scalars, 20),
        Primitive::OpSqrt => dear_form(scalars, 4),
        _ => dear_form(scalars, 0),
    }
}

/// The amounts of a form whose instruction costs so much more than one.
fn dear_form(scalars: u64, cost: u64) -> Amounts
    requires { cost ≤ 45 }
    ensures weight { (s : ℕ) → scalars ≡ capped s → result.weight ≡ capped (16 + 4 * s) }
    ensures price { (s : ℕ) → scalars ≡ capped s → result.price ≡ capped (16 + 4 * s + cost) }
{
    Amounts {
        weight: linear(16, 4, scalars),
        price: linear(16 + cost, 4, scalars),
    }
}

/// How many groups of seven bits a number takes, of at most `more` and one.
fn groups_within(more: u8, n: u64) -> u64
    ensures value { result ≡ varint_within more n }
    ensures few { result ≤ more + 1 }
{
    if more == 0 || n < 128 {
        return 1;
    }
    groups_within(more - 1, n / 128) + 1
}

/// The scalars of the values of parts together, at most 2^64-1.
fn total_scalars(parts: &[Expr]) -> u64
    ensures { result ≡ capped (total_of (map tree_of parts.now)) }
{
    let mut total: u64 = 0;
    for e in parts {
        total = total.saturating_add(scalars(&e.ty));
    }
    total
}

/// The amounts of an expression of a type of so many scalars.
fn kind_amounts(kind: &ExprKind, scalars: u64) -> Amounts
    ensures weight { (s : ℕ) → scalars ≡ capped s → result.weight ≡ capped ((bare_of kind.now).own s).weight }
    ensures price { (s : ℕ) → scalars ≡ capped s → result.price ≡ capped ((bare_of kind.now).own s).price }
{
    match kind {
        ExprKind::Int(n) => Amounts {
            weight: 4 + groups_within(9, *n),
            price: 4,
        },
        ExprKind::Flag(_flag) => Amounts {
            weight: 5,
            price: 4,
        },
        ExprKind::Data(bytes) => Amounts {
            weight: (bytes.len() as u64).saturating_add(8),
            price: 8,
        },
        ExprKind::Local(_x) => head_amounts(HeadKind::Local, scalars),
        ExprKind::Prim(prim, parts) => primitive_amounts(*prim, scalars, parts.len() as u64),
        ExprKind::And(_, _) | ExprKind::Or(_, _) | ExprKind::Choose(_, _, _) => head_amounts(
            HeadKind::Choice,
            scalars,
        ),
        ExprKind::Tuple(_parts) => head_amounts(HeadKind::Tuple, scalars),
        ExprKind::Item(_value, Index::Fixed(_at)) => head_amounts(HeadKind::Item, scalars),
        ExprKind::Item(_value, Index::At(_at)) => paid(96),
        ExprKind::Call(_f, parts, _order) => {
            let passed = total_scalars(parts.as_slice());
            head_amounts(HeadKind::Call, passed.saturating_add(scalars))
        }
    }
}

/// The amounts of an expression itself, without its parts.
pub fn expression_amounts(e: &Expr) -> Amounts
    ensures weight { result.weight ≡ capped (node_of (tree_of e.now)).own.weight }
    ensures price { result.price ≡ capped (node_of (tree_of e.now)).own.price }
{
    kind_amounts(&e.kind, scalars(&e.ty))
}

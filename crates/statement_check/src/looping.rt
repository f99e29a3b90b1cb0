//! What a `for` goes over (Python reference, 8.3; Algorand Python guide, "Control flow"); P14 on what it can't go over.

ghost use Rattle.std.specs.Prelude.{◌≡◌, ◌++◌, [], ◌∷◌, Some, IfOk, OnOk};
ghost use Rattle.source_names.specs.Types as types;
ghost use Rattle.meaning_rules.specs.Meanings as meanings;
ghost use Rattle.statement_check.specs.Looping as looping;
ghost use Rattle.statement_check.specs.Statements as spec;

use crate::stating::one_stmt;
use algopy_library::Scalar;
use awst::{Expr, StmtKind, Stmts};
use meaning_rules::{Meaning, Operand, Range, Typed, as_operand, break_rule, expr_in, scalar_of};
use path_rules::Notes;
use puya_base::{Memory, Place, Rule};
use source_names::SourceType;
use std::alloc::Global;

/// What a `for` goes over: the numbers of a range, the bytes of a value, or nothing that is known.
#[derive(Drop)]
pub(crate) enum Over {
    Range(Range),
    Bytes(Expr),
    Nothing,
}

fn over_nothing(into: &mut Notes, place: Place) -> Result<Over, Memory>
    ensures told { OnOk result (into.new ≡ into.old ++ meanings.broken Rule.P14 place ∷ []) }
    ensures over { IfOk result (λ o. o ≡ Over.Nothing) }
{
    break_rule(into, Rule::P14, place)?;
    Ok(Over::Nothing)
}

fn over_scalar(into: &mut Notes, typed: Typed, scalar: Scalar) -> Result<Over, Memory>
    ensures told { OnOk result (into.new ≡ into.old ++ (spec.over_scalar typed (Some scalar)).notes) }
    ensures over { IfOk result (λ o. looping.IsOver o (spec.over_scalar typed (Some scalar))) }
{
    match scalar {
        Scalar::Bytes => Ok(Over::Bytes(expr_in(typed))),
        _ => over_nothing(into, typed.expr.place),
    }
}

fn over_typed(into: &mut Notes, typed: Typed) -> Result<Over, Memory>
    ensures told { OnOk result (into.new ≡ into.old ++ (spec.over_scalar typed (types.scalar_of typed.ty)).notes) }
    ensures over { IfOk result (λ o. looping.IsOver o (spec.over_scalar typed (types.scalar_of typed.ty))) }
{
    match scalar_of(&typed.ty) {
        Some(scalar) => over_scalar(into, typed, scalar),
        None => over_nothing(into, typed.expr.place),
    }
}

fn over_operand(into: &mut Notes, operand: Operand) -> Result<Over, Memory>
    ensures told { OnOk result (into.new ≡ into.old ++ (spec.over_operand operand).notes) }
    ensures over { IfOk result (λ o. looping.IsOver o (spec.over_operand operand)) }
{
    match operand {
        Operand::Value(typed) => over_typed(into, typed),
        Operand::Literal(at, _) => over_nothing(into, at),
        Operand::Missing => Ok(Over::Nothing),
    }
}

fn over_value(into: &mut Notes, place: Place, meaning: Meaning) -> Result<Over, Memory>
    ensures told { OnOk result (into.new ≡ into.old ++ (spec.over_value place (meanings.says meaning)).notes) }
    ensures over { IfOk result (λ o. looping.IsOver o (spec.over_value place (meanings.says meaning))) }
{
    let operand = as_operand(into, place, meaning)?;
    over_operand(into, operand)
}

/// What a `for` goes over where this is written; P14 on what it can't go over.
pub(crate) fn over_meaning(into: &mut Notes, place: Place, meaning: Meaning) -> Result<Over, Memory>
    ensures told { OnOk result (into.new ≡ into.old ++ (spec.over place (meanings.says meaning)).notes) }
    ensures over { IfOk result (λ o. looping.IsOver o (spec.over place (meanings.says meaning))) }
{
    match meaning {
        Meaning::Range(range) => Ok(Over::Range(range)),
        _ => over_value(into, place, meaning),
    }
}

/// The type of the loop's variable.
pub(crate) fn turn_type(over: &Over) -> Option<SourceType>
    ensures { result ≡ looping.turn_type over.now }
{
    match over {
        Over::Range(_) => Some(SourceType::Scalar(Scalar::UInt64)),
        Over::Bytes(_) => Some(SourceType::Scalar(Scalar::Bytes)),
        Over::Nothing => None,
    }
}

fn range_stmt(
    alloc: Global,
    place: Place,
    number: u32,
    range: Range,
    body: Stmts,
) -> Result<Option<Stmts>, Memory>
    ensures { IfOk result (λ ss. ss ≡ looping.over_stmt place number (Over.Range range) body) }
{
    let Range { start, stop, step } = range;
    one_stmt(
        alloc,
        place,
        StmtKind::Range(number, start, stop, step, body),
    )
}

fn over_stmt(
    alloc: Global,
    place: Place,
    number: u32,
    over: Over,
    body: Stmts,
) -> Result<Option<Stmts>, Memory>
    ensures { IfOk result (λ ss. ss ≡ looping.over_stmt place number over body) }
{
    match over {
        Over::Range(range) => range_stmt(alloc, place, number, range, body),
        Over::Bytes(expr) => one_stmt(alloc, place, StmtKind::Each(number, expr, body)),
        Over::Nothing => Ok(None),
    }
}

/// The loop over this body, where both are known and the variable may take its values.
pub(crate) fn for_stmt(
    alloc: Global,
    place: Place,
    number: u32,
    differs: bool,
    over: Over,
    body: Option<Stmts>,
) -> Result<Option<Stmts>, Memory>
    ensures { IfOk result (λ ss. ss ≡ looping.for_stmt place number differs over body) }
{
    if differs {
        return Ok(None);
    }
    match body {
        Some(body) => over_stmt(alloc, place, number, over, body),
        None => Ok(None),
    }
}

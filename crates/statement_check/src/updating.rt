//! Augmented assignments (Python reference, 7.2.1): a read of the variable, the right side, the operator; P14, and P16 on what is no variable.

ghost use Rattle.std.specs.Prelude.{◌≡◌, ◌++◌, [], ◌∷◌, None, Some, IfOk, OnOk, slice_get};
ghost use Rattle.awst.specs.declared.statement.StmtKind.TheVariants as kind;
ghost use Rattle.awst.specs.declared.statement.Target.TheVariants as target;
ghost use Rattle.source_names.specs.Source as source;
ghost use Rattle.source_names.specs.Types as types;
ghost use Rattle.meaning_rules.specs.Meanings as meanings;
ghost use Rattle.meaning_rules.specs.Operations as operations;
ghost use Rattle.statement_check.specs.Lines as lines;
ghost use Rattle.expression_check.specs.Sights.{seen};
ghost use Rattle.statement_check.specs.Statements as spec;
ghost use Rattle.statement_check.specs.Updating as updates;

use crate::assigning::{bad_exprs, note_assign, variable_of};
use crate::places::exprs_place;
use crate::stating::{one_stmt, one_target};
use crate::targets::exprs_name;
use crate::values::tree_noted;
use algopy_library::{Operation, Operator, Scalar, between};
use awst::{StmtKind, Stmts};
use expression_check::{Locals, Sight, freely, judge_operand, read_at};
use meaning_rules::{
    BinaryOperator, Lit, Operand, Typed, as_operand, expr_in, has_between, literal_as, scalar_of,
    value_breaks,
};
use path_rules::Notes;
use puya_base::{Memory, Place, Rule};
use py_grammar::{Exprs, Tree, UpdateOp};
use source_names::{SourceType, same_type};
use std::alloc::Global;

/// The operator of an augmented assignment.
fn update_operator(op: UpdateOp) -> Operator
    ensures { result ≡ lines.update_operator op }
{
    match op {
        UpdateOp::Add => Operator::Add,
        UpdateOp::Sub => Operator::Sub,
        UpdateOp::Mul => Operator::Mul,
        UpdateOp::FloorDiv => Operator::FloorDiv,
        UpdateOp::Mod => Operator::Mod,
        UpdateOp::Power => Operator::Power,
        UpdateOp::BitAnd => Operator::BitAnd,
        UpdateOp::BitOr => Operator::BitOr,
        UpdateOp::BitXor => Operator::BitXor,
        UpdateOp::ShiftLeft => Operator::ShiftLeft,
        UpdateOp::ShiftRight => Operator::ShiftRight,
    }
}

fn same_as(into: &mut Notes, ty: &SourceType, b: Typed) -> Result<Option<Typed>, Memory>
    ensures told { OnOk result (into.new ≡ into.old ++ (updates.same_as ty.now b).notes) }
    ensures typed { IfOk result (λ t. t ≡ (updates.same_as ty.now b).typed) }
{
    if same_type(ty, &b.ty) {
        Ok(Some(b))
    } else {
        value_breaks(into, Rule::P14, b.expr.place)
    }
}

fn agreed_value(
    into: &mut Notes,
    place: Place,
    operator: Operator,
    ty: &SourceType,
    b: Typed,
) -> Result<Option<Typed>, Memory>
    ensures told { OnOk result (into.new ≡ into.old ++ (updates.agreed_value place operator ty.now b).notes) }
    ensures typed { IfOk result (λ t. t ≡ (updates.agreed_value place operator ty.now b).typed) }
{
    if has_between(BinaryOperator::Does(operator), ty) {
        same_as(into, ty, b)
    } else {
        value_breaks(into, Rule::P14, place)
    }
}

fn agreed_literal(
    into: &mut Notes,
    place: Place,
    operator: Operator,
    ty: &SourceType,
    at: Place,
    lit: Lit,
) -> Result<Option<Typed>, Memory>
    ensures told { OnOk result (into.new ≡ into.old ++ (updates.agreed_literal place operator ty.now at lit).notes) }
    ensures typed { IfOk result (λ t. t ≡ (updates.agreed_literal place operator ty.now at lit).typed) }
{
    if has_between(BinaryOperator::Does(operator), ty) {
        literal_as(into, ty, at, lit)
    } else {
        value_breaks(into, Rule::P14, place)
    }
}

/// The right operand beside a left one of a type.
fn agreed(
    into: &mut Notes,
    place: Place,
    operator: Operator,
    ty: &SourceType,
    b: Operand,
) -> Result<Option<Typed>, Memory>
    ensures told { OnOk result (into.new ≡ into.old ++ (updates.agreed place operator ty.now b).notes) }
    ensures typed { IfOk result (λ t. t ≡ (updates.agreed place operator ty.now b).typed) }
{
    match b {
        Operand::Value(b) => agreed_value(into, place, operator, ty, b),
        Operand::Literal(at, lit) => agreed_literal(into, place, operator, ty, at, lit),
        Operand::Missing => Ok(None),
    }
}

fn operation_at(operator: Operator, scalar: Option<Scalar>) -> Option<Operation>
    ensures { result ≡ operations.operation_at operator scalar }
{
    match scalar {
        Some(scalar) => between(operator, scalar),
        None => None,
    }
}

fn updated_by(
    alloc: Global,
    place: Place,
    number: u32,
    operation: Option<Operation>,
    b: Typed,
) -> Result<Option<Stmts>, Memory>
    ensures { IfOk result (λ ss. ss ≡ spec.augmented_by place number operation b) }
{
    match operation {
        Some(operation) => {
            let targets = one_target(alloc, number)?;
            one_stmt(
                alloc,
                place,
                StmtKind::Assign(targets, Some(operation.prim), expr_in(b)),
            )
        }
        None => Ok(None),
    }
}

fn updated_when(
    alloc: Global,
    place: Place,
    number: u32,
    operator: Operator,
    ty: &SourceType,
    b: Option<Typed>,
) -> Result<Option<Stmts>, Memory>
    ensures { IfOk result (λ ss. ss ≡ updates.updated_when place number operator ty.now b) }
{
    match b {
        Some(b) => updated_by(
            alloc,
            place,
            number,
            operation_at(operator, scalar_of(ty)),
            b,
        ),
        None => Ok(None),
    }
}

fn updated_value(
    alloc: Global,
    into: &mut Notes,
    place: Place,
    number: u32,
    operator: Operator,
    a: Typed,
    b: Operand,
) -> Result<Option<Stmts>, Memory>
    ensures told { OnOk result (into.new ≡ into.old ++ (spec.augmented_value place number operator a b).notes) }
    ensures typed { IfOk result (λ ss. ss ≡ (spec.augmented_value place number operator a b).typed) }
{
    let right = agreed(into, place, operator, &a.ty, b)?;
    updated_when(alloc, place, number, operator, &a.ty, right)
}

fn updated(
    alloc: Global,
    into: &mut Notes,
    place: Place,
    number: u32,
    operator: Operator,
    a: Operand,
    b: Operand,
) -> Result<Option<Stmts>, Memory>
    ensures told { OnOk result (into.new ≡ into.old ++ (spec.augmented place number operator a b).notes) }
    ensures typed { IfOk result (λ ss. ss ≡ (spec.augmented place number operator a b).typed) }
{
    match a {
        Operand::Value(a) => updated_value(alloc, into, place, number, operator, a, b),
        Operand::Literal(_, _) => Ok(None),
        Operand::Missing => Ok(None),
    }
}

fn update_variable(
    alloc: Global,
    into: &mut Notes,
    sight: &Sight,
    locals: &mut Locals,
    place: Place,
    number: u32,
    operator: Operator,
    value: &Tree,
) -> Result<Option<Stmts>, Memory>
    ensures locals { OnOk result (locals.new ≡ (spec.augment_variable (seen sight.now locals.old) place number operator (source.tree_of value.now)).locals) }
    ensures told { OnOk result (into.new ≡ into.old ++ (spec.augment_variable (seen sight.now locals.old) place number operator (source.tree_of value.now)).notes) }
    ensures typed { IfOk result (λ ss. ss ≡ (spec.augment_variable (seen sight.now locals.old) place number operator (source.tree_of value.now)).typed) }
{
    let meaning = read_at(alloc, into, place, number, locals.at(number))?;
    let left = as_operand(into, place, meaning)?;
    let right = judge_operand(alloc, into, sight, locals, &freely(), value)?;
    let stmts = updated(alloc, into, place, number, operator, left, right)?;
    note_assign(into, number)?;
    locals.fix(number, None);
    Ok(stmts)
}

fn update_bad(
    alloc: Global,
    into: &mut Notes,
    sight: &Sight,
    locals: &Locals,
    targets: &Exprs,
    value: &Tree,
) -> Result<Option<Stmts>, Memory>
    ensures told { OnOk result (into.new ≡ into.old ++ (spec.assign_bad (seen sight.now locals.now) (lines.exprs_of targets.now) (source.tree_of value.now)).notes) }
    ensures typed { IfOk result (λ ss. ss ≡ None) }
{
    bad_exprs(alloc, into, sight, locals, targets)?;
    tree_noted(alloc, into, sight, locals, value)?;
    Ok(None)
}

/// An augmented assignment.
pub(crate) fn update(
    alloc: Global,
    into: &mut Notes,
    sight: &Sight,
    locals: &mut Locals,
    targets: &Exprs,
    op: UpdateOp,
    value: &Tree,
) -> Result<Option<Stmts>, Memory>
    ensures locals { OnOk result (locals.new ≡ (updates.update (seen sight.now locals.old) (lines.exprs_of targets.now) (lines.update_operator op) (source.tree_of value.now)).locals) }
    ensures told { OnOk result (into.new ≡ into.old ++ (updates.update (seen sight.now locals.old) (lines.exprs_of targets.now) (lines.update_operator op) (source.tree_of value.now)).notes) }
    ensures typed { IfOk result (λ ss. ss ≡ (updates.update (seen sight.now locals.old) (lines.exprs_of targets.now) (lines.update_operator op) (source.tree_of value.now)).typed) }
{
    match variable_of(locals, exprs_name(targets)) {
        Some(number) => {
            let place = exprs_place(targets);
            let operator = update_operator(op);
            update_variable(alloc, into, sight, locals, place, number, operator, value)
        }
        None => update_bad(alloc, into, sight, locals, targets, value),
    }
}

//! Operators (Python reference, 6.5 to 6.12; Algorand Python guide, "Types"): P14 where a type hasn't one, and where two operands differ.

ghost use Rattle.std.specs.Prelude.{◌≡◌, [], ◌++◌, IfOk, OnOk, Some};
ghost use Rattle.source_names.specs.Types as types;
ghost use Rattle.meaning_rules.specs.Meanings as meanings;
ghost use Rattle.meaning_rules.specs.Operations as spec;
ghost use Rattle.meaning_rules.specs.declared.meaning.Hope.TheVariants as hopes;
ghost use Rattle.meaning_rules.specs.Betweens as betweens;

use crate::meaning::{Lit, Meaning, Typed};
use crate::operand::Operand;
use crate::telling::{breaks, expr_in, of_one, of_two, scalar_value};
use crate::types::scalar_of;
use crate::values::literal_as;
use algopy_library::{Operation, Operator, Scalar, between, has_truth, inverted};
use awst::{ExprKind, Primitive};
use path_rules::Notes;
use puya_base::{Boxed, Memory, Place, Rule};
use py_grammar::UnaryOp;
use source_names::{SourceType, same_type};
use std::alloc::Global;

/// What stands between two operands.
#[derive(Clone, Copy, Debug, PartialEq, Eq)]
pub enum BinaryOperator {
    Does(Operator),
    And,
    Or,
    In,
}

fn operation_at(operator: Operator, scalar: Option<Scalar>) -> Option<Operation>
    ensures { result ≡ spec.operation_at operator scalar }
{
    match scalar {
        Some(scalar) => between(operator, scalar),
        None => None,
    }
}

fn is_the_bool(scalar: Scalar) -> bool
    ensures { result ≡ spec.is_bool (Some scalar) }
{
    match scalar {
        Scalar::Bool => true,
        _ => false,
    }
}

fn is_bool(scalar: Option<Scalar>) -> bool
    ensures { result ≡ spec.is_bool scalar }
{
    match scalar {
        Some(scalar) => is_the_bool(scalar),
        None => false,
    }
}

fn is_some_operation(operation: Option<Operation>) -> bool
    ensures { result ≡ spec.is_some_operation operation }
{
    match operation {
        Some(_) => true,
        None => false,
    }
}

/// Whether a type has what stands between, as the type of the left operand.
pub fn has_between(operator: BinaryOperator, ty: &SourceType) -> bool
    ensures { result ≡ spec.has_between (betweens.between_of operator) ty.now }
{
    match operator {
        BinaryOperator::Does(does) => is_some_operation(operation_at(does, scalar_of(ty))),
        BinaryOperator::And => is_bool(scalar_of(ty)),
        BinaryOperator::Or => is_bool(scalar_of(ty)),
        BinaryOperator::In => false,
    }
}

fn operated(
    alloc: Global,
    into: &mut Notes,
    place: Place,
    a: Typed,
    b: Typed,
    operation: Option<Operation>,
) -> Result<Meaning, Memory>
    ensures told { OnOk result (into.new ≡ into.old ++ (spec.operated place a b operation).notes) }
    ensures meaning { IfOk result (λ m. m ≡ (spec.operated place a b operation).meaning) }
{
    match operation {
        Some(operation) => of_two(alloc, place, operation.result, operation.prim, a, b),
        None => breaks(into, Rule::P14, place),
    }
}

fn both_hold(alloc: Global, place: Place, a: Typed, b: Typed) -> Result<Meaning, Memory>
    ensures { IfOk result (λ m. m ≡ (meanings.node place (SourceType.Scalar Scalar.Bool) (ExprKind.And a.expr b.expr)).meaning) }
{
    let left = Boxed::new(alloc, expr_in(a))?;
    let right = Boxed::new(alloc, expr_in(b))?;
    Ok(scalar_value(place, Scalar::Bool, ExprKind::And(left, right)))
}

fn one_holds(alloc: Global, place: Place, a: Typed, b: Typed) -> Result<Meaning, Memory>
    ensures { IfOk result (λ m. m ≡ (meanings.node place (SourceType.Scalar Scalar.Bool) (ExprKind.Or a.expr b.expr)).meaning) }
{
    let left = Boxed::new(alloc, expr_in(a))?;
    let right = Boxed::new(alloc, expr_in(b))?;
    Ok(scalar_value(place, Scalar::Bool, ExprKind::Or(left, right)))
}

fn done(
    alloc: Global,
    into: &mut Notes,
    place: Place,
    operator: Operator,
    a: Typed,
    b: Typed,
) -> Result<Meaning, Memory>
    ensures told { OnOk result (into.new ≡ into.old ++ (spec.operated place a b (spec.operation_at operator (types.scalar_of a.ty))).notes) }
    ensures meaning { IfOk result (λ m. m ≡ (spec.operated place a b (spec.operation_at operator (types.scalar_of a.ty))).meaning) }
{
    let operation = operation_at(operator, scalar_of(&a.ty));
    operated(alloc, into, place, a, b, operation)
}

fn joined_by(
    alloc: Global,
    into: &mut Notes,
    place: Place,
    operator: BinaryOperator,
    a: Typed,
    b: Typed,
) -> Result<Meaning, Memory>
    ensures told { OnOk result (into.new ≡ into.old ++ (spec.joined_by place (betweens.between_of operator) a b).notes) }
    ensures meaning { IfOk result (λ m. m ≡ (spec.joined_by place (betweens.between_of operator) a b).meaning) }
{
    match operator {
        BinaryOperator::Does(does) => done(alloc, into, place, does, a, b),
        BinaryOperator::And => both_hold(alloc, place, a, b),
        BinaryOperator::Or => one_holds(alloc, place, a, b),
        BinaryOperator::In => breaks(into, Rule::P14, b.expr.place),
    }
}

fn of_one_type(
    alloc: Global,
    into: &mut Notes,
    place: Place,
    operator: BinaryOperator,
    a: Typed,
    b: Typed,
) -> Result<Meaning, Memory>
    ensures told { OnOk result (into.new ≡ into.old ++ (betweens.of_one_type place (betweens.between_of operator) a b).notes) }
    ensures meaning { IfOk result (λ m. m ≡ (betweens.of_one_type place (betweens.between_of operator) a b).meaning) }
{
    if same_type(&a.ty, &b.ty) {
        joined_by(alloc, into, place, operator, a, b)
    } else {
        breaks(into, Rule::P14, b.expr.place)
    }
}

/// Two values with an operator between: P14 at the operation where the left type hasn't it, else at the right operand where it has another type.
pub fn two_values(
    alloc: Global,
    into: &mut Notes,
    place: Place,
    operator: BinaryOperator,
    a: Typed,
    b: Typed,
) -> Result<Meaning, Memory>
    ensures told { OnOk result (into.new ≡ into.old ++ (spec.two_values place (betweens.between_of operator) a b).notes) }
    ensures meaning { IfOk result (λ m. m ≡ (spec.two_values place (betweens.between_of operator) a b).meaning) }
{
    if has_between(operator, &a.ty) {
        of_one_type(alloc, into, place, operator, a, b)
    } else {
        breaks(into, Rule::P14, place)
    }
}

fn with_left(
    alloc: Global,
    into: &mut Notes,
    place: Place,
    operator: BinaryOperator,
    a: Option<Typed>,
    b: Typed,
) -> Result<Meaning, Memory>
    ensures told { OnOk result (into.new ≡ into.old ++ (spec.with_left place (betweens.between_of operator) a b).notes) }
    ensures meaning { IfOk result (λ m. m ≡ (spec.with_left place (betweens.between_of operator) a b).meaning) }
{
    match a {
        Some(a) => two_values(alloc, into, place, operator, a, b),
        None => Ok(Meaning::Unknown),
    }
}

fn with_right(
    alloc: Global,
    into: &mut Notes,
    place: Place,
    operator: BinaryOperator,
    a: Typed,
    b: Option<Typed>,
) -> Result<Meaning, Memory>
    ensures told { OnOk result (into.new ≡ into.old ++ (spec.with_right place (betweens.between_of operator) a b).notes) }
    ensures meaning { IfOk result (λ m. m ≡ (spec.with_right place (betweens.between_of operator) a b).meaning) }
{
    match b {
        Some(b) => two_values(alloc, into, place, operator, a, b),
        None => Ok(Meaning::Unknown),
    }
}

/// A literal on the left takes the type of the value beside it.
fn left_literal(
    alloc: Global,
    into: &mut Notes,
    place: Place,
    operator: BinaryOperator,
    at: Place,
    lit: Lit,
    b: Typed,
) -> Result<Meaning, Memory>
    ensures told { OnOk result (into.new ≡ into.old ++ (spec.two_operands place (betweens.between_of operator) (Operand.Literal at lit) (Operand.Value b)).notes) }
    ensures meaning { IfOk result (λ m. m ≡ (spec.two_operands place (betweens.between_of operator) (Operand.Literal at lit) (Operand.Value b)).meaning) }
{
    let a = literal_as(into, &b.ty, at, lit)?;
    with_left(alloc, into, place, operator, a, b)
}

fn right_of(
    alloc: Global,
    into: &mut Notes,
    place: Place,
    operator: BinaryOperator,
    a: Typed,
    at: Place,
    lit: Lit,
) -> Result<Meaning, Memory>
    ensures told { OnOk result (into.new ≡ into.old ++ (spec.right_literal place (betweens.between_of operator) a (meanings.literal (hopes.Wants a.ty) at lit)).notes) }
    ensures meaning { IfOk result (λ m. m ≡ (spec.right_literal place (betweens.between_of operator) a (meanings.literal (hopes.Wants a.ty) at lit)).meaning) }
{
    let b = literal_as(into, &a.ty, at, lit)?;
    with_right(alloc, into, place, operator, a, b)
}

/// A literal on the right takes the type of the value beside it.
fn right_literal(
    alloc: Global,
    into: &mut Notes,
    place: Place,
    operator: BinaryOperator,
    a: Typed,
    at: Place,
    lit: Lit,
) -> Result<Meaning, Memory>
    ensures told { OnOk result (into.new ≡ into.old ++ (spec.two_operands place (betweens.between_of operator) (Operand.Value a) (Operand.Literal at lit)).notes) }
    ensures meaning { IfOk result (λ m. m ≡ (spec.two_operands place (betweens.between_of operator) (Operand.Value a) (Operand.Literal at lit)).meaning) }
{
    if has_between(operator, &a.ty) {
        right_of(alloc, into, place, operator, a, at, lit)
    } else {
        breaks(into, Rule::P14, place)
    }
}

fn value_and(
    alloc: Global,
    into: &mut Notes,
    place: Place,
    operator: BinaryOperator,
    a: Typed,
    b: Operand,
) -> Result<Meaning, Memory>
    ensures told { OnOk result (into.new ≡ into.old ++ (spec.two_operands place (betweens.between_of operator) (Operand.Value a) b).notes) }
    ensures meaning { IfOk result (λ m. m ≡ (spec.two_operands place (betweens.between_of operator) (Operand.Value a) b).meaning) }
{
    match b {
        Operand::Value(b) => two_values(alloc, into, place, operator, a, b),
        Operand::Literal(at, lit) => right_literal(alloc, into, place, operator, a, at, lit),
        Operand::Missing => Ok(Meaning::Unknown),
    }
}

fn literal_and(
    alloc: Global,
    into: &mut Notes,
    place: Place,
    operator: BinaryOperator,
    at: Place,
    lit: Lit,
    b: Operand,
) -> Result<Meaning, Memory>
    ensures told { OnOk result (into.new ≡ into.old ++ (spec.two_operands place (betweens.between_of operator) (Operand.Literal at lit) b).notes) }
    ensures meaning { IfOk result (λ m. m ≡ (spec.two_operands place (betweens.between_of operator) (Operand.Literal at lit) b).meaning) }
{
    match b {
        Operand::Value(b) => left_literal(alloc, into, place, operator, at, lit, b),
        Operand::Literal(_, _) => breaks(into, Rule::P14, at),
        Operand::Missing => Ok(Meaning::Unknown),
    }
}

/// A literal takes the type of what stands beside it; P14 on two literals.
fn two_operands(
    alloc: Global,
    into: &mut Notes,
    place: Place,
    operator: BinaryOperator,
    a: Operand,
    b: Operand,
) -> Result<Meaning, Memory>
    ensures told { OnOk result (into.new ≡ into.old ++ (spec.two_operands place (betweens.between_of operator) a b).notes) }
    ensures meaning { IfOk result (λ m. m ≡ (spec.two_operands place (betweens.between_of operator) a b).meaning) }
{
    match a {
        Operand::Value(a) => value_and(alloc, into, place, operator, a, b),
        Operand::Literal(at, lit) => literal_and(alloc, into, place, operator, at, lit, b),
        Operand::Missing => Ok(Meaning::Unknown),
    }
}

pub(crate) fn is_missing(operand: &Operand) -> bool
    ensures { result ≡ spec.is_missing operand.now }
{
    match operand {
        Operand::Value(_) => false,
        Operand::Literal(_, _) => false,
        Operand::Missing => true,
    }
}

/// No type has `in`: P14 at the right operand.
fn contained(into: &mut Notes, right: Place, a: &Operand, b: &Operand) -> Result<Meaning, Memory>
    ensures told { OnOk result (into.new ≡ into.old ++ (spec.contained right a.now b.now).notes) }
    ensures meaning { IfOk result (λ m. m ≡ (spec.contained right a.now b.now).meaning) }
{
    if is_missing(a) || is_missing(b) {
        Ok(Meaning::Unknown)
    } else {
        breaks(into, Rule::P14, right)
    }
}

/// Two operands with an operator between, at `place`; `right` is where the right one stands. P14 where the types have it not.
pub fn between_operands(
    alloc: Global,
    into: &mut Notes,
    place: Place,
    right: Place,
    operator: BinaryOperator,
    a: Operand,
    b: Operand,
) -> Result<Meaning, Memory>
    ensures told { OnOk result (into.new ≡ into.old ++ (spec.between_operands place right (betweens.between_of operator) a b).notes) }
    ensures meaning { IfOk result (λ m. m ≡ (spec.between_operands place right (betweens.between_of operator) a b).meaning) }
{
    match operator {
        BinaryOperator::In => contained(into, right, &a, &b),
        operator => two_operands(alloc, into, place, operator, a, b),
    }
}

fn one_operated(
    alloc: Global,
    into: &mut Notes,
    place: Place,
    a: Typed,
    operation: Option<Operation>,
) -> Result<Meaning, Memory>
    ensures told { OnOk result (into.new ≡ into.old ++ (spec.one_operated place a operation).notes) }
    ensures meaning { IfOk result (λ m. m ≡ (spec.one_operated place a operation).meaning) }
{
    match operation {
        Some(operation) => of_one(alloc, place, operation.result, operation.prim, a),
        None => breaks(into, Rule::P14, place),
    }
}

fn inverted_at(scalar: Option<Scalar>) -> Option<Operation>
    ensures { result ≡ spec.inverted_at scalar }
{
    match scalar {
        Some(scalar) => inverted(scalar),
        None => None,
    }
}

fn has_truth_at(scalar: Option<Scalar>) -> bool
    ensures { result ≡ spec.has_truth_at scalar }
{
    match scalar {
        Some(scalar) => has_truth(scalar),
        None => false,
    }
}

fn negated(alloc: Global, into: &mut Notes, place: Place, a: Typed) -> Result<Meaning, Memory>
    ensures told { OnOk result (into.new ≡ into.old ++ (spec.negated place a).notes) }
    ensures meaning { IfOk result (λ m. m ≡ (spec.negated place a).meaning) }
{
    if has_truth_at(scalar_of(&a.ty)) {
        of_one(alloc, place, Scalar::Bool, Primitive::Not, a)
    } else {
        breaks(into, Rule::P14, place)
    }
}

fn inverse(alloc: Global, into: &mut Notes, place: Place, a: Typed) -> Result<Meaning, Memory>
    ensures told { OnOk result (into.new ≡ into.old ++ (spec.unary_value place UnaryOp.Invert a).notes) }
    ensures meaning { IfOk result (λ m. m ≡ (spec.unary_value place UnaryOp.Invert a).meaning) }
{
    let operation = inverted_at(scalar_of(&a.ty));
    one_operated(alloc, into, place, a, operation)
}

fn unary_value(
    alloc: Global,
    into: &mut Notes,
    place: Place,
    operator: UnaryOp,
    a: Typed,
) -> Result<Meaning, Memory>
    ensures told { OnOk result (into.new ≡ into.old ++ (spec.unary_value place operator a).notes) }
    ensures meaning { IfOk result (λ m. m ≡ (spec.unary_value place operator a).meaning) }
{
    match operator {
        UnaryOp::Plus => breaks(into, Rule::P14, place),
        UnaryOp::Minus => breaks(into, Rule::P14, place),
        UnaryOp::Invert => inverse(alloc, into, place, a),
        UnaryOp::Not => negated(alloc, into, place, a),
    }
}

fn unary_literal(
    into: &mut Notes,
    place: Place,
    operator: UnaryOp,
    at: Place,
) -> Result<Meaning, Memory>
    ensures told { OnOk result (into.new ≡ into.old ++ (spec.unary_literal place operator at).notes) }
    ensures meaning { IfOk result (λ m. m ≡ (spec.unary_literal place operator at).meaning) }
{
    match operator {
        UnaryOp::Plus => breaks(into, Rule::P14, place),
        UnaryOp::Minus => breaks(into, Rule::P14, place),
        UnaryOp::Invert => breaks(into, Rule::P14, at),
        UnaryOp::Not => breaks(into, Rule::P14, at),
    }
}

/// An operator before an operand: no type has `+` and `-` there, and P14 on a literal.
pub fn unary_operand(
    alloc: Global,
    into: &mut Notes,
    place: Place,
    operator: UnaryOp,
    a: Operand,
) -> Result<Meaning, Memory>
    ensures told { OnOk result (into.new ≡ into.old ++ (spec.unary_operand place operator a).notes) }
    ensures meaning { IfOk result (λ m. m ≡ (spec.unary_operand place operator a).meaning) }
{
    match a {
        Operand::Value(a) => unary_value(alloc, into, place, operator, a),
        Operand::Literal(at, _) => unary_literal(into, place, operator, at),
        Operand::Missing => Ok(Meaning::Unknown),
    }
}

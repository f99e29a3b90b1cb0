//! Conditional expressions (Python reference, 6.13): P14 where the two values have different types.

ghost use Rattle.std.specs.Prelude.{◌≡◌, ◌++◌, IfOk, OnOk, Some};
ghost use Rattle.meaning_rules.specs.Meanings as meanings;
ghost use Rattle.meaning_rules.specs.Operations as spec;

use crate::meaning::{Hope, Lit, Meaning, Typed};
use crate::operand::Operand;
use crate::telling::{breaks, expr_in, node};
use crate::values::{literal, literal_as};
use awst::{Expr, ExprKind};
use path_rules::Notes;
use puya_base::{Boxed, Memory, Place, Rule};
use source_names::{SourceType, same_type};
use std::alloc::Global;

fn choice(alloc: Global, condition: Expr, a: Expr, b: Expr) -> Result<ExprKind, Memory>
    ensures { IfOk result (λ k. k ≡ ExprKind.Choose condition a b) }
{
    let condition = Boxed::new(alloc, condition)?;
    let a = Boxed::new(alloc, a)?;
    let b = Boxed::new(alloc, b)?;
    Ok(ExprKind::Choose(condition, a, b))
}

fn chosen_by(
    alloc: Global,
    place: Place,
    condition: Typed,
    a: Typed,
    b: Typed,
) -> Result<Meaning, Memory>
    ensures { IfOk result (λ m. m ≡ (spec.chosen_when place (Some condition) a b).meaning) }
{
    let Typed { ty, expr } = a;
    let kind = choice(alloc, expr_in(condition), expr, expr_in(b))?;
    node(alloc, place, ty, kind)
}

fn chosen_when(
    alloc: Global,
    place: Place,
    condition: Option<Typed>,
    a: Typed,
    b: Typed,
) -> Result<Meaning, Memory>
    ensures { IfOk result (λ m. m ≡ (spec.chosen_when place condition a b).meaning) }
{
    match condition {
        Some(condition) => chosen_by(alloc, place, condition, a, b),
        None => Ok(Meaning::Unknown),
    }
}

/// Two values of a conditional expression at `place`; P14 at `at` where their types differ.
pub fn chosen(
    alloc: Global,
    into: &mut Notes,
    place: Place,
    at: Place,
    condition: Option<Typed>,
    a: Typed,
    b: Typed,
) -> Result<Meaning, Memory>
    ensures told { OnOk result (into.new ≡ into.old ++ (spec.chosen place at condition a b).notes) }
    ensures meaning { IfOk result (λ m. m ≡ (spec.chosen place at condition a b).meaning) }
{
    if same_type(&a.ty, &b.ty) {
        chosen_when(alloc, place, condition, a, b)
    } else {
        breaks(into, Rule::P14, at)
    }
}

fn with_first(
    alloc: Global,
    into: &mut Notes,
    place: Place,
    at: Place,
    condition: Option<Typed>,
    a: Typed,
    b: Option<Typed>,
) -> Result<Meaning, Memory>
    ensures told { OnOk result (into.new ≡ into.old ++ (spec.choose_two place at condition (Some a) b).notes) }
    ensures meaning { IfOk result (λ m. m ≡ (spec.choose_two place at condition (Some a) b).meaning) }
{
    match b {
        Some(b) => chosen(alloc, into, place, at, condition, a, b),
        None => Ok(Meaning::Unknown),
    }
}

fn choose_two(
    alloc: Global,
    into: &mut Notes,
    place: Place,
    at: Place,
    condition: Option<Typed>,
    a: Option<Typed>,
    b: Option<Typed>,
) -> Result<Meaning, Memory>
    ensures told { OnOk result (into.new ≡ into.old ++ (spec.choose_two place at condition a b).notes) }
    ensures meaning { IfOk result (λ m. m ≡ (spec.choose_two place at condition a b).meaning) }
{
    match a {
        Some(a) => with_first(alloc, into, place, at, condition, a, b),
        None => Ok(Meaning::Unknown),
    }
}

fn literal_beside(
    into: &mut Notes,
    hope: &Hope,
    ty: &SourceType,
    place: Place,
    lit: Lit,
) -> Result<Option<Typed>, Memory>
    ensures told { OnOk result (into.new ≡ into.old ++ (meanings.literal (spec.beside hope.now ty.now) place lit).notes) }
    ensures typed { IfOk result (λ t. t ≡ (meanings.literal (spec.beside hope.now ty.now) place lit).typed) }
{
    match hope {
        Hope::Wants(wanted) => literal_as(into, wanted, place, lit),
        Hope::Free => literal_as(into, ty, place, lit),
        Hope::Unknown => Ok(None),
    }
}

fn second_literal(
    alloc: Global,
    into: &mut Notes,
    place: Place,
    hope: &Hope,
    condition: Option<Typed>,
    a: Typed,
    at: Place,
    lit: Lit,
) -> Result<Meaning, Memory>
    ensures told { OnOk result (into.new ≡ into.old ++ (spec.choose_literal place at condition a (meanings.literal (spec.beside hope.now a.ty) at lit)).notes) }
    ensures meaning { IfOk result (λ m. m ≡ (spec.choose_literal place at condition a (meanings.literal (spec.beside hope.now a.ty) at lit)).meaning) }
{
    let b = literal_beside(into, hope, &a.ty, at, lit)?;
    with_first(alloc, into, place, at, condition, a, b)
}

fn first_literal(
    alloc: Global,
    into: &mut Notes,
    place: Place,
    hope: &Hope,
    condition: Option<Typed>,
    at: Place,
    lit: Lit,
    b: Typed,
) -> Result<Meaning, Memory>
    ensures told { OnOk result (into.new ≡ into.old ++ (spec.choose_first place at condition (meanings.literal (spec.beside hope.now b.ty) at lit) b).notes) }
    ensures meaning { IfOk result (λ m. m ≡ (spec.choose_first place at condition (meanings.literal (spec.beside hope.now b.ty) at lit) b).meaning) }
{
    let a = literal_beside(into, hope, &b.ty, at, lit)?;
    choose_two(alloc, into, place, at, condition, a, Some(b))
}

fn two_literals(
    alloc: Global,
    into: &mut Notes,
    place: Place,
    hope: &Hope,
    condition: Option<Typed>,
    at: Place,
    a: Lit,
    second: Place,
    b: Lit,
) -> Result<Meaning, Memory>
    ensures told { OnOk result (into.new ≡ into.old ++ (spec.choose_literals place second condition (meanings.literal hope.now at a) (meanings.literal hope.now second b)).notes) }
    ensures meaning { IfOk result (λ m. m ≡ (spec.choose_literals place second condition (meanings.literal hope.now at a) (meanings.literal hope.now second b)).meaning) }
{
    let a = literal(into, hope, at, a)?;
    let b = literal(into, hope, second, b)?;
    choose_two(alloc, into, place, second, condition, a, b)
}

fn value_or(
    alloc: Global,
    into: &mut Notes,
    place: Place,
    second: Place,
    hope: &Hope,
    condition: Option<Typed>,
    a: Typed,
    b: Operand,
) -> Result<Meaning, Memory>
    ensures told { OnOk result (into.new ≡ into.old ++ (spec.choose_values place second hope.now condition (Operand.Value a) b).notes) }
    ensures meaning { IfOk result (λ m. m ≡ (spec.choose_values place second hope.now condition (Operand.Value a) b).meaning) }
{
    match b {
        Operand::Value(b) => chosen(alloc, into, place, second, condition, a, b),
        Operand::Literal(at, lit) => second_literal(
            alloc, into, place, hope, condition, a, at, lit,
        ),
        Operand::Missing => Ok(Meaning::Unknown),
    }
}

fn literal_or(
    alloc: Global,
    into: &mut Notes,
    place: Place,
    second: Place,
    hope: &Hope,
    condition: Option<Typed>,
    at: Place,
    lit: Lit,
    b: Operand,
) -> Result<Meaning, Memory>
    ensures told { OnOk result (into.new ≡ into.old ++ (spec.choose_values place second hope.now condition (Operand.Literal at lit) b).notes) }
    ensures meaning { IfOk result (λ m. m ≡ (spec.choose_values place second hope.now condition (Operand.Literal at lit) b).meaning) }
{
    match b {
        Operand::Value(b) => first_literal(alloc, into, place, hope, condition, at, lit, b),
        Operand::Literal(other, b) => two_literals(
            alloc, into, place, hope, condition, at, lit, other, b,
        ),
        Operand::Missing => Ok(Meaning::Unknown),
    }
}

/// The value of a conditional expression at `place`, whose second value stands at `second`. A literal takes what is hoped for,
/// or else the type of the other value. Where just one of them is a literal, their difference is told at it, else at the second.
pub fn choose_values(
    alloc: Global,
    into: &mut Notes,
    place: Place,
    second: Place,
    hope: &Hope,
    condition: Option<Typed>,
    a: Operand,
    b: Operand,
) -> Result<Meaning, Memory>
    ensures told { OnOk result (into.new ≡ into.old ++ (spec.choose_values place second hope.now condition a b).notes) }
    ensures meaning { IfOk result (λ m. m ≡ (spec.choose_values place second hope.now condition a b).meaning) }
{
    match a {
        Operand::Value(a) => value_or(alloc, into, place, second, hope, condition, a, b),
        Operand::Literal(at, lit) => literal_or(
            alloc, into, place, second, hope, condition, at, lit, b,
        ),
        Operand::Missing => Ok(Meaning::Unknown),
    }
}

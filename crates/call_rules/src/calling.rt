//! Calls whose arguments are known (Python reference, 6.3.4): of functions of the contract, of the library's forms and of `log`; P14 and P15.

ghost use Rattle.std.specs.Prelude.{◌≡◌, ◌++◌, None, Some, IfOk, OnOk};
ghost use Rattle.call_rules.specs.Calls as spec;
ghost use Rattle.call_rules.specs.Callings as callings;

use crate::arguments::Known;
use crate::callee::is_nothing_admitted;
use crate::fitting::{Fitted, fitted_form, fitted_log, fitted_params};
use algopy_library::{Form, Scalar};
use awst::{ExprKind, Exprs, Order, Primitive};
use meaning_rules::{Meaning, breaks, copied, node};
use path_rules::Notes;
use puya_base::{List, Memory, Place, Rule};
use source_names::{Signature, SourceType};
use std::alloc::Global;

fn call_node(
    alloc: Global,
    place: Place,
    function: u32,
    result_type: &Option<SourceType>,
    exprs: Exprs,
    order: Order,
) -> Result<Meaning, Memory>
    ensures { IfOk result (λ m. m ≡ (spec.called place function result_type.now order exprs).meaning) }
{
    match result_type {
        Some(ty) => node(
            alloc,
            place,
            copied(alloc, ty)?,
            ExprKind::Call(function, exprs, order),
        ),
        None => Ok(Meaning::Unknown),
    }
}

fn called_when(
    alloc: Global,
    place: Place,
    function: u32,
    result_type: &Option<SourceType>,
    fitted: Fitted,
) -> Result<Meaning, Memory>
    ensures { IfOk result (λ m. m ≡ (callings.called_when place function result_type.now fitted).meaning) }
{
    let Fitted { exprs, order } = fitted;
    match exprs {
        Some(exprs) => call_node(alloc, place, function, result_type, exprs, order),
        None => Ok(Meaning::Unknown),
    }
}

#[tactic(auto, using(crate::proofs::CallingLaws::told_by))]
fn with_params(
    alloc: Global,
    into: &mut Notes,
    place: Place,
    function: u32,
    signature: &Signature,
    known: Vec<Known>,
) -> Result<Meaning, Memory>
    ensures told { OnOk result (into.new ≡ into.old ++ (callings.with_params place function signature.now known.items).notes) }
    ensures meaning { IfOk result (λ m. m ≡ (callings.with_params place function signature.now known.items).meaning) }
{
    let fitted = fitted_params(alloc, into, signature, known)?;
    called_when(alloc, place, function, &signature.result, fitted)
}

/// A call of a function of the contract, by its number; P15 on another number of arguments.
pub(crate) fn call_function(
    alloc: Global,
    into: &mut Notes,
    place: Place,
    function: u32,
    signature: &Signature,
    known: Vec<Known>,
) -> Result<Meaning, Memory>
    ensures told { OnOk result (into.new ≡ into.old ++ (spec.call_function place function signature.now known.items).notes) }
    ensures meaning { IfOk result (λ m. m ≡ (spec.call_function place function signature.now known.items).meaning) }
{
    if known.len() == signature.params.len() {
        with_params(alloc, into, place, function, signature, known)
    } else {
        breaks(into, Rule::P15, place)
    }
}

/// How many arguments a form takes.
fn form_count(form: &Form) -> usize
    ensures { result ≡ spec.form_count form.now }
{
    if is_nothing_admitted(form.first) {
        return 0;
    }
    if is_nothing_admitted(form.second) {
        return 1;
    }
    if is_nothing_admitted(form.third) {
        return 2;
    }
    if is_nothing_admitted(form.fourth) {
        return 3;
    }
    4
}

#[tactic(auto, using(crate::proofs::CallingLaws::steps))]
fn repeated(alloc: Global, count: u32, scalar: Scalar) -> Result<List<SourceType>, Memory>
    ensures { IfOk result (λ ts. ts ≡ spec.repeated count (SourceType.Scalar scalar)) }
{
    let mut all = List::new(alloc);
    let mut left = count;
    while left > 0 {
        all.push(SourceType::Scalar(scalar))?;
        left -= 1;
    }
    Ok(all)
}

/// One value, or a tuple of several.
fn results_type(alloc: Global, count: u32, scalar: Scalar) -> Result<SourceType, Memory>
    ensures { IfOk result (λ t. t ≡ spec.results_type count scalar) }
{
    match count {
        1 => Ok(SourceType::Scalar(scalar)),
        _ => Ok(SourceType::Tuple(repeated(alloc, count, scalar)?)),
    }
}

fn form_node(
    alloc: Global,
    place: Place,
    form: &Form,
    exprs: Option<Exprs>,
) -> Result<Meaning, Memory>
    ensures { IfOk result (λ m. m ≡ (spec.result_when place exprs (spec.form_result place form.now)).meaning) }
{
    let Some(exprs) = exprs else {
        return Ok(Meaning::Unknown);
    };
    let ty = results_type(alloc, form.results, form.result)?;
    node(alloc, place, ty, ExprKind::Prim(form.prim, exprs))
}

#[tactic(auto, using(crate::proofs::CallingLaws::told_by))]
fn with_form(
    alloc: Global,
    into: &mut Notes,
    place: Place,
    form: &Form,
    known: Vec<Known>,
) -> Result<Meaning, Memory>
    ensures told { OnOk result (into.new ≡ into.old ++ (callings.with_form place form.now known.items).notes) }
    ensures meaning { IfOk result (λ m. m ≡ (callings.with_form place form.now known.items).meaning) }
{
    let Fitted {
        exprs,
        order: _order,
    } = fitted_form(alloc, into, form, known)?;
    form_node(alloc, place, form, exprs)
}

/// A call of a form of the library; P15 on another number of arguments, P14 on one of a type that it doesn't take.
pub(crate) fn call_form(
    alloc: Global,
    into: &mut Notes,
    place: Place,
    form: &Form,
    known: Vec<Known>,
) -> Result<Meaning, Memory>
    ensures told { OnOk result (into.new ≡ into.old ++ (spec.call_form place form.now known.items).notes) }
    ensures meaning { IfOk result (λ m. m ≡ (spec.call_form place form.now known.items).meaning) }
{
    if known.len() == form_count(form) {
        with_form(alloc, into, place, form, known)
    } else {
        breaks(into, Rule::P15, place)
    }
}

fn log_node(alloc: Global, place: Place, exprs: Option<Exprs>) -> Result<Meaning, Memory>
    ensures { IfOk result (λ m. m ≡ (spec.result_when place exprs (callings.log_result place)).meaning) }
{
    match exprs {
        Some(exprs) => node(
            alloc,
            place,
            SourceType::Nothing,
            ExprKind::Prim(Primitive::Log, exprs),
        ),
        None => Ok(Meaning::Unknown),
    }
}

#[tactic(auto, using(crate::proofs::CallingLaws::told_by))]
fn with_log(
    alloc: Global,
    into: &mut Notes,
    place: Place,
    known: Vec<Known>,
) -> Result<Meaning, Memory>
    ensures told { OnOk result (into.new ≡ into.old ++ (callings.with_log place known.items).notes) }
    ensures meaning { IfOk result (λ m. m ≡ (callings.with_log place known.items).meaning) }
{
    let Fitted {
        exprs,
        order: _order,
    } = fitted_log(alloc, into, known)?;
    log_node(alloc, place, exprs)
}

/// A call of `log`, of one argument at least; P15 where there is none.
pub(crate) fn call_log(
    alloc: Global,
    into: &mut Notes,
    place: Place,
    known: Vec<Known>,
) -> Result<Meaning, Memory>
    ensures told { OnOk result (into.new ≡ into.old ++ (spec.call_log place known.items).notes) }
    ensures meaning { IfOk result (λ m. m ≡ (spec.call_log place known.items).meaning) }
{
    if known.len() >= 1 {
        with_log(alloc, into, place, known)
    } else {
        breaks(into, Rule::P15, place)
    }
}

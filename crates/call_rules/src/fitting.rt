//! Known arguments against the parameters that they are for: P14 on one of another type, P15 on one behind the last parameter.

ghost use Rattle.std.specs.Prelude.{◌≡◌, ◌++◌, IfOk, OnOk, None, Some, option_copied};
ghost use Rattle.call_rules.specs.Fittings as fittings;
ghost use Rattle.meaning_rules.specs.Meanings as meanings;
ghost use Rattle.call_rules.specs.Calls as spec;

use crate::arguments::Known;
use algopy_library::{Admits, Form, Scalar, admitted, is_logged};
use awst::{Exprs, Order};
use meaning_rules::{Typed, expr_in, fits_type, is_scalar, scalar_of, small, value_breaks};
use path_rules::Notes;
use puya_base::{List, Memory, Place, Rule};
use source_names::{Parameter, Signature, SourceType};
use std::alloc::Global;

/// The arguments of a call as typed trees, none where one of them breaks a rule, and the number of each one's parameter.
#[derive(Drop)]
pub(crate) struct Fitted {
    pub exprs: Option<Exprs>,
    pub order: Order,
}

fn passes(into: &mut Notes, right: bool, typed: Typed) -> Result<Option<Typed>, Memory>
    ensures told { OnOk result (into.new ≡ into.old ++ (spec.passes right typed).notes) }
    ensures typed { IfOk result (λ t. t ≡ (spec.passes right typed).typed) }
{
    if right {
        Ok(Some(typed))
    } else {
        value_breaks(into, Rule::P14, typed.expr.place)
    }
}

fn fits_param(
    into: &mut Notes,
    ty: &Option<SourceType>,
    typed: Typed,
) -> Result<Option<Typed>, Memory>
    ensures told { OnOk result (into.new ≡ into.old ++ (spec.fits_param ty.now typed).notes) }
    ensures typed { IfOk result (λ t. t ≡ (spec.fits_param ty.now typed).typed) }
{
    match ty {
        Some(ty) => fits_type(into, ty, typed),
        None => Ok(None),
    }
}

fn fits_parameter(
    into: &mut Notes,
    param: Option<&Parameter>,
    typed: Typed,
) -> Result<Option<Typed>, Memory>
    ensures told { OnOk result (into.new ≡ into.old ++ (spec.fits_parameter (option_copied param.entry) typed).notes) }
    ensures typed { IfOk result (λ t. t ≡ (spec.fits_parameter (option_copied param.entry) typed).typed) }
{
    match param {
        Some(param) => fits_param(into, &param.ty, typed),
        None => value_breaks(into, Rule::P15, typed.expr.place),
    }
}

fn param_test(
    into: &mut Notes,
    signature: &Signature,
    number: usize,
    typed: Typed,
) -> Result<Option<Typed>, Memory>
    ensures told { OnOk result (into.new ≡ into.old ++ (spec.param_test signature.now number typed).notes) }
    ensures typed { IfOk result (λ t. t ≡ (spec.param_test signature.now number typed).typed) }
{
    fits_parameter(into, signature.params.get(number), typed)
}

#[tactic(auto, using(crate::proofs::FittingLaws::admitted))]
fn admits_scalar(admits: Admits, scalar: Option<Scalar>) -> bool
    ensures { result ≡ spec.admits_scalar admits scalar }
{
    match admits {
        Admits::Number => is_scalar(scalar, Scalar::UInt64),
        Admits::Bytes => is_scalar(scalar, Scalar::Bytes),
        Admits::Either => is_scalar(scalar, Scalar::UInt64) || is_scalar(scalar, Scalar::Bytes),
        Admits::Nothing => false,
    }
}

fn form_test(
    into: &mut Notes,
    form: &Form,
    number: usize,
    typed: Typed,
) -> Result<Option<Typed>, Memory>
    ensures told { OnOk result (into.new ≡ into.old ++ (spec.form_test form.now number typed).notes) }
    ensures typed { IfOk result (λ t. t ≡ (spec.form_test form.now number typed).typed) }
{
    let right = admits_scalar(admitted(form, number), scalar_of(&typed.ty));
    passes(into, right, typed)
}

fn logged_when(scalar: Option<Scalar>) -> bool
    ensures { result ≡ spec.logged_when scalar }
{
    match scalar {
        Some(scalar) => is_logged(scalar),
        None => false,
    }
}

fn log_test(into: &mut Notes, _number: usize, typed: Typed) -> Result<Option<Typed>, Memory>
    ensures told { OnOk result (into.new ≡ into.old ++ (spec.log_test _number typed).notes) }
    ensures typed { IfOk result (λ t. t ≡ (spec.log_test _number typed).typed) }
{
    let right = logged_when(scalar_of(&typed.ty));
    passes(into, right, typed)
}

fn no_fit(alloc: Global) -> Fitted
    ensures { result ≡ fittings.nothing_yet }
{
    Fitted {
        exprs: Some(List::new(alloc)),
        order: List::new(alloc),
    }
}

fn with_next(exprs: Exprs, typed: Typed) -> Result<Option<Exprs>, Memory>
    ensures { IfOk result (λ es. es ≡ fittings.with_expr (Some exprs) (Some typed)) }
{
    let mut exprs = exprs;
    exprs.push(expr_in(typed))?;
    Ok(Some(exprs))
}

fn with_typed(exprs: Exprs, typed: Option<Typed>) -> Result<Option<Exprs>, Memory>
    ensures { IfOk result (λ es. es ≡ fittings.with_expr (Some exprs) typed) }
{
    match typed {
        Some(typed) => with_next(exprs, typed),
        None => Ok(None),
    }
}

fn with_expr(exprs: Option<Exprs>, typed: Option<Typed>) -> Result<Option<Exprs>, Memory>
    ensures { IfOk result (λ es. es ≡ fittings.with_expr exprs typed) }
{
    match exprs {
        Some(exprs) => with_typed(exprs, typed),
        None => Ok(None),
    }
}

fn with_argument(fitted: Fitted, number: usize, typed: Option<Typed>) -> Result<Fitted, Memory>
    ensures { IfOk result (λ f. f ≡ fittings.with_argument fitted number typed) }
{
    let Fitted { exprs, mut order } = fitted;
    order.push(small(number as u64)?)?;
    Ok(Fitted {
        exprs: with_expr(exprs, typed)?,
        order,
    })
}

/// A literal has no type there.
fn no_literal(
    into: &mut Notes,
    fitted: Fitted,
    number: usize,
    place: Place,
) -> Result<Fitted, Memory>
    ensures told { OnOk result (into.new ≡ into.old ++ (meanings.value_breaks Rule.P14 place).notes) }
    ensures fitted { IfOk result (λ f. f ≡ fittings.with_argument fitted number None) }
{
    let typed = value_breaks(into, Rule::P14, place)?;
    with_argument(fitted, number, typed)
}

fn with_param(
    into: &mut Notes,
    signature: &Signature,
    fitted: Fitted,
    argument: Known,
) -> Result<Fitted, Memory>
    ensures told { OnOk result (into.new ≡ into.old ++ (fittings.argument_test (spec.param_test signature.now) argument).notes) }
    ensures fitted { IfOk result (λ f. f ≡ fittings.with_tested (spec.param_test signature.now) fitted argument) }
{
    match argument {
        Known::Value(number, typed) => {
            let typed = param_test(into, signature, number, typed)?;
            with_argument(fitted, number, typed)
        }
        Known::Literal(number, place, _) => no_literal(into, fitted, number, place),
    }
}

fn with_form(
    into: &mut Notes,
    form: &Form,
    fitted: Fitted,
    argument: Known,
) -> Result<Fitted, Memory>
    ensures told { OnOk result (into.new ≡ into.old ++ (fittings.argument_test (spec.form_test form.now) argument).notes) }
    ensures fitted { IfOk result (λ f. f ≡ fittings.with_tested (spec.form_test form.now) fitted argument) }
{
    match argument {
        Known::Value(number, typed) => {
            let typed = form_test(into, form, number, typed)?;
            with_argument(fitted, number, typed)
        }
        Known::Literal(number, place, _) => no_literal(into, fitted, number, place),
    }
}

fn with_logged(into: &mut Notes, fitted: Fitted, argument: Known) -> Result<Fitted, Memory>
    ensures told { OnOk result (into.new ≡ into.old ++ (fittings.argument_test spec.log_test argument).notes) }
    ensures fitted { IfOk result (λ f. f ≡ fittings.with_tested spec.log_test fitted argument) }
{
    match argument {
        Known::Value(number, typed) => {
            let typed = log_test(into, number, typed)?;
            with_argument(fitted, number, typed)
        }
        Known::Literal(number, place, _) => no_literal(into, fitted, number, place),
    }
}

/// The arguments of a function of the contract.
pub(crate) fn fitted_params(
    alloc: Global,
    into: &mut Notes,
    signature: &Signature,
    known: Vec<Known>,
) -> Result<Fitted, Memory>
    ensures told { OnOk result (into.new ≡ into.old ++ (spec.fitted (spec.param_test signature.now) known.items).notes) }
    ensures fitted { IfOk result (λ f. f ≡ fittings.as_written (spec.fitted (spec.param_test signature.now) known.items)) }
{
    let mut fitted = no_fit(alloc);
    for argument in known {
        fitted = with_param(into, signature, fitted, argument)?;
    }
    Ok(fitted)
}

/// The arguments of a form of the library.
pub(crate) fn fitted_form(
    alloc: Global,
    into: &mut Notes,
    form: &Form,
    known: Vec<Known>,
) -> Result<Fitted, Memory>
    ensures told { OnOk result (into.new ≡ into.old ++ (spec.fitted (spec.form_test form.now) known.items).notes) }
    ensures fitted { IfOk result (λ f. f ≡ fittings.as_written (spec.fitted (spec.form_test form.now) known.items)) }
{
    let mut fitted = no_fit(alloc);
    for argument in known {
        fitted = with_form(into, form, fitted, argument)?;
    }
    Ok(fitted)
}

/// The arguments of `log`.
pub(crate) fn fitted_log(
    alloc: Global,
    into: &mut Notes,
    known: Vec<Known>,
) -> Result<Fitted, Memory>
    ensures told { OnOk result (into.new ≡ into.old ++ (spec.fitted spec.log_test known.items).notes) }
    ensures fitted { IfOk result (λ f. f ≡ fittings.as_written (spec.fitted spec.log_test known.items)) }
{
    let mut fitted = no_fit(alloc);
    for argument in known {
        fitted = with_logged(into, fitted, argument)?;
    }
    Ok(fitted)
}

//! Values of the source.

ghost use Rattle.std.specs.Prelude.{◌≡◌, [], ◌∷◌, ◌++◌, map, IfOk, OnOk};
ghost use Rattle.awst.specs.Values.{string, holds, truth_of, scalars, all_scalars, of_scalar, of_results, parts_of};
ghost use Rattle.awst.specs.Meaning.{number_in, is_literal};
ghost use Rattle.awst_eval.specs.Shown.{meant, all_meant};

use puya_base::{Blob, List, Memory, Value, Values};
use std::alloc::Global;

pub(crate) type Data = List<Datum>;

/// A value of the source.
#[derive(Drop)]
pub(crate) enum Datum {
    Number(u64),
    Flag(bool),
    /// Bytes, a String, or the 32 bytes of an Account.
    Text(Blob),
    /// What a function without a result gives, and what a variable holds that is not assigned.
    Nothing,
    Tuple(Data),
}

/// An equal value of its own.
#[cycle(copy)]
pub(crate) fn copy(alloc: Global, value: &Datum) -> Result<Datum, Memory>
    ensures { IfOk result (λ v. v ≡ value.now) }
{
    match value {
        Datum::Number(n) => Ok(Datum::Number(*n)),
        Datum::Flag(b) => Ok(Datum::Flag(*b)),
        Datum::Text(b) => Ok(Datum::Text(b.copy(alloc)?)),
        Datum::Nothing => Ok(Datum::Nothing),
        Datum::Tuple(parts) => Ok(Datum::Tuple(copies(alloc, parts.as_slice())?)),
    }
}

#[cycle(copy)]
fn copies(alloc: Global, values: &[Datum]) -> Result<Data, Memory>
    ensures { IfOk result (λ vs. vs ≡ values.now) }
{
    let mut out = List::new(alloc);
    for value in values {
        out.push(copy(alloc, value)?)?;
    }
    Ok(out)
}

/// One byte, as bytes.
pub(crate) fn byte(alloc: Global, x: u8) -> Result<Datum, Memory>
    ensures { IfOk result (λ v. meant v ≡ string (x ∷ [])) }
{
    Ok(Datum::Text(Blob::from_slice(alloc, &[x])?))
}

/// Whether a condition holds.
pub(crate) fn is_true(value: &Datum) -> bool
    ensures { result ≡ holds (meant value.now) }
{
    match value {
        Datum::Flag(b) => *b,
        _ => false,
    }
}

/// The truth of a value: a number that is not 0, bytes that are not empty.
pub(crate) fn truth(value: &Datum) -> Option<bool>
    ensures { result ≡ truth_of (meant value.now) }
{
    match value {
        Datum::Number(n) => Some(*n != 0),
        Datum::Flag(b) => Some(*b),
        Datum::Text(b) => Some(b.len() != 0),
        _ => None,
    }
}

/// Appends the scalars of a value, as the machine has them.
#[cycle(scalars)]
#[tactic(auto, using(crate::proofs::Parts::scalars_of_parts))]
fn push_scalars(alloc: Global, value: &Datum, out: &mut Values) -> Result<(), Memory>
    ensures { OnOk result (out.new ≡ out.old ++ scalars (meant value.now)) }
{
    match value {
        Datum::Number(n) => out.push(Value::Int(*n))?,
        Datum::Flag(b) => out.push(Value::Int(if *b { 1 } else { 0 }))?,
        Datum::Text(b) => out.push(Value::Bytes(b.copy(alloc)?))?,
        Datum::Nothing => {}
        Datum::Tuple(parts) => push_each(alloc, parts.as_slice(), out)?,
    }
    Ok(())
}

#[cycle(scalars)]
fn push_each(alloc: Global, values: &[Datum], out: &mut Values) -> Result<(), Memory>
    ensures { OnOk result (out.new ≡ out.old ++ all_scalars (map meant values.now)) }
{
    for value in values {
        push_scalars(alloc, value, out)?;
    }
    Ok(())
}

/// The scalars of values, as the machine has them.
pub(crate) fn machine_values(alloc: Global, values: &[Datum]) -> Result<Values, Memory>
    ensures { IfOk result (λ vs. vs ≡ all_scalars (all_meant values.now)) }
{
    let mut out = List::new(alloc);
    push_each(alloc, values, &mut out)?;
    Ok(out)
}

fn scalar(alloc: Global, value: &Value) -> Result<Datum, Memory>
    ensures { IfOk result (λ v. meant v ≡ of_scalar value.now) }
{
    match value {
        Value::Int(n) => Ok(Datum::Number(*n)),
        Value::Bytes(b) => Ok(Datum::Text(b.copy(alloc)?)),
    }
}

fn each_scalar(alloc: Global, values: &[Value]) -> Result<Data, Memory>
    ensures { IfOk result (λ vs. all_meant vs ≡ map of_scalar values.now) }
{
    let mut out = List::new(alloc);
    for value in values {
        out.push(scalar(alloc, value)?)?;
    }
    Ok(out)
}

/// What an instruction leaves: one value, or a tuple of several.
#[tactic(auto, using(crate::proofs::Parts::result_tuple))]
pub(crate) fn result_of(alloc: Global, results: &[Value]) -> Result<Datum, Memory>
    ensures { IfOk result (λ v. meant v ≡ of_results results.now) }
{
    if results.len() > 1 {
        return Ok(Datum::Tuple(each_scalar(alloc, results)?));
    }
    match results {
        [one] => scalar(alloc, one),
        _ => Ok(Datum::Nothing),
    }
}

/// The number of a value, or 0 where it is none.
pub(crate) fn number_of(value: &Datum) -> u64
    ensures { result ≡ number_in (meant value.now) }
{
    match value {
        Datum::Number(n) => *n,
        _ => 0,
    }
}

/// Whether a value is that literal.
pub(crate) fn equals(value: &Datum, literal: &[u8]) -> bool
    ensures { result ≡ is_literal literal.now (meant value.now) }
{
    match value {
        Datum::Text(b) => literal == b.as_slice(),
        _ => false,
    }
}

/// The parts of a tuple; another value has none.
#[tactic(auto, using(crate::proofs::Parts::parts_in))]
pub(crate) fn parts(value: &Datum) -> &[Datum]
    ensures { all_meant result.now ≡ parts_of (meant value.now) }
{
    match value {
        Datum::Tuple(parts) => parts.as_slice(),
        _ => &[],
    }
}

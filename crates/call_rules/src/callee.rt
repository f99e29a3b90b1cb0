//! What is called (Python reference, 6.3.4), which parameter each argument is for, and what is hoped of it; P09 and P15 on these.

ghost use Rattle.std.specs.Prelude.{◌≡◌, List, IfOk, option_copied};
ghost use Rattle.source_names.specs.declared.signature.Signature.{Signature};
ghost use Rattle.call_rules.specs.Callees as callees;
ghost use Rattle.call_rules.specs.Calls as spec;

use algopy_library::{Admits, Form, Member, Row, Scalar, admitted};
use meaning_rules::{Hope, Meaning, hoped};
use puya_base::{List, Memory, Place, Rule};
use source_names::{Parameter, Signature, SourceType, Thing};
use std::alloc::Global;

/// What is called.
#[derive(Clone, Copy, Debug, PartialEq, Eq)]
pub enum Callee {
    /// A function of the contract, by its number.
    Function(u32),
    Form(Form),
    /// A type: UInt64, bool, Bytes or String.
    Type(Scalar),
    FromHex,
    Logs,
    Ranges,
    /// What can't be called.
    Nothing,
    Unknown,
}

/// Which parameter an argument is for.
#[derive(Clone, Copy, Debug, PartialEq, Eq)]
pub enum Slot {
    /// None, for a rule that is broken.
    Wrong(Rule, Place),
    /// That of this number.
    At(usize),
    /// None: it stands by position behind the last parameter.
    Beyond,
}

fn row_callee(row: Row) -> Callee
    ensures { (fs : List Signature) → callees.meant fs result ≡ spec.row_callee row }
{
    match row {
        Row::UInt64 => Callee::Type(Scalar::UInt64),
        Row::Bool => Callee::Type(Scalar::Bool),
        Row::Bytes => Callee::Type(Scalar::Bytes),
        Row::Text => Callee::Type(Scalar::Text),
        Row::Log => Callee::Logs,
        Row::Urange => Callee::Ranges,
        _ => Callee::Nothing,
    }
}

fn member_callee(member: Member) -> Callee
    ensures { (fs : List Signature) → callees.meant fs result ≡ spec.member_callee member }
{
    match member {
        Member::Form(form) => Callee::Form(form),
        Member::FromHex => Callee::FromHex,
        _ => Callee::Nothing,
    }
}

fn thing_callee(thing: Thing) -> Callee
    ensures { (fs : List Signature) → callees.meant fs result ≡ spec.thing_callee fs thing }
{
    match thing {
        Thing::Library(row) => row_callee(row),
        Thing::Member(member) => member_callee(member),
        Thing::Function(number) => Callee::Function(number),
        Thing::Method(number) => Callee::Function(number),
        Thing::Unknown => Callee::Unknown,
        _ => Callee::Nothing,
    }
}

/// What is called where an expression with this meaning is.
pub fn called(meaning: &Meaning) -> Callee
    ensures { (fs : List Signature) → callees.meant fs result ≡ spec.callee fs meaning.now }
{
    match meaning {
        Meaning::Thing(thing) => thing_callee(*thing),
        Meaning::Value(_) => Callee::Nothing,
        Meaning::Literal(_, _) => Callee::Nothing,
        Meaning::Range(_) => Callee::Nothing,
        Meaning::Unknown => Callee::Unknown,
    }
}

fn admits_hope(admits: Admits) -> Hope
    ensures { result ≡ spec.admits_hope admits }
{
    match admits {
        Admits::Number => Hope::Wants(SourceType::Scalar(Scalar::UInt64)),
        Admits::Bytes => Hope::Wants(SourceType::Scalar(Scalar::Bytes)),
        Admits::Either => Hope::Free,
        Admits::Nothing => Hope::Free,
    }
}

fn range_hope(i: usize) -> Hope
    ensures { result ≡ spec.range_hope i }
{
    if i < 2 {
        Hope::Wants(SourceType::Scalar(Scalar::UInt64))
    } else {
        Hope::Free
    }
}

/// Behind the last parameter nothing is expected; the count is judged at the call.
fn parameter_hope(alloc: Global, param: Option<&Parameter>) -> Result<Hope, Memory>
    ensures { IfOk result (λ h. h ≡ spec.parameter_hope (option_copied param.entry)) }
{
    match param {
        Some(param) => hoped(alloc, &param.ty),
        None => Ok(Hope::Free),
    }
}

fn function_hope(alloc: Global, function: Option<&Signature>, i: usize) -> Result<Hope, Memory>
    ensures { IfOk result (λ h. h ≡ callees.function_hope (option_copied function.entry) i) }
{
    match function {
        Some(function) => parameter_hope(alloc, function.params.get(i)),
        None => Ok(Hope::Unknown),
    }
}

#[tactic(auto, using(crate::proofs::CalleeLaws::hope_same))]
/// What is hoped of the argument for the parameter of this number.
pub fn hope_at(
    alloc: Global,
    functions: &List<Signature>,
    callee: Callee,
    i: usize,
) -> Result<Hope, Memory>
    ensures { IfOk result (λ h. h ≡ spec.hope_at (callees.meant functions.now callee) i) }
{
    match callee {
        Callee::Function(number) => function_hope(alloc, functions.get(number as usize), i),
        Callee::Form(form) => Ok(admits_hope(admitted(&form, i))),
        Callee::Type(_) => Ok(Hope::Free),
        Callee::FromHex => Ok(Hope::Free),
        Callee::Logs => Ok(Hope::Free),
        Callee::Ranges => Ok(range_hope(i)),
        Callee::Nothing => Ok(Hope::Free),
        Callee::Unknown => Ok(Hope::Unknown),
    }
}

pub(crate) fn is_nothing_admitted(admits: Admits) -> bool
    ensures { result ≡ spec.is_nothing_admitted admits }
{
    match admits {
        Admits::Nothing => true,
        _ => false,
    }
}

#[tactic(auto, using(crate::proofs::CalleeLaws::takes_same))]
/// Whether a literal stays one as the argument for the parameter of this number.
pub fn takes_literal(callee: Callee, i: usize) -> bool
    ensures { (fs : List Signature) → result ≡ spec.takes_literal (callees.meant fs callee) i }
{
    match callee {
        Callee::Type(_) => true,
        Callee::FromHex => true,
        Callee::Ranges => i >= 2,
        Callee::Nothing => true,
        Callee::Form(form) => is_nothing_admitted(admitted(&form, i)),
        Callee::Function(_) => false,
        Callee::Logs => false,
        Callee::Unknown => false,
    }
}

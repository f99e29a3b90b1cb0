//! Literals, names and members (Python reference, 6.2 and 6.3.1): what a constant, a variable and a member mean; P09 on members, P14, P17 on a read.

ghost use Rattle.std.specs.Prelude.{◌≡◌, [], ◌∷◌, ◌++◌, None, Some, IfOk, OnOk};
ghost use Rattle.source_names.specs.Types as types;
ghost use Rattle.meaning_rules.specs.Meanings as meanings;
ghost use Rattle.meaning_rules.specs.Operations as spec;
ghost use Rattle.meaning_rules.specs.Reads as reads;

use crate::meaning::{Lit, Meaning, Typed};
use crate::scope::{Local, Status};
use crate::telling::{break_rule, breaks, node, of_one, scalar_value};
use crate::types::{copied, scalar_of};
use algopy_library::{Member, Operation, Scalar, value_member};
use awst::{ExprKind, Primitive};
use path_rules::{Note, Notes};
use puya_base::{Blob, List, Memory, Place, Rule};
use py_grammar::Word;
use source_names::{Constant, SourceType, Thing};
use std::alloc::Global;

/// A text literal; P14 where it has over 4096 bytes.
pub fn text_literal(into: &mut Notes, place: Place, text: Blob) -> Result<Meaning, Memory>
    ensures told { OnOk result (into.new ≡ into.old ++ (spec.short_literal place text (Lit.Text text)).notes) }
    ensures meaning { IfOk result (λ m. m ≡ (spec.short_literal place text (Lit.Text text)).meaning) }
{
    if text.len() <= 4096 {
        Ok(Meaning::Literal(place, Lit::Text(text)))
    } else {
        breaks(into, Rule::P14, place)
    }
}

/// A bytes literal; P14 where it has over 4096 bytes.
pub fn bytes_literal(into: &mut Notes, place: Place, bytes: Blob) -> Result<Meaning, Memory>
    ensures told { OnOk result (into.new ≡ into.old ++ (spec.short_literal place bytes (Lit.Bytes bytes)).notes) }
    ensures meaning { IfOk result (λ m. m ≡ (spec.short_literal place bytes (Lit.Bytes bytes)).meaning) }
{
    if bytes.len() <= 4096 {
        Ok(Meaning::Literal(place, Lit::Bytes(bytes)))
    } else {
        breaks(into, Rule::P14, place)
    }
}

fn note_read(into: &mut Notes, place: Place, variable: u32) -> Result<(), Memory>
    ensures { OnOk result (into.new ≡ into.old ++ spec.read_note place variable) }
{
    into.push(Note::Read(variable, place))?;
    Ok(())
}

fn unseen_read(into: &mut Notes, place: Place, variable: u32) -> Result<Meaning, Memory>
    ensures told { OnOk result (into.new ≡ into.old ++ (reads.unseen_read place variable).notes) }
    ensures meaning { IfOk result (λ m. m ≡ (reads.unseen_read place variable).meaning) }
{
    break_rule(into, Rule::P17, place)?;
    note_read(into, place, variable)?;
    Ok(Meaning::Unknown)
}

fn typed_read(
    alloc: Global,
    place: Place,
    variable: u32,
    ty: &Option<SourceType>,
) -> Result<Meaning, Memory>
    ensures { IfOk result (λ m. m ≡ (reads.fixed_read place variable ty.now).meaning) }
{
    match ty {
        Some(ty) => node(alloc, place, copied(alloc, ty)?, ExprKind::Local(variable)),
        None => Ok(Meaning::Unknown),
    }
}

fn fixed_read(
    alloc: Global,
    into: &mut Notes,
    place: Place,
    variable: u32,
    ty: &Option<SourceType>,
) -> Result<Meaning, Memory>
    ensures told { OnOk result (into.new ≡ into.old ++ (reads.fixed_read place variable ty.now).notes) }
    ensures meaning { IfOk result (λ m. m ≡ (reads.fixed_read place variable ty.now).meaning) }
{
    note_read(into, place, variable)?;
    typed_read(alloc, place, variable, ty)
}

/// A read of a variable; P17 before the first assignment or annotation in reading order.
pub fn read_local(
    alloc: Global,
    into: &mut Notes,
    place: Place,
    variable: u32,
    local: &Local,
) -> Result<Meaning, Memory>
    ensures told { OnOk result (into.new ≡ into.old ++ (spec.read_status place variable (Some local.now)).notes) }
    ensures meaning { IfOk result (λ m. m ≡ (spec.read_status place variable (Some local.now)).meaning) }
{
    match &local.status {
        Status::Unseen => unseen_read(into, place, variable),
        Status::Fixed(ty) => fixed_read(alloc, into, place, variable, ty),
    }
}

fn text_says(alloc: Global, place: Place, text: &Blob) -> Result<Meaning, Memory>
    ensures { IfOk result (λ m. m ≡ Meaning.Literal place (Lit.Text text.now)) }
{
    Ok(Meaning::Literal(place, Lit::Text(text.copy(alloc)?)))
}

fn bytes_say(alloc: Global, place: Place, bytes: &Blob) -> Result<Meaning, Memory>
    ensures { IfOk result (λ m. m ≡ Meaning.Literal place (Lit.Bytes bytes.now)) }
{
    Ok(Meaning::Literal(place, Lit::Bytes(bytes.copy(alloc)?)))
}

/// A constant stands for its literal.
pub fn constant_says(alloc: Global, place: Place, constant: &Constant) -> Result<Meaning, Memory>
    ensures { IfOk result (λ m. m ≡ (spec.constant_says place (Some constant.now)).meaning) }
{
    match constant {
        Constant::Number(number) => Ok(Meaning::Literal(place, Lit::Number(*number))),
        Constant::Text(text) => text_says(alloc, place, text),
        Constant::Bytes(bytes) => bytes_say(alloc, place, bytes),
        Constant::Flag(flag) => Ok(scalar_value(place, Scalar::Bool, ExprKind::Flag(*flag))),
        Constant::Unknown => Ok(Meaning::Unknown),
    }
}

fn no_parts(alloc: Global, place: Place, scalar: Scalar, prim: Primitive) -> Meaning
    ensures { result ≡ (meanings.node place (SourceType.Scalar scalar) (ExprKind.Prim prim [])).meaning }
{
    scalar_value(place, scalar, ExprKind::Prim(prim, List::new(alloc)))
}

/// What a member of the library means: a value, or a name that is none.
pub fn member_says(alloc: Global, place: Place, member: Member) -> Meaning
    ensures { result ≡ (spec.member_says place member).meaning }
{
    match member {
        Member::Value(prim, scalar) => no_parts(alloc, place, scalar, prim),
        Member::Number(number) => scalar_value(place, Scalar::UInt64, ExprKind::Int(number)),
        _ => Meaning::Thing(Thing::Member(member)),
    }
}

fn value_operation(
    alloc: Global,
    into: &mut Notes,
    place: Place,
    at: Place,
    typed: Typed,
    operation: Option<Operation>,
) -> Result<Meaning, Memory>
    ensures told { OnOk result (into.new ≡ into.old ++ (spec.value_operation place at typed operation).notes) }
    ensures meaning { IfOk result (λ m. m ≡ (spec.value_operation place at typed operation).meaning) }
{
    match operation {
        Some(operation) => of_one(alloc, place, operation.result, operation.prim, typed),
        None => breaks(into, Rule::P09, at),
    }
}

fn operation_named(ty: &SourceType, name: &[u8]) -> Option<Operation>
    ensures { result ≡ reads.operation_named (types.scalar_of ty.now) name.now }
{
    match scalar_of(ty) {
        Some(scalar) => value_member(scalar, name),
        None => None,
    }
}

#[tactic(auto, using(crate::proofs::Reading::member_same))]
fn member_of_typed(
    alloc: Global,
    into: &mut Notes,
    place: Place,
    word: &Word,
    typed: Typed,
) -> Result<Meaning, Memory>
    ensures told { OnOk result (into.new ≡ into.old ++ (spec.scalar_member place word.now typed (types.scalar_of typed.ty)).notes) }
    ensures meaning { IfOk result (λ m. m ≡ (spec.scalar_member place word.now typed (types.scalar_of typed.ty)).meaning) }
{
    let operation = operation_named(&typed.ty, word.name.as_str().as_bytes());
    value_operation(alloc, into, place, word.place, typed, operation)
}

/// A member of a value, at `place`; P09 on a member that the value's type hasn't.
pub fn member_when(
    alloc: Global,
    into: &mut Notes,
    place: Place,
    word: &Word,
    typed: Option<Typed>,
) -> Result<Meaning, Memory>
    ensures told { OnOk result (into.new ≡ into.old ++ (spec.member_when place word.now typed).notes) }
    ensures meaning { IfOk result (λ m. m ≡ (spec.member_when place word.now typed).meaning) }
{
    match typed {
        Some(typed) => member_of_typed(alloc, into, place, word, typed),
        None => Ok(Meaning::Unknown),
    }
}

fn application_id(
    alloc: Global,
    into: &mut Notes,
    place: Place,
    prim: Primitive,
    word: &Word,
) -> Result<Meaning, Memory>
    ensures told { OnOk result (into.new ≡ into.old ++ (spec.application_member place (Member.Application prim) word.now).notes) }
    ensures meaning { IfOk result (λ m. m ≡ (spec.application_member place (Member.Application prim) word.now).meaning) }
{
    if word.name.as_str() == "id" {
        Ok(no_parts(alloc, place, Scalar::UInt64, prim))
    } else {
        breaks(into, Rule::P09, word.place)
    }
}

/// `id` of an application, which is no value itself; P09 on any other name behind a member of the library.
pub fn application_member(
    alloc: Global,
    into: &mut Notes,
    place: Place,
    member: Member,
    word: &Word,
) -> Result<Meaning, Memory>
    ensures told { OnOk result (into.new ≡ into.old ++ (spec.application_member place member word.now).notes) }
    ensures meaning { IfOk result (λ m. m ≡ (spec.application_member place member word.now).meaning) }
{
    match member {
        Member::Application(prim) => application_id(alloc, into, place, prim, word),
        _ => breaks(into, Rule::P09, word.place),
    }
}

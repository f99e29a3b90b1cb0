//! What the operators and the forms of the library give, by their parts.

ghost use Rattle.std.specs.Prelude.{◌≡◌, [], ◌∷◌, ◌++◌, slice_get, take, drop, length, map, option_map, if◌then◌else◌, IfOk, OnOk};
ghost use Rattle.awst.specs.Values.{string, of_results};
ghost use Rattle.awst.specs.Forms.{computed as gives, row, tells, truth_is, flag_number, the_bytes, byte_in, sliced, between, member_in, member_of, argument_in, log_part, log_parts, log_bytes};
ghost use Rattle.awst_eval.specs.Shown.{meant, all_meant};
ghost use Rattle.awst_eval.specs.Ended.{Lifts};
ghost use Rattle.awst_eval.specs.Computing.{form_shown, member_shown};

use crate::datum::{Datum, byte, machine_values, result_of, truth};
use crate::form::{Form, Member};
use crate::stop::Stop;
use avm_ops::{Imm, Instr, Operands, apply};
use avm_state::Call;
use puya_base::{Blob, Memory, Value};
use std::alloc::Global;

/// The most bytes of a value.
const VALUE_LIMIT: usize = 4096;

/// What the instruction of a value row with that opcode leaves.
fn row_of(alloc: Global, op: u8, parts: &[Datum]) -> Result<Operands, Stop>
    ensures { Lifts (λ rs. rs) result (row op (all_meant parts.now)) }
{
    let operands = machine_values(alloc, parts)?;
    let instr = Instr {
        op,
        imm: Imm::Nothing,
    };
    Ok(apply(alloc, &instr, &operands)?)
}

fn instruction(alloc: Global, op: u8, parts: &[Datum]) -> Result<Datum, Stop>
    ensures { Lifts meant result (option_map of_results (row op (all_meant parts.now))) }
{
    let results = row_of(alloc, op, parts)?;
    Ok(result_of(alloc, results.as_slice())?)
}

/// Whether the results are one number that is not 0.
fn told(results: &[Value]) -> Datum
    ensures { meant result ≡ tells results.now }
{
    match results {
        [Value::Int(n)] => Datum::Flag(*n != 0),
        _ => Datum::Nothing,
    }
}

fn test(alloc: Global, op: u8, parts: &[Datum]) -> Result<Datum, Stop>
    ensures { Lifts meant result (option_map tells (row op (all_meant parts.now))) }
{
    let results = row_of(alloc, op, parts)?;
    Ok(told(results.as_slice()))
}

fn has_truth(wanted: bool, parts: &[Datum]) -> Result<Datum, Stop>
    ensures { Lifts meant result (truth_is wanted (all_meant parts.now)) }
{
    match parts {
        [part] => match truth(part) {
            Some(b) => Ok(Datum::Flag(if wanted { b } else { !b })),
            None => Err(Stop::Failed),
        },
        _ => Err(Stop::Failed),
    }
}

fn number_of_flag(parts: &[Datum]) -> Result<Datum, Stop>
    ensures { Lifts meant result (flag_number (all_meant parts.now)) }
{
    match parts {
        [Datum::Flag(b)] => Ok(Datum::Number(if *b { 1 } else { 0 })),
        _ => Err(Stop::Failed),
    }
}

fn same_bytes(alloc: Global, parts: &[Datum]) -> Result<Datum, Stop>
    ensures { Lifts meant result (the_bytes (all_meant parts.now)) }
{
    match parts {
        [Datum::Text(b)] => Ok(Datum::Text(b.copy(alloc)?)),
        _ => Err(Stop::Failed),
    }
}

/// One byte, as bytes.
#[tactic(auto, using(crate::proofs::Parts::byte_there, crate::proofs::Parts::byte_past))]
fn one_byte(alloc: Global, bytes: &[u8], i: u64) -> Result<Datum, Stop>
    ensures { Lifts meant result (option_map (λ x. string (x ∷ [])) (slice_get bytes.now i)) }
{
    if i >= bytes.len() as u64 {
        return Err(Stop::Failed);
    }
    Ok(byte(alloc, bytes[i as usize])?)
}

fn byte_at(alloc: Global, parts: &[Datum]) -> Result<Datum, Stop>
    ensures { Lifts meant result (byte_in (all_meant parts.now)) }
{
    match parts {
        [Datum::Text(b), Datum::Number(i)] => one_byte(alloc, b.as_slice(), *i),
        _ => Err(Stop::Failed),
    }
}

/// The bytes up to an end, which is clamped to the length.
fn front(bytes: &[u8], end: u64) -> &[u8]
    ensures { result.now ≡ take end bytes.now }
{
    if end < bytes.len() as u64 {
        &bytes[..end as usize]
    } else {
        bytes
    }
}

/// The bytes from a start on, which is clamped to the length.
fn behind(bytes: &[u8], start: u64) -> &[u8]
    ensures { result.now ≡ drop start bytes.now }
{
    if start < bytes.len() as u64 {
        &bytes[start as usize..]
    } else {
        &[]
    }
}

/// The bytes of a slice.
fn cut(from: bool, to: bool, parts: &[Datum]) -> Option<&[u8]>
    ensures { option_map (λ b. string b.now) result ≡ sliced from to (all_meant parts.now) }
{
    match (from, to, parts) {
        (false, false, [Datum::Text(b)]) => Some(b.as_slice()),
        (true, false, [Datum::Text(b), Datum::Number(i)]) => Some(behind(b.as_slice(), *i)),
        (false, true, [Datum::Text(b), Datum::Number(j)]) => Some(front(b.as_slice(), *j)),
        (true, true, [Datum::Text(b), Datum::Number(i), Datum::Number(j)]) => {
            Some(behind(front(b.as_slice(), *j), *i))
        }
        _ => None,
    }
}

fn slice(alloc: Global, from: bool, to: bool, parts: &[Datum]) -> Result<Datum, Stop>
    ensures { Lifts meant result (sliced from to (all_meant parts.now)) }
{
    match cut(from, to, parts) {
        Some(bytes) => Ok(Datum::Text(Blob::from_slice(alloc, bytes)?)),
        None => Err(Stop::Failed),
    }
}

/// A member of Txn or Global.
fn member_value(alloc: Global, member: Member, call: &Call) -> Result<Datum, Memory>
    ensures { IfOk result (λ v. meant v ≡ member_of (member_shown member) call.now) }
{
    match member {
        Member::Sender => Ok(Datum::Text(call.sender.copy(alloc)?)),
        Member::Fee => Ok(Datum::Number(call.fee)),
        Member::Note => Ok(Datum::Text(call.note.copy(alloc)?)),
        Member::OnCompletion => Ok(Datum::Number(u64::from(call.on_completion))),
        Member::ArgumentCount => Ok(Datum::Number(call.args.len() as u64)),
        Member::CalledApplication => {
            Ok(Datum::Number(if call.creating { 0 } else { call.application }))
        }
        Member::ZeroAddress => Ok(Datum::Text(Blob::from_slice(alloc, &[0; 32])?)),
        Member::CreatorAddress => Ok(Datum::Text(call.creator.copy(alloc)?)),
        Member::Round => Ok(Datum::Number(call.round)),
        Member::LatestTimestamp => Ok(Datum::Number(call.timestamp)),
        Member::CurrentApplication => Ok(Datum::Number(call.application)),
    }
}

fn member(alloc: Global, member: Member, call: &Call, parts: &[Datum]) -> Result<Datum, Stop>
    ensures { Lifts meant result (member_in (member_shown member) call.now (all_meant parts.now)) }
{
    match parts {
        [] => Ok(member_value(alloc, member, call)?),
        _ => Err(Stop::Failed),
    }
}

fn argument(alloc: Global, call: &Call, parts: &[Datum]) -> Result<Datum, Stop>
    ensures { Lifts meant result (argument_in call.now (all_meant parts.now)) }
{
    match parts {
        [Datum::Number(i)] => match call.args.get(*i as usize) {
            Some(b) => Ok(Datum::Text(b.copy(alloc)?)),
            None => Err(Stop::Failed),
        },
        _ => Err(Stop::Failed),
    }
}

/// What a form gives, or `Failed` where it fails.
pub(crate) fn computed(
    alloc: Global,
    call: &Call,
    form: Form,
    parts: &[Datum],
) -> Result<Datum, Stop>
    ensures { Lifts meant result (gives call.now (form_shown form) (all_meant parts.now)) }
{
    match form {
        Form::Instruction(op) => instruction(alloc, op, parts),
        Form::Test(op) => test(alloc, op, parts),
        Form::HasTruth(wanted) => has_truth(wanted, parts),
        Form::NumberOfFlag => number_of_flag(parts),
        Form::SameBytes => same_bytes(alloc, parts),
        Form::ByteAt => byte_at(alloc, parts),
        Form::Slice(from, to) => slice(alloc, from, to, parts),
        Form::Of(m) => member(alloc, m, call, parts),
        Form::Argument => argument(alloc, call, parts),
    }
}

/// Appends the bytes of one part of a log: a number as 8 bytes, the high one first, bytes as they are.
fn push_part(part: &Datum, out: &mut Blob) -> Result<(), Memory>
    ensures { OnOk result (out.new ≡ out.old ++ log_part (meant part.now)) }
{
    match part {
        Datum::Number(n) => out.extend(&n.to_be_bytes()),
        Datum::Text(b) => out.extend(b.as_slice()),
        _ => Ok(()),
    }
}

fn joined_parts(alloc: Global, parts: &[Datum]) -> Result<Blob, Memory>
    ensures { IfOk result (λ b. b ≡ log_parts (map meant parts.now)) }
{
    let mut out = Blob::new(alloc);
    for part in parts {
        push_part(part, &mut out)?;
    }
    Ok(out)
}

/// The bytes of a log, or `Failed` where they pass the limit of a value.
pub(crate) fn logged(alloc: Global, parts: &[Datum]) -> Result<Blob, Stop>
    ensures { Lifts (λ b. b) result (log_bytes (all_meant parts.now)) }
{
    let bytes = joined_parts(alloc, parts)?;
    if bytes.len() <= VALUE_LIMIT {
        Ok(bytes)
    } else {
        Err(Stop::Failed)
    }
}

ghost use Rattle.std.specs.Prelude.{◌≡◌, [], ◌∷◌, ◌+◌, ◌<◌, ◌≤◌, ◌++◌, if◌then◌else◌, None, Some, length, map, option_map, IfOk, nat_lt};
ghost use Rattle.std.specs.Int.{to_be_bytes, w16};
ghost use Rattle.arc4_types.specs.declared.abi.Abi.{Abi};
ghost use Rattle.arc4_types.specs.Types.{type_of};
ghost use Rattle.arc4_types.specs.Values.{value_of};
ghost use Rattle.arc4_types.specs.Groups.{group_of, groups, octet, part_of, row_of};
ghost use Rattle.arc4_types.specs.Encoding.{address_coding, array_coding, coding, first_placed, flag_coding, placed, row_coding, text_coding, tuple_coding, within};

use crate::abi::Abi;
use crate::abi_value::AbiValue;
use crate::bools::packed;
use crate::form::{Form, form_of, is_byte};
use crate::joining::joined;
use crate::number::coded_number;
use crate::placed::Placed;
use crate::row::{bools_from, type_at};
use puya_base::{Blob, List, Memory};
use std::alloc::Global;
use std::slice;

/// The encoding of a bool alone.
fn coded_flag(alloc: Global, value: &AbiValue) -> Result<Option<Blob>, Memory>
    ensures { IfOk result (λ r. r ≡ flag_coding (value_of value.now)) }
{
    match value {
        AbiValue::Flag(true) => Ok(Some(Blob::from_slice(alloc, &[0x80])?)),
        AbiValue::Flag(false) => Ok(Some(Blob::from_slice(alloc, &[0])?)),
        _ => Ok(None),
    }
}

/// The bytes behind their count, where that fits 16 bits.
fn counted(alloc: Global, count: usize, bytes: &[u8]) -> Result<Option<Blob>, Memory>
    ensures { IfOk result (λ r. r ≡ (if nat_lt count 65536 then Some (to_be_bytes w16 count ++ bytes.now) else None)) }
{
    if count >= 65536 {
        return Ok(None);
    }
    let mut out = Blob::from_slice(alloc, &(count as u16).to_be_bytes())?;
    out.extend(bytes)?;
    Ok(Some(out))
}

/// The encoding of a string, or of an array of `byte`.
fn coded_text(alloc: Global, value: &AbiValue) -> Result<Option<Blob>, Memory>
    ensures { IfOk result (λ r. r ≡ text_coding (value_of value.now)) }
{
    match value {
        AbiValue::Data(bytes) => counted(alloc, bytes.len(), bytes.as_slice()),
        _ => Ok(None),
    }
}

/// The encoding of an address.
fn coded_address(alloc: Global, value: &AbiValue) -> Result<Option<Blob>, Memory>
    ensures { IfOk result (λ r. r ≡ address_coding (value_of value.now)) }
{
    match value {
        AbiValue::Data(bytes) if bytes.len() == 32 => Ok(Some(bytes.copy(alloc)?)),
        _ => Ok(None),
    }
}

/// The byte of bools in a head.
fn octet(alloc: Global, values: &[AbiValue]) -> Result<Option<Placed>, Memory>
    requires { length values.now ≤ 8 }
    ensures { IfOk result (λ r. r ≡ first_placed (octet (length values.now)) (map value_of values.now)) }
{
    match packed(values) {
        Some(byte) => Ok(Some(Placed::Here(Blob::from_slice(alloc, &[byte])?))),
        None => Ok(None),
    }
}

/// What stands in a head first, where the type of the part is `ty`; the values are those that it covers.
#[cycle(code)]
fn placed_part(alloc: Global, ty: &Abi, values: &[AbiValue]) -> Result<Option<Placed>, Memory>
    requires some { 0 < length values.now }
    requires few { length values.now ≤ 8 }
    ensures { IfOk result (λ r. r ≡ first_placed (group_of coding ty.now (length values.now)) (map value_of values.now)) }
{
    match form_of(ty) {
        Form::Bool => octet(alloc, values),
        Form::Static => match coded(alloc, ty, &values[0])? {
            Some(bytes) => Ok(Some(Placed::Here(bytes))),
            None => Ok(None),
        },
        Form::Dynamic => match coded(alloc, ty, &values[0])? {
            Some(bytes) => Ok(Some(Placed::Later(bytes))),
            None => Ok(None),
        },
    }
}

/// The encodings of the parts of a row, each where it stands.
#[cycle(code)]
#[tactic(auto, using(crate::proofs::Placing::placed_more, crate::proofs::Placing::placed_none, crate::proofs::Placing::placed_all))]
fn placed_row(
    alloc: Global,
    types: &[Abi],
    count: usize,
    values: &[AbiValue],
) -> Result<Option<List<Placed>>, Memory>
    requires row { length (row_of types.now count) ≡ count }
    requires values { length values.now ≡ count }
    ensures { IfOk result (λ r. r ≡ placed (groups 0 (map (part_of coding) (row_of types.now count))) (map value_of values.now)) }
{
    let mut placed = List::new(alloc);
    let mut i = 0;
    while i < count {
        let end = i + bools_from(types, count, i).max(1);
        let Some(part) = placed_part(alloc, type_at(types, count, i), &values[i..end])? else {
            return Ok(None);
        };
        placed.push(part)?;
        i = end;
    }
    Ok(Some(placed))
}

/// The encoding of the parts of a row, where `types` has a type for each part, or one for all.
#[cycle(code)]
#[tactic(auto, using(crate::proofs::Placing::row_of_others))]
fn coded_row(
    alloc: Global,
    types: &[Abi],
    count: usize,
    values: &[AbiValue],
) -> Result<Option<Blob>, Memory>
    requires { length (row_of types.now count) ≡ count }
    ensures { IfOk result (λ r. r ≡ row_coding (map (part_of coding) (row_of types.now count)) (map value_of values.now)) }
{
    if values.len() != count {
        return Ok(None);
    }
    match placed_row(alloc, types, count, values)? {
        Some(parts) => joined(alloc, parts.as_slice()),
        None => Ok(None),
    }
}

/// The encoding of a tuple, or of an array of so many parts.
#[cycle(code)]
fn coded_tuple(
    alloc: Global,
    types: &[Abi],
    count: usize,
    value: &AbiValue,
) -> Result<Option<Blob>, Memory>
    requires { length (row_of types.now count) ≡ count }
    ensures { IfOk result (λ r. r ≡ tuple_coding (map (part_of coding) (row_of types.now count)) (value_of value.now)) }
{
    match value {
        AbiValue::Parts(items) => coded_row(alloc, types, count, items.as_slice()),
        _ => Ok(None),
    }
}

/// The encoding of an array of any number of parts, which have the one type of `types`.
#[cycle(code)]
fn coded_array(alloc: Global, types: &[Abi], value: &AbiValue) -> Result<Option<Blob>, Memory>
    requires { length types.now ≡ 1 }
    ensures { (t : Abi) → types.now ≡ t ∷ [] → IfOk result (λ r. r ≡ array_coding (part_of coding t) (value_of value.now)) }
{
    let AbiValue::Parts(items) = value else {
        return Ok(None);
    };
    match coded_row(alloc, types, items.len(), items.as_slice())? {
        Some(bytes) => counted(alloc, items.len(), bytes.as_slice()),
        None => Ok(None),
    }
}

/// The encoding of a value, if it has one.
#[cycle(code)]
fn coded(alloc: Global, ty: &Abi, value: &AbiValue) -> Result<Option<Blob>, Memory>
    ensures { IfOk result (λ r. r ≡ coding (type_of ty.now) (value_of value.now)) }
{
    match ty {
        Abi::Uint(bits) => coded_number(alloc, *bits, value),
        Abi::Byte => coded_number(alloc, 8, value),
        Abi::Bool => coded_flag(alloc, value),
        Abi::Text => coded_text(alloc, value),
        Abi::Address => coded_address(alloc, value),
        Abi::Array(item) => {
            if is_byte(item.get()) {
                coded_text(alloc, value)
            } else {
                coded_array(alloc, slice::from_ref(item.get()), value)
            }
        }
        Abi::Fixed(item, count) => {
            coded_tuple(alloc, slice::from_ref(item.get()), *count as usize, value)
        }
        Abi::Tuple(types) => coded_tuple(alloc, types.as_slice(), types.len(), value),
    }
}

/// The encoding of a value of the type (ARC-4, "Encoding"). None exactly where the value has no encoding of at most 4096 bytes, as
/// where it is no value of the type. A `Uint` of another width than 8, 16 or 32 bits is written as one of 64. The error is want of memory.
pub fn encode(alloc: Global, ty: &Abi, value: &AbiValue) -> Result<Option<Blob>, Memory>
    ensures { IfOk result (λ r. r ≡ within 4096 (coding (type_of ty.now) (value_of value.now))) }
{
    match coded(alloc, ty, value)? {
        Some(bytes) if bytes.len() <= 4096 => Ok(Some(bytes)),
        _ => Ok(None),
    }
}

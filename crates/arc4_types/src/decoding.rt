ghost use Rattle.std.specs.Prelude.{◌≡◌, ◌+◌, ◌<◌, ◌≤◌, ◌++◌, List, Ok, Some, [], ◌∷◌, length, map, IfOk, OnOk, ℕ};
ghost use Rattle.std.specs.Int.{w16};
ghost use Rattle.arc4_types.specs.declared.abi.Abi.{Abi};
ghost use Rattle.arc4_types.specs.Types.{type_of};
ghost use Rattle.arc4_types.specs.Values.{Val, bytes, number, parts, value_of, vals_of};
ghost use Rattle.arc4_types.specs.Groups.{covered, group_of, groups, part_of, row_of};
ghost use Rattle.arc4_types.specs.Encoding.{coding};
ghost use Rattle.arc4_types.specs.Reading.{Gives, decoding, first_told, head_at, mapped, number_at, octet_at, one_flag, reading, row_at, tail_at, tails_at, taken, text_at};
ghost use Rattle.arc4_types.specs.Types.{width_of};
ghost use Rattle.arc4_types.specs.Views.{all_told, readers, told_of};

use crate::abi::Abi;
use crate::abi_fault::AbiFault;
use crate::abi_value::AbiValue;
use crate::cursor::Cursor;
use crate::entry::Entry;
use crate::form::{Form, form_of, is_byte};
use crate::head::push_flags;
use crate::row::{bools_from, type_at};
use puya_base::{Blob, List};
use std::alloc::Global;
use std::slice;

#[tactic(auto, using(crate::proofs::Equations::value_number))]
fn read_number(bits: u16, from: &mut Cursor<'_>) -> Result<AbiValue, AbiFault>
    ensures { Gives (λ v. (value_of v, from.new)) result (mapped number (number_at (width_of bits) from.old)) }
{
    let number = from.number(bits)?;
    Ok(AbiValue::Number(number))
}

#[tactic(auto, using(crate::proofs::Equations::value_flag, crate::proofs::Unpacking::no_flag))]
fn read_flag(from: &mut Cursor<'_>) -> Result<AbiValue, AbiFault>
    ensures { Gives (λ v. (value_of v, from.new)) result (mapped one_flag (octet_at 1 from.old)) }
{
    match from.byte()? {
        0x80 => Ok(AbiValue::Flag(true)),
        0 => Ok(AbiValue::Flag(false)),
        _ => Err(AbiFault::Bit),
    }
}

#[tactic(auto, using(crate::proofs::Equations::value_data))]
fn read_bytes(alloc: Global, count: usize, from: &mut Cursor<'_>) -> Result<AbiValue, AbiFault>
    ensures { Gives (λ v. (value_of v, from.new)) result (mapped bytes (taken count from.old)) }
{
    let taken = from.take(count)?;
    Ok(AbiValue::Data(Blob::from_slice(alloc, taken)?))
}

fn read_text(alloc: Global, from: &mut Cursor<'_>) -> Result<AbiValue, AbiFault>
    ensures { Gives (λ v. (value_of v, from.new)) result (mapped bytes (text_at from.old)) }
{
    let count = from.short()?;
    read_bytes(alloc, usize::from(count), from)
}

/// Adds what the head tells of the part that stands there next, or of the bools that share its byte.
#[cycle(read)]
fn read_part(
    alloc: Global,
    ty: &Abi,
    covers: usize,
    entries: &mut Vec<Entry>,
    from: &mut Cursor<'_>,
) -> Result<(), AbiFault>
    requires { covers ≤ 8 }
    ensures told { Gives (λ _. (all_told entries.new.items, from.new)) result (mapped (λ ts. all_told entries.old.items ++ ts) (first_told (group_of reading ty.now covers) from.old)) }
    ensures count { OnOk result (length entries.new.items ≡ length entries.old.items + covered (group_of reading ty.now covers)) }
{
    match form_of(ty) {
        Form::Bool => {
            let byte = from.byte()?;
            push_flags(entries, covers, byte)
        }
        Form::Static => {
            let value = read(alloc, ty, from)?;
            entries.push(Entry::Told(value))?;
            Ok(())
        }
        Form::Dynamic => {
            let offset = from.short()?;
            entries.push(Entry::Waits(offset))?;
            Ok(())
        }
    }
}

/// What the head of a row tells of its parts.
#[cycle(read)]
#[tactic(auto, using(crate::proofs::Told::head_done))]
fn read_head(
    alloc: Global,
    types: &[Abi],
    count: usize,
    from: &mut Cursor<'_>,
) -> Result<Vec<Entry>, AbiFault>
    requires { length (row_of types.now count) ≡ count }
    ensures told { Gives (λ es. (all_told es.items, from.new)) result (head_at (groups 0 (map (part_of reading) (row_of types.now count))) from.old) }
    ensures count { IfOk result (λ es. length es.items ≡ count) }
{
    let mut entries = Vec::new(alloc);
    let mut i = 0;
    while i < count {
        let covers = bools_from(types, count, i).max(1);
        read_part(alloc, type_at(types, count, i), covers, &mut entries, from)?;
        i += covers;
    }
    Ok(entries)
}

/// The value of a part, where `whole` bytes stood there from the start of its row on.
#[cycle(read)]
fn read_tail(
    alloc: Global,
    ty: &Abi,
    whole: usize,
    entry: Entry,
    from: &mut Cursor<'_>,
) -> Result<AbiValue, AbiFault>
    ensures { Gives (λ v. (value_of v, from.new)) result (tail_at whole (reading (type_of ty.now)) (told_of entry) from.old) }
{
    match entry {
        Entry::Told(value) => Ok(value),
        Entry::Waits(offset) => {
            if usize::from(offset) != whole.saturating_sub(from.left()) {
                return Err(AbiFault::Offset);
            }
            read(alloc, ty, from)
        }
    }
}

/// The values of the parts of a row.
#[cycle(read)]
fn read_tails(
    alloc: Global,
    types: &[Abi],
    count: usize,
    whole: usize,
    entries: Vec<Entry>,
    from: &mut Cursor<'_>,
) -> Result<AbiValue, AbiFault>
    requires row { length (row_of types.now count) ≡ count }
    requires entries { length entries.items ≡ count }
    ensures { Gives (λ v. (value_of v, from.new)) result (mapped (λ vs. parts (vals_of vs)) (tails_at whole (readers (row_of types.now count)) (all_told entries.items) from.old)) }
{
    let mut values = List::new(alloc);
    let mut i = 0;
    for entry in entries {
        let value = read_tail(alloc, type_at(types, count, i), whole, entry, from)?;
        values.push(value)?;
        i += 1;
    }
    Ok(AbiValue::Parts(values))
}

/// The parts of a row, where `types` has a type for each part, or one for all.
#[cycle(read)]
fn read_row(
    alloc: Global,
    types: &[Abi],
    count: usize,
    from: &mut Cursor<'_>,
) -> Result<AbiValue, AbiFault>
    requires { length (row_of types.now count) ≡ count }
    ensures { Gives (λ v. (value_of v, from.new)) result (row_at (map (part_of reading) (row_of types.now count)) from.old) }
{
    let whole = from.left();
    let entries = read_head(alloc, types, count, from)?;
    read_tails(alloc, types, count, whole, entries, from)
}

/// A value of the type at the front of the bytes.
#[cycle(read)]
fn read(alloc: Global, ty: &Abi, from: &mut Cursor<'_>) -> Result<AbiValue, AbiFault>
    ensures { Gives (λ v. (value_of v, from.new)) result (reading (type_of ty.now) from.old) }
{
    match ty {
        Abi::Uint(bits) => read_number(*bits, from),
        Abi::Byte => read_number(8, from),
        Abi::Bool => read_flag(from),
        Abi::Text => read_text(alloc, from),
        Abi::Address => read_bytes(alloc, 32, from),
        Abi::Array(item) => {
            if is_byte(item.get()) {
                read_text(alloc, from)
            } else {
                let count = from.short()?;
                read_row(alloc, slice::from_ref(item.get()), usize::from(count), from)
            }
        }
        Abi::Fixed(item, count) => {
            read_row(alloc, slice::from_ref(item.get()), *count as usize, from)
        }
        Abi::Tuple(types) => read_row(alloc, types.as_slice(), types.len(), from),
    }
}

/// The value that all the bytes are an encoding of.
fn whole(alloc: Global, ty: &Abi, bytes: &[u8]) -> Result<AbiValue, AbiFault>
    ensures { Gives value_of result (decoding (type_of ty.now) bytes.now) }
{
    let mut from = Cursor::new(bytes);
    let value = read(alloc, ty, &mut from)?;
    if from.left() != 0 {
        return Err(AbiFault::Length);
    }
    Ok(value)
}

/// The value of the type that the bytes are an encoding of (ARC-4, "Encoding"). Each error but `Memory` is the first fault of reading the
/// bytes from left to right: of a tuple or an array the parts of its head in order, then for each part of any size its offset
/// against the place reached and its tail, and at the end the bytes left over. A `Uint` of another width than 8, 16 or 32 bits is read
/// as one of 64.
pub fn decode(alloc: Global, ty: &Abi, bytes: &[u8]) -> Result<AbiValue, AbiFault>
    // What is read is the value that has the bytes for its encoding.
    ensures found { IfOk result (λ v. coding (type_of ty.now) (value_of v) ≡ Some bytes.now) }
    // Each encoding is read, unless memory runs out.
    ensures only { (v : Val) → coding (type_of ty.now) v ≡ Some bytes.now → Gives value_of result (Ok v) }
    // Which fault it is.
    ensures exact { Gives value_of result (decoding (type_of ty.now) bytes.now) }
{
    whole(alloc, ty, bytes)
}

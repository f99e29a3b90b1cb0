ghost use Rattle.std.specs.Prelude.{◌≡◌, ◌<◌, ◌^◌, length, IfOk};
ghost use Rattle.std.specs.List.{flat_map};
ghost use Rattle.avm_asm.specs.Assembled.{Assembles, assembled, code_size, first_missing};
ghost use Rattle.avm_asm.specs.Listing.{AreLines, named_by};
ghost use Rattle.avm_asm.specs.Steps.{AddsLabel, Places as PlacesOf};

use crate::emit::code_of;
use crate::line::{AsmFault, Line, Lines};
use crate::places::Places;
use crate::sizes::{line_len, size};
use puya_base::Blob;
use std::alloc::Global;

/// So many bytes that a place or a distance could pass a number of 64 bits; no memory holds them.
const TOO_MANY_BYTES: u64 = 0x4000_0000_0000_0000;

/// Puts the label of a line, if it is one, at a place.
fn add_label(places: &mut Places, line: &Line, at: usize) -> Result<(), AsmFault>
    requires { at < 2 ^ 62 }
    ensures { AddsLabel result places.old line.now at places.new }
{
    match line {
        Line::Label(label) => places.add(*label, at),
        _ => Ok(()),
    }
}

/// The places of all labels, or the first label that stands a second time.
fn places_of(alloc: Global, lines: &[Line]) -> Result<Places, AsmFault>
    requires { code_size lines.now < 2 ^ 62 }
    ensures { PlacesOf result lines.now }
{
    let mut places = Places::new(alloc);
    let mut at = 1;
    for line in lines {
        add_label(&mut places, line, at)?;
        at += line_len(line) as usize;
    }
    Ok(places)
}

/// The first label that a line names and that doesn't stand.
fn missing_of(places: &Places, line: &Line) -> Option<u32>
    ensures { result ≡ first_missing places.now (named_by line.now) }
{
    match line {
        Line::Op(_) | Line::Label(_) => None,
        Line::Jump(_, label) => places.missing_of(&[*label]),
        Line::Table(_, labels) => places.missing_of(labels.as_slice()),
    }
}

/// The first label that lines name and that doesn't stand.
fn missing_label(places: &Places, lines: &[Line]) -> Option<u32>
    ensures { result ≡ first_missing places.now (flat_map named_by lines.now) }
{
    for line in lines {
        if let Some(label) = missing_of(places, line) {
            return Some(label);
        }
    }
    None
}

/// The code of lines: the version byte 10, and each line's bytes (AVM specification, "Encoding").
/// Offsets count from the end of the instruction.
///
/// # Errors
///
/// `TwiceLabel` with the first label that stands a second time; where there is none, `NoLabel` with
/// the first label that is named and stands nowhere; where there is none, `Far` with the first
/// branch whose distance isn't from -32768 to 32767. Or `Memory`, also for code of 2^62 bytes or
/// more, which no memory holds.
pub fn assemble(alloc: Global, lines: &Lines) -> Result<Blob, AsmFault>
    requires { AreLines lines.now }
    ensures code { Assembles result (assembled lines.now) }
    ensures length { IfOk result (λ code. length code ≡ code_size lines.now) }
{
    if size(lines) >= TOO_MANY_BYTES {
        return Err(AsmFault::Memory);
    }
    let lines = lines.as_slice();
    let places = places_of(alloc, lines)?;
    match missing_label(&places, lines) {
        Some(label) => Err(AsmFault::NoLabel(label)),
        None => code_of(alloc, &places, lines),
    }
}

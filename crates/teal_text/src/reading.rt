ghost use Rattle.std.specs.Prelude.{◌≡◌, ◌==◌, ◌<◌, ◌≤◌, ◌+◌, ◌^◌, ◌++◌, Bool, true, map, length, take, drop, nat_le, position, IfSome, IfOk, OnOk};
ghost use Rattle.std.specs.List.{list_any};
ghost use Rattle.avm_asm.specs.Listing.{AreLines};
ghost use Rattle.teal_line.specs.Words.{words_of};
ghost use Rattle.teal_text.specs.Reading.{Reads, is_ascii, line_says, read_of, versioned_by, without_return};
ghost use Rattle.teal_text.specs.Steps.{Adds, FaultsAs, IsNoneOrStatement, IsRoomy, lines_after, names_after};

use crate::fault::TealFault;
use crate::line_words::words_say;
use crate::names::Seen;
use crate::numbering::line_of;
use avm_asm::Lines;
use puya_base::{List, Memory};
use std::alloc::Global;
use teal_line::{Statement, words};

/// What was read so far.
#[derive(Drop)]
struct Reading {
    /// The number of the next line, from 1.
    number: u32,
    /// Whether the version line was read.
    versioned: bool,
    names: Seen,
    lines: Lines,
}

fn has_high_byte(line: &[u8]) -> bool
    ensures { result ≡ list_any (λ b. nat_le 128 b) line.now }
{
    line.iter().any(|b| 128 <= *b)
}

fn is_ascii(line: &[u8]) -> bool
    ensures { result ≡ is_ascii line.now }
{
    !has_high_byte(line)
}

/// The words of a line of ASCII.
fn words_at<'a>(alloc: Global, number: u32, line: &'a [u8]) -> Result<List<&'a [u8]>, TealFault>
    ensures ok { IfOk result (λ ws. (is_ascii line.now ≡ true) × (map (λ w. w.now) ws ≡ words_of line.now)) }
    ensures err { (versioned : Bool) → FaultsAs result (line_says number versioned line.now) }
{
    if is_ascii(line) {
        Ok(words(alloc, line)?)
    } else {
        Err(TealFault::NotAscii(number))
    }
}

/// Adds the line of a statement.
fn add(
    alloc: Global,
    names: &mut Seen,
    lines: &mut Lines,
    said: Option<Statement>,
) -> Result<(), Memory>
    requires form { IsNoneOrStatement said }
    requires few { length names.old + 255 < 2 ^ 32 }
    requires lines { AreLines lines.old }
    ensures names { OnOk result (names.new ≡ names_after names.old said) }
    ensures lines { OnOk result (lines.new ≡ lines.old ++ lines_after names.old said) }
    ensures room { OnOk result (length names.new ≤ length names.old + 255) }
    ensures form { OnOk result (AreLines lines.new) }
{
    if let Some(statement) = said {
        let line = line_of(alloc, names, statement)?;
        lines.push(line)?;
    }
    Ok(())
}

/// A line without the carriage return at its end.
fn without_return(line: &[u8]) -> &[u8]
    ensures { result.now ≡ without_return line.now }
{
    match line {
        [front @ .., last] => { if *last == b'\r' { front } else { line } }
        [] => line,
    }
}

/// The place of the first line feed.
fn line_end(text: &[u8]) -> Option<usize>
    ensures place { result ≡ position (λ b. b == 10) text.now }
    ensures within { IfSome result (λ i. i < length text.now) }
{
    text.iter().position(|b| *b == b'\n')
}

/// The first line, whose line feed stands at that place.
fn line_at(text: &[u8], end: usize) -> &[u8]
    requires { end < length text.now }
    ensures { result.now ≡ without_return (take end text.now) }
{
    without_return(&text[..end])
}

/// What stands behind the line feed at that place.
fn text_behind(text: &[u8], end: usize) -> &[u8]
    requires { end < length text.now }
    ensures { result.now ≡ drop (end + 1) text.now }
{
    &text[end + 1..]
}

/// Reads the next line.
fn read_line(alloc: Global, reading: &mut Reading, line: &[u8]) -> Result<(), TealFault>
    requires few { reading.old.number < 2 ^ 22 }
    requires room { IsRoomy reading.old.names reading.old.number }
    requires lines { AreLines reading.old.lines }
    ensures err { FaultsAs result (line_says reading.old.number reading.old.versioned line.now) }
    ensures adds { OnOk result (Adds (line_says reading.old.number reading.old.versioned line.now) reading.old.names reading.old.lines reading.new.names reading.new.lines) }
    ensures number { OnOk result (reading.new.number ≡ reading.old.number + 1) }
    ensures versioned { OnOk result (reading.new.versioned ≡ versioned_by reading.old.versioned (words_of line.now)) }
    ensures room { OnOk result (IsRoomy reading.new.names reading.new.number) }
    ensures lines { OnOk result (AreLines reading.new.lines) }
{
    let words = words_at(alloc, reading.number, line)?;
    let said = words_say(alloc, reading.number, reading.versioned, words.as_slice())?;
    add(alloc, &mut reading.names, &mut reading.lines, said)?;
    reading.versioned = reading.versioned || words.len() > 0;
    reading.number += 1;
    Ok(())
}

/// The lines for which a text stands (TEAL text). Labels go by number, in the order of first sight
/// from 0; a text has at most 1,048,576 bytes.
///
/// # Errors
///
/// The fault of the first line that has one, with the number of that line from 1; in a line the first
/// of `NotAscii`, `Pragma`, `Word`, `Count`, `Number` and `Bytes`. `Pragma(1)` where every line is
/// empty. Or `Memory`.
pub fn read(alloc: Global, text: &[u8]) -> Result<Lines, TealFault>
    requires { length text.now ≤ 1048576 }
    ensures due { Reads result (read_of text.now) }
    ensures form { IfOk result AreLines }
{
    let mut reading = Reading {
        number: 1,
        versioned: false,
        names: Seen::new(alloc),
        lines: List::new(alloc),
    };
    let mut rest = text;
    while let Some(end) = line_end(rest) {
        read_line(alloc, &mut reading, line_at(rest, end))?;
        rest = text_behind(rest, end);
    }
    read_line(alloc, &mut reading, rest)?;
    if reading.versioned {
        Ok(reading.lines)
    } else {
        Err(TealFault::Pragma(1))
    }
}

ghost use Rattle.std.specs.Prelude.{◌≡◌, ◌∷◌, [], map, IfOk};
ghost use Rattle.teal_line.specs.Reading.{Says, says};
ghost use Rattle.teal_text.specs.Reading.{Reads, are_words, fault_at, is_known_pragma, later_line, said_at, version_words, words_say};
ghost use Rattle.teal_text.specs.Steps.{IsNoneOrStatement};

use crate::fault::TealFault;
use std::alloc::Global;
use teal_line::{Flaw, Statement, said};

/// The fault of a flaw in the line of that number.
fn fault_at(number: u32, flaw: Flaw) -> TealFault
    ensures { result ≡ fault_at number flaw }
{
    match flaw {
        Flaw::Word => TealFault::Word(number),
        Flaw::Count => TealFault::Count(number),
        Flaw::Number => TealFault::Number(number),
        Flaw::Bytes => TealFault::Bytes(number),
        Flaw::Memory => TealFault::Memory,
    }
}

/// Whether these are two words and no more.
fn are_two(words: &[&[u8]], first: &[u8], second: &[u8]) -> bool
    ensures { result ≡ are_words (map (λ w. w.now) words.now) (first.now ∷ second.now ∷ []) }
{
    match words {
        [one, two] => *one == first && *two == second,
        _ => false,
    }
}

const PRAGMA: &[u8] = b"#pragma";

fn is_version(first: &[u8], rest: &[&[u8]]) -> bool
    ensures { result ≡ are_words (first.now ∷ map (λ w. w.now) rest.now) version_words }
{
    first == PRAGMA && are_two(rest, b"version", b"10")
}

/// Whether a line behind the version line is a pragma that says nothing.
fn is_known_pragma(first: &[u8], rest: &[&[u8]]) -> bool
    ensures { result ≡ is_known_pragma (first.now ∷ map (λ w. w.now) rest.now) }
{
    first == PRAGMA
        && (are_two(rest, b"typetrack", b"true") || are_two(rest, b"typetrack", b"false"))
}

/// What a line says that is no pragma.
fn statement_at(
    alloc: Global,
    number: u32,
    first: &[u8],
    rest: &[&[u8]],
) -> Result<Option<Statement>, TealFault>
    ensures due { Reads result (said_at number (says first.now (map (λ w. w.now) rest.now))) }
    ensures form { IfOk result IsNoneOrStatement }
{
    match said(alloc, first, rest) {
        Ok(statement) => Ok(Some(statement)),
        Err(flaw) => Err(fault_at(number, flaw)),
    }
}

/// What a line behind the version line says, of which this is the first word.
fn later_line(
    alloc: Global,
    number: u32,
    first: &[u8],
    rest: &[&[u8]],
) -> Result<Option<Statement>, TealFault>
    ensures due { Reads result (later_line number first.now (map (λ w. w.now) rest.now)) }
    ensures form { IfOk result IsNoneOrStatement }
{
    if first != PRAGMA {
        statement_at(alloc, number, first, rest)
    } else if is_known_pragma(first, rest) {
        Ok(None)
    } else {
        Err(TealFault::Pragma(number))
    }
}

/// What the words of a line say; the flag says that the version line stands before.
pub(crate) fn words_say(
    alloc: Global,
    number: u32,
    versioned: bool,
    words: &[&[u8]],
) -> Result<Option<Statement>, TealFault>
    ensures due { Reads result (words_say number versioned (map (λ w. w.now) words.now)) }
    ensures form { IfOk result IsNoneOrStatement }
{
    match words {
        [] => Ok(None),
        [first, rest @ ..] => {
            if versioned {
                later_line(alloc, number, first, rest)
            } else if is_version(first, rest) {
                Ok(None)
            } else {
                Err(TealFault::Pragma(number))
            }
        }
    }
}

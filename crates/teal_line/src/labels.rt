//! Labels.

ghost use Rattle.std.specs.Prelude.{◌≡◌, IfOk, Ok, IsTrue, map, option_map};
ghost use Rattle.std.specs.List.{list_all};
ghost use Rattle.teal_line.specs.Operands as spec;
ghost use Rattle.teal_line.specs.Reading as reading;

use crate::statement::{Flaw, Names};
use puya_base::{List, Memory, Name};
use std::alloc::Global;

/// A letter, a digit or one of `_`, `@`, `.` and `-`.
fn is_label_byte(b: u8) -> bool
    ensures { result ≡ spec.is_label_byte b }
{
    b.is_ascii_alphanumeric() || matches!(b, b'_' | b'@' | b'.' | b'-')
}

/// Whether a word is a label: one or more such bytes.
pub(crate) fn is_some_label(word: &[u8]) -> bool
    ensures { result ≡ spec.is_some_label word.now }
{
    for b in word {
        if !is_label_byte(*b) {
            return false;
        }
    }
    !word.is_empty()
}

/// Whether each word is a label.
pub(crate) fn are_labels(words: &[&[u8]]) -> bool
    ensures { result ≡ list_all spec.is_some_label (map (λ w. w.now) words.now) }
{
    for word in words {
        if !is_some_label(word) {
            return false;
        }
    }
    true
}

/// The name of a label.
pub(crate) fn label_name(alloc: Global, word: &[u8]) -> Result<Name, Memory>
    requires { IsTrue (spec.is_some_label word.now) }
    ensures { IfOk result (λ name. name ≡ word.now) }
{
    match std::str::from_utf8(word) {
        Ok(text) => Name::new(alloc, text),
        Err(_) => unreachable!(),
    }
}

/// The name of a label, or the flaw of a word that is none.
pub(crate) fn label(alloc: Global, word: &[u8]) -> Result<Name, Flaw>
    ensures { reading.Says result (reading.or_flaw Flaw.Word (reading.label_word word.now)) }
{
    if is_some_label(word) {
        Ok(label_name(alloc, word)?)
    } else {
        Err(Flaw::Word)
    }
}

/// The names of labels, in their order.
pub(crate) fn names(alloc: Global, words: &[&[u8]]) -> Result<Names, Memory>
    requires { IsTrue (list_all spec.is_some_label (map (λ w. w.now) words.now)) }
    ensures { IfOk result (λ names. names ≡ map (λ w. w.now) words.now) }
{
    let mut names = List::new(alloc);
    for word in words {
        names.push(label_name(alloc, word)?)?;
    }
    Ok(names)
}

/// The name of a label line, if its word ends with a colon.
pub(crate) fn before_colon(word: &[u8]) -> Option<&[u8]>
    ensures { option_map (λ name. name.now) result ≡ reading.before_colon word.now }
{
    let [name @ .., last] = word else {
        return None;
    };
    if *last == b':' { Some(name) } else { None }
}

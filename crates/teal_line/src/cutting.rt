//! The words of a line.

ghost use Rattle.std.specs.Prelude.{◌≡◌, ◌≤◌, ◌<◌, ◌+◌, ◌==◌, ◌&&◌, not, false, length, drop, map, IfOk};
ghost use Rattle.teal_line.specs.Words as spec;

use puya_base::{List, Memory};
use std::alloc::Global;

/// Space or tab.
fn is_blank(b: u8) -> bool
    ensures { result ≡ spec.is_blank b }
{
    b == b' ' || b == b'\t'
}

/// Whether a comment starts at the front.
fn is_comment(bytes: &[u8]) -> bool
    ensures { result ≡ spec.is_comment bytes.now }
{
    matches!(bytes, [b'/', b'/', ..])
}

/// The length up to a blank or a comment.
fn plain_length(bytes: &[u8]) -> usize
    ensures value { result ≡ spec.plain_length bytes.now }
    ensures within { result ≤ length bytes.now }
{
    let mut n = 0;
    while n < bytes.len() {
        if is_blank(bytes[n]) || is_comment(&bytes[n..]) {
            return n;
        }
        n += 1;
    }
    n
}

/// Whether a byte of a quoted text closes it; the flag says that a backslash stands right before.
fn closes(escaped: bool, b: u8) -> bool
    ensures { result ≡ (not escaped && (b == 34)) }
{
    !escaped && b == b'"'
}

/// Whether a byte of a quoted text is a backslash that takes the next one with it.
fn escapes(escaped: bool, b: u8) -> bool
    ensures { result ≡ (not escaped && (b == 92)) }
{
    !escaped && b == b'\\'
}

/// The length from behind an opening quote to behind its closing one, or to the end.
fn quoted_length(bytes: &[u8]) -> usize
    ensures value { result ≡ spec.quoted_length false bytes.now }
    ensures within { result ≤ length bytes.now }
{
    let mut escaped = false;
    let mut n = 0;
    while n < bytes.len() {
        if closes(escaped, bytes[n]) {
            return n + 1;
        }
        escaped = escapes(escaped, bytes[n]);
        n += 1;
    }
    n
}

/// The length of the word at the front.
fn word_length(bytes: &[u8]) -> usize
    ensures value { result ≡ spec.word_length bytes.now }
    ensures within { result ≤ length bytes.now }
{
    match bytes {
        [b'"', rest @ ..] => {
            let quoted = quoted_length(rest);
            1 + (quoted + plain_length(&rest[quoted..]))
        }
        _ => plain_length(bytes),
    }
}

/// The words of a line, as parts of it: blanks and tabs part them, `//` starts a comment, and a word that begins with a
/// quote is a quoted text up to the next blank or comment behind its closing quote (TEAL text).
pub fn words<'a>(alloc: Global, line: &'a [u8]) -> Result<List<&'a [u8]>, Memory>
    ensures { IfOk result (λ ws. map (λ w. w.now) ws ≡ spec.words_of line.now) }
{
    let mut words = List::new(alloc);
    let mut at = 0;
    while at < line.len() {
        if is_blank(line[at]) {
            at += 1;
        } else if is_comment(&line[at..]) {
            return Ok(words);
        } else {
            let end = at + word_length(&line[at..]);
            words.push(&line[at..end])?;
            at = end;
        }
    }
    Ok(words)
}

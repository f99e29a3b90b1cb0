//! String and bytes literals.

ghost use Rattle.std.specs.Prelude.{◌≡◌, ◌≤◌, ◌<◌, ◌^◌, ◌+◌, ◌-◌, ◌++◌, length, drop, take, Some, None, IfSome, IfOk, OnOk, Result, Ok, Err};
ghost use Rattle.py_lexer.specs.Literals as spec;

use crate::numbers::digit_value;
use puya_base::{Blob, Memory};

/// A character of a literal: how many bytes it takes in the source, and the one or two bytes that it stands for.
#[derive(Clone, Copy, Debug, PartialEq, Eq)]
pub enum Character {
    One(usize, u8),
    Two(usize, u8, u8),
}

/// The length of the opening quotes at the front, or 0.
pub fn quotes_len(text: &[u8]) -> usize
    ensures value { result ≡ spec.quotes_len text.now }
    ensures within { result ≤ length text.now }
{
    match text {
        [b'\'', b'\'', b'\'', ..] | [b'"', b'"', b'"', ..] => 3,
        [b'\'' | b'"', ..] => 1,
        _ => 0,
    }
}

/// The length of a text up to and with its closing quotes, or none where they are missing. One quote closes within its line.
pub fn closing_len(quotes: &[u8], text: &[u8]) -> Option<usize>
    ensures value { result ≡ spec.closing_len quotes.now text.now }
    ensures within { IfSome result (λ n. (length quotes.now ≤ n) × (n ≤ length text.now)) }
{
    let mut escaped = false;
    let mut n = 0;
    while n < text.len() {
        if text[n] == b'\n' && quotes.len() == 1 {
            return None;
        }
        if !escaped && text[n..].starts_with(quotes) {
            return Some(n + quotes.len());
        }
        escaped = !escaped && text[n] == b'\\';
        n += 1;
    }
    None
}

/// The character with this number below 256, as UTF-8.
fn in_utf8(len: usize, code: u8) -> Character
    ensures value { result ≡ spec.in_utf8 len code }
    ensures len { spec.character_len result ≡ len }
{
    if code < 128 {
        Character::One(len, code)
    } else {
        Character::Two(len, 192 + code / 64, 128 + code % 64)
    }
}

/// The number that two hexadecimal digits write.
fn hex_pair(high: u8, low: u8) -> Option<u8>
    ensures { result ≡ spec.hex_pair high low }
{
    Some(digit_value(high)? * 16 + digit_value(low)?)
}

/// `\xHH`: a byte, or in a text the character with this number.
fn numbered(bytes: bool, high: u8, low: u8) -> Option<Character>
    ensures value { result ≡ spec.numbered bytes high low }
    ensures len { IfSome result (λ u. spec.character_len u ≡ 4) }
{
    let code = hex_pair(high, low)?;
    if bytes {
        Some(Character::One(4, code))
    } else {
        Some(in_utf8(4, code))
    }
}

/// The character that an escape writes whose letter follows the backslash, or none.
fn escape(bytes: bool, text: &[u8]) -> Option<Character>
    ensures value { result ≡ spec.escape bytes text.now }
    ensures within { IfSome result (λ u. (1 ≤ spec.character_len u) × (spec.character_len u ≤ length text.now + 1)) }
{
    match text {
        [b'n', ..] => Some(Character::One(2, b'\n')),
        [b'r', ..] => Some(Character::One(2, b'\r')),
        [b't', ..] => Some(Character::One(2, b'\t')),
        [b'x', high, low, ..] => numbered(bytes, *high, *low),
        [b, ..] if *b == b'\\' || *b == b'\'' || *b == b'"' => Some(Character::One(2, *b)),
        _ => None,
    }
}

/// The character at the front of a literal's contents, or none where it has no such character there.
fn character_at(bytes: bool, text: &[u8]) -> Option<Character>
    ensures value { result ≡ spec.character_at bytes text.now }
    ensures within { IfSome result (λ u. (1 ≤ spec.character_len u) × (spec.character_len u ≤ length text.now)) }
{
    match text {
        [b'\\', rest @ ..] => escape(bytes, rest),
        [b'\r', b'\n', ..] => Some(Character::One(2, b'\n')),
        [b, ..] if bytes && 128 <= *b => None,
        [b, ..] => Some(Character::One(1, *b)),
        [] => None,
    }
}

fn character_len(character: Character) -> usize
    ensures { result ≡ spec.character_len character }
{
    match character {
        Character::One(len, _) | Character::Two(len, _, _) => len,
    }
}

/// The place of the first byte of a literal's contents at which no character stands, or the length.
pub fn flaw_at(bytes: bool, text: &[u8]) -> usize
    ensures value { result ≡ spec.flaw_at bytes text.now }
    ensures within { result ≤ length text.now }
{
    let mut at = 0;
    while at < text.len() {
        match character_at(bytes, &text[at..]) {
            Some(character) => at += character_len(character),
            None => return at,
        }
    }
    at
}

/// Adds what a character stands for.
fn add_character(into: &mut Blob, character: Character) -> Result<(), Memory>
    ensures { OnOk result (into.new ≡ into.old ++ spec.character_bytes character) }
{
    match character {
        Character::One(_, b) => into.push(b),
        Character::Two(_, b, c) => into.extend(&[b, c]),
    }
}

/// Adds what a literal's contents stand for; false where they hold something else than characters.
fn add_contents(into: &mut Blob, bytes: bool, text: &[u8]) -> Result<bool, Memory>
    ensures added { OnOk result (into.new ≡ into.old ++ (spec.read_from bytes 0 text.now).0) }
    ensures whole { IfOk result (λ b. b ≡ (spec.read_from bytes 0 text.now).1) }
{
    let mut at = 0;
    while at < text.len() {
        match character_at(bytes, &text[at..]) {
            Some(character) => {
                add_character(into, character)?;
                at += character_len(character);
            }
            None => return Ok(false),
        }
    }
    Ok(true)
}

/// Whether a literal's text begins with the prefix of a bytes literal.
pub fn has_prefix(text: &[u8]) -> bool
    ensures { result ≡ spec.has_prefix text.now }
{
    matches!(text, [b'b' | b'B', ..])
}

/// The contents of a literal's text without its prefix.
fn contents(text: &[u8]) -> &[u8]
    ensures { result.now ≡ spec.contents text.now }
{
    let quotes = quotes_len(text);
    if text.len() < 2 * quotes {
        return &text[..0];
    }
    &text[quotes..text.len() - quotes]
}

/// Adds to `into` what the text of a string or bytes token stands for: neighbouring literals join when each is added in turn.
/// An escape `\xHH` is a byte in a bytes literal, and in a text the character with that number in UTF-8; CR LF is LF.
/// False where the contents hold what no such token holds; then the characters before it are added.
pub fn add_literal(into: &mut Blob, text: &[u8]) -> Result<bool, Memory>
    ensures added { OnOk result (into.new ≡ into.old ++ (spec.literal_value text.now).0) }
    ensures whole { IfOk result (λ b. b ≡ (spec.literal_value text.now).1) }
{
    if has_prefix(text) {
        add_contents(into, true, contents(&text[1..]))
    } else {
        add_contents(into, false, contents(text))
    }
}

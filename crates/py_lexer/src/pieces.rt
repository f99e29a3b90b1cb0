//! The longest piece of a source at a place: a token, or what stands between tokens.

ghost use Rattle.std.specs.Prelude.{◌≡◌, ◌≤◌, ◌<◌, ◌+◌, ◌-◌, length, drop, take};
ghost use Rattle.py_lexer.specs.Pieces as spec;
ghost use Rattle.py_lexer.specs.Literals.{quotes_len};

use crate::bytes::line_end_len;
use crate::literals::{closing_len, flaw_at, has_prefix, quotes_len};
use crate::numbers::{is_decimal, number_value};
use crate::token::TokenKind;
use crate::words::{blanks_len, is_keyword, mark_len, name_len};
use puya_base::Rule;

/// What a piece of a source is.
#[derive(Clone, Copy, Debug, PartialEq, Eq)]
pub enum What {
    /// Spaces and tabs.
    Blanks,
    /// A comment, or a backslash and the line end behind it.
    Skip,
    LineEnd,
    /// An opening bracket.
    Open,
    /// A closing bracket.
    Close,
    /// Any other token of a line.
    Word(TokenKind),
    /// A literal whose contents break the rule on tokens at this byte of it.
    Flawed(TokenKind, usize),
    /// The first byte of something that breaks this rule.
    Wrong(Rule),
}

/// A piece of a source: what it is, and how many bytes it has.
#[derive(Clone, Copy, Debug, PartialEq, Eq)]
pub struct Piece {
    pub what: What,
    pub len: usize,
}

fn word(kind: TokenKind, len: usize) -> Piece
    ensures { result ≡ spec.word kind len }
{
    Piece {
        what: What::Word(kind),
        len,
    }
}

fn wrong(rule: Rule) -> Piece
    ensures { result ≡ spec.wrong rule }
{
    Piece {
        what: What::Wrong(rule),
        len: 1,
    }
}

fn skip(len: usize) -> Piece
    ensures { result ≡ spec.skip len }
{
    Piece {
        what: What::Skip,
        len,
    }
}

/// The number of bytes up to the next line end.
fn comment_len(text: &[u8]) -> usize
    ensures value { result ≡ spec.comment_len text.now }
    ensures within { result ≤ length text.now }
{
    let mut n = 0;
    while n < text.len() && line_end_len(&text[n..]) == 0 {
        n += 1;
    }
    n
}

/// A backslash, which joins the next line where a line end follows.
fn join_piece(text: &[u8]) -> Piece
    requires { 1 ≤ length text.now }
    ensures value { result ≡ spec.join_piece text.now }
    ensures within { spec.FitsIn result text.now }
{
    match line_end_len(&text[1..]) {
        0 => wrong(Rule::P04),
        n => skip(1 + n),
    }
}

/// A literal of a kind that is closed: its opening quotes end behind `opening` bytes, and `closed` bytes follow.
fn closed_literal(kind: TokenKind, opening: usize, contents: &[u8], len: usize) -> Piece
    requires { opening + length contents.now ≤ len }
    ensures value { result ≡ spec.closed_literal kind opening contents.now len }
    ensures len { result.len ≡ len }
    ensures flaw { spec.flaw_of result.what ≤ len }
{
    let flaw = flaw_at(kind == TokenKind::BytesLit, contents);
    if flaw < contents.len() {
        Piece {
            what: What::Flawed(kind, opening + flaw),
            len,
        }
    } else {
        word(kind, len)
    }
}

/// A literal whose opening quotes stand behind `prefix` bytes.
fn literal_piece(kind: TokenKind, prefix: usize, text: &[u8]) -> Piece
    requires prefix { prefix < length text.now }
    requires quotes { 1 ≤ quotes_len (drop prefix text.now) }
    ensures value { result ≡ spec.literal_piece kind prefix text.now }
    ensures within { spec.FitsIn result text.now }
{
    let opening = prefix + quotes_len(&text[prefix..]);
    let quotes = &text[prefix..opening];
    let rest = &text[opening..];
    match closing_len(quotes, rest) {
        Some(closed) => closed_literal(
            kind,
            opening,
            &rest[..closed - quotes.len()],
            opening + closed,
        ),
        None => wrong(Rule::P04),
    }
}

/// A run of `len` letters, digits and `_` that begins with no digit: a name, a keyword, or a bytes literal's prefix.
fn name_piece(text: &[u8], len: usize) -> Piece
    requires some { 1 ≤ len }
    requires within { len ≤ length text.now }
    ensures value { result ≡ spec.name_piece len text.now }
    ensures within { spec.FitsIn result text.now }
{
    if is_keyword(&text[..len]) {
        word(TokenKind::Keyword, len)
    } else if quotes_len(&text[len..]) == 0 {
        word(TokenKind::Name, len)
    } else if len == 1 && has_prefix(text) {
        literal_piece(TokenKind::BytesLit, 1, text)
    } else {
        wrong(Rule::P04)
    }
}

/// A run of `len` letters, digits and `_` that begins with a digit: a number, where it is one and no `.` makes it a float.
fn number_piece(text: &[u8], len: usize) -> Piece
    requires some { 1 ≤ len }
    requires within { len ≤ length text.now }
    ensures value { result ≡ spec.number_piece len text.now }
    ensures within { spec.FitsIn result text.now }
{
    let run = &text[..len];
    let has_fraction = len < text.len() && text[len] == b'.' && is_decimal(run);
    if has_fraction || number_value(run).is_none() {
        wrong(Rule::P05)
    } else {
        word(TokenKind::Number, len)
    }
}

/// A mark. A point right before a digit begins a float.
fn mark_piece(text: &[u8]) -> Piece
    requires { 1 ≤ length text.now }
    ensures value { result ≡ spec.mark_piece text.now }
    ensures within { spec.FitsIn result text.now }
{
    match text {
        [b'.', digit, ..] if digit.is_ascii_digit() => wrong(Rule::P05),
        [b'(' | b'[', ..] => Piece {
            what: What::Open,
            len: 1,
        },
        [b')' | b']', ..] => Piece {
            what: What::Close,
            len: 1,
        },
        _ => match mark_len(text) {
            0 => wrong(Rule::P04),
            len => word(TokenKind::Mark, len),
        },
    }
}

/// What begins with neither a letter nor a digit, a quote or a line end.
fn other_piece(text: &[u8]) -> Piece
    requires { 1 ≤ length text.now }
    ensures value { result ≡ spec.other_piece text.now }
    ensures within { spec.FitsIn result text.now }
{
    match text[0] {
        b'#' => skip(comment_len(text)),
        b'\\' => join_piece(text),
        _ => mark_piece(text),
    }
}

/// A word, or what stands between words in a line.
fn line_piece(text: &[u8]) -> Piece
    requires { 1 ≤ length text.now }
    ensures value { result ≡ spec.line_piece text.now }
    ensures within { spec.FitsIn result text.now }
{
    let run = name_len(text);
    if 0 < run {
        if text[0].is_ascii_digit() {
            number_piece(text, run)
        } else {
            name_piece(text, run)
        }
    } else if quotes_len(text) == 0 {
        other_piece(text)
    } else {
        literal_piece(TokenKind::Str, 0, text)
    }
}

/// The longest piece at the front of a text.
pub fn piece_at(text: &[u8]) -> Piece
    requires { 1 ≤ length text.now }
    ensures value { result ≡ spec.piece_at text.now }
    ensures within { spec.FitsIn result text.now }
{
    let blanks = blanks_len(text);
    let line_end = line_end_len(text);
    if 0 < blanks {
        Piece {
            what: What::Blanks,
            len: blanks,
        }
    } else if 0 < line_end {
        Piece {
            what: What::LineEnd,
            len: line_end,
        }
    } else {
        line_piece(text)
    }
}

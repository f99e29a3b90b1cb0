use puya_base::{Blob, Place, SourceFault};
use py_lexer::{Token, TokenKind, add_literal, number_value, tokens};
use std::alloc::{AllocError, Global};
use std::test::Fail;

/// One letter for each kind of token.
fn letter(kind: TokenKind) -> char {
    match kind {
        TokenKind::Name => 'n',
        TokenKind::Keyword => 'k',
        TokenKind::Number => '1',
        TokenKind::Str => 's',
        TokenKind::BytesLit => 'b',
        TokenKind::Mark => 'm',
        TokenKind::Newline => 'N',
        TokenKind::Indent => 'I',
        TokenKind::Dedent => 'D',
        TokenKind::End => 'E',
    }
}

/// The kinds of the tokens, or the rule and its place.
fn shown(alloc: Global, source: &[u8]) -> Result<String, AllocError> {
    let mut text = String::new(alloc);
    if source.len() > 1048576 {
        return Ok(text);
    }
    match tokens(alloc, source) {
        Ok(list) => {
            for token in list.as_slice() {
                text.push(letter(token.kind))?;
            }
            Ok(text)
        }
        Err(SourceFault::Refused(refusal)) => {
            format!(in alloc;
                "{:?} {}:{}",
                refusal.rule, refusal.place.line, refusal.place.col
            )
        }
        Err(SourceFault::Memory) => Ok(text),
    }
}

/// One source for each rule.
const FIRST: [(&[u8], &str); 5] = [
    (b"x = 1__0", "P05 1:5"),
    (b"x = 08", "P05 1:5"),
    (b"  x = 1", "P03 1:3"),
    (b"\tx = 1", "P02 1:1"),
    (b"x = 'a", "P04 1:5"),
];

/// Nothing, blank lines and comments.
const BLANK: [(&[u8], &str); 8] = [
    (b"", "E"),
    (b"\n\n", "E"),
    (b"   ", "E"),
    (b"  # c", "E"),
    (b"\t# c\n\t\n", "E"),
    (b"# c\nx", "nNE"),
    (b"x # c\r\n", "nNE"),
    (b"x#", "nNE"),
];

/// Line ends.
const LINE_ENDS: [(&[u8], &str); 4] = [
    (b"x\r\ny\r\n", "nNnNE"),
    (b"x\ry", "P01 1:2"),
    (b"x\r", "P01 1:2"),
    (b"x\n\ry", "P01 2:1"),
];

/// Byte order marks.
const ORDER_MARKS: [(&[u8], &str); 5] = [
    (b"\xEF\xBB\xBFx", "nNE"),
    (b"\xEF\xBB\xBF x", "P03 1:2"),
    (b"\xEF\xBB\xBF", "E"),
    (b"x\xEF\xBB\xBF", "P04 1:2"),
    (b"\xEF\xBB", "P01 1:1"),
];

/// Bytes that no source has, and which fault comes first.
const BAD_BYTES: [(&[u8], &str); 12] = [
    (b"x\x00", "P01 1:2"),
    (b"x = '\x07'", "P01 1:6"),
    (b"# \x0C", "P01 1:3"),
    (b"x\x7F", "P01 1:2"),
    (b"'\xFF'", "P01 1:2"),
    (b"x\n'\xE2\x82'", "P01 2:2"),
    (b"# \xC3\xA9\x01", "P01 1:5"),
    (b"'\x01", "P04 1:1"),
    (b"'a'\x01'", "P01 1:4"),
    (b"$ \x01", "P04 1:1"),
    (b"\x01 $", "P01 1:1"),
    (b"\t\x01", "P02 1:1"),
];

/// Characters past ASCII.
const PAST_ASCII: [(&[u8], &str); 6] = [
    (b"\xC3\xA9 = 1", "P04 1:1"),
    (b"x\xC3\xA9", "P04 1:2"),
    (b"x\xC2\xA0= 1", "P04 1:2"),
    (b"x = '\xC3\xA9'", "nmsNE"),
    (b"# \xC3\xA9", "E"),
    (b"x = \xC2\x85", "P04 1:5"),
];

/// What starts no token.
const NO_TOKENS: [(&[u8], &str); 9] = [
    (b"x ; y", "P04 1:3"),
    (b"!x", "P04 1:1"),
    (b"x != y", "nmnNE"),
    (b"x ? y", "P04 1:3"),
    (b"{}", "P04 1:1"),
    (b"`", "P04 1:1"),
    (b"  $", "P03 1:3"),
    (b" \t$", "P02 1:2"),
    (b"  08", "P03 1:3"),
];

/// Marks, the longest first.
const MARKS: [(&[u8], &str); 9] = [
    (b"a **= b", "nmnNE"),
    (b"a ** =b", "nmmnNE"),
    (b"a :=b", "nmmnNE"),
    (b"...", "mmmNE"),
    (b"a<>b", "nmmnNE"),
    (b"a->b@c", "nmnmnNE"),
    (b"a@=b", "nmmnNE"),
    (b"a//=b>>=c", "nmnmnNE"),
    (b"a<-~b", "nmmmnNE"),
];

/// Names and keywords.
const NAMES: [(&[u8], &str); 3] = [
    (b"_x9 True is", "nkkNE"),
    (b"match nonlocals", "nnNE"),
    (b"returned return", "nkNE"),
];

/// Numbers.
const NUMBERS: [(&[u8], &str); 14] = [
    (b"0 00 0_0 10 1_0", "11111NE"),
    (b"0x_1 0XfF 0o17 0B_1_0", "1111NE"),
    (b"18446744073709551615", "1NE"),
    (b"18446744073709551616", "P05 1:1"),
    (b"0xFFFFFFFFFFFFFFFFF", "P05 1:1"),
    (b"0_", "P05 1:1"),
    (b"0x", "P05 1:1"),
    (b"0x_", "P05 1:1"),
    (b"0x__1", "P05 1:1"),
    (b"0b2", "P05 1:1"),
    (b"0_1", "P05 1:1"),
    (b"1if x", "P05 1:1"),
    (b"1e5", "P05 1:1"),
    (b"1j", "P05 1:1"),
];

/// Numbers.
const NUMBERS_MORE: [(&[u8], &str); 10] = [
    (b"x = 1.", "P05 1:5"),
    (b"x = 1.5", "P05 1:5"),
    (b"x = .5", "P05 1:5"),
    (b"x.5", "P05 1:2"),
    (b"1..x", "P05 1:1"),
    (b"1 .x", "1mnNE"),
    (b"0xFF.x", "1mnNE"),
    (b"0x1.5", "P05 1:4"),
    (b"1'a'", "1sNE"),
    (b"1b'a'", "P05 1:1"),
];

/// Strings and bytes.
const STRINGS: [(&[u8], &str); 14] = [
    (b"'' \"\" 'a\"b'", "sssNE"),
    (b"'''a\n'b''\r\n''' x", "snNE"),
    (b"''''a'''", "sNE"),
    (b"'''a''", "P04 1:1"),
    (b"'a\n'", "P04 1:1"),
    (b"'a\r\n'", "P04 1:1"),
    (b"'a\\\n'", "P04 1:1"),
    (b"'a\\'", "P04 1:1"),
    (b"'a\\", "P04 1:1"),
    (b"'\\\\' '\\'\\\"\\n\\r\\t\\x4f'", "ssNE"),
    (b"'ab\\q'", "P04 1:4"),
    (b"'\\x4'", "P04 1:2"),
    (b"'\\u0041'", "P04 1:2"),
    (b"'''a\\\nb'''", "P04 1:5"),
];

/// Strings and bytes.
const STRINGS_MORE: [(&[u8], &str); 8] = [
    (b"'\\q", "P04 1:1"),
    (b"b'a' B\"\\xFF\" b'''c'''", "bbbNE"),
    (b"b'a\xC3\xA9'", "P04 1:4"),
    (b"b'a", "P04 1:1"),
    (b"rb'a'", "P04 1:1"),
    (b"x = f'a'", "P04 1:5"),
    (b"not'a' in\"b\"", "ksksNE"),
    (b"b 'a'", "nsNE"),
];

/// Joined lines.
const JOINS: [(&[u8], &str); 10] = [
    (b"x = \\\n  1", "nm1NE"),
    (b"x = \\\r\n1", "nm1NE"),
    (b"x \\ \ny", "P04 1:3"),
    (b"x \\", "P04 1:3"),
    (b"x \\\n", "nNE"),
    (b"x \\\n# c\ny", "nNnNE"),
    (b"  \\\nx", "P03 2:1"),
    (b"\\\n\tx", "nNE"),
    (b"\t\\\nx", "P02 1:1"),
    (b"(\n\tx # c\n\n)\ny", "mnmNnNE"),
];

/// Indentation.
const INDENTATION: [(&[u8], &str); 14] = [
    (b"a:\n  b\n  c\nd\n", "nmNInNnNDnNE"),
    (b"a:\n  b:\n    c", "nmNInmNInNDDE"),
    (b"a:\n  b:\n    c\nd", "nmNInmNInNDDnNE"),
    (b"a:\n  b\n\n # c\n\t\n  d", "nmNInNnNDE"),
    (b"a:\n    b\n  c", "P03 3:3"),
    (b"a:\n  b\n c", "P03 3:2"),
    (b"a:\n  b\n $", "P03 3:2"),
    (b"a:\n \tb", "P02 2:2"),
    (b"a:\n\t\t$", "P02 2:1"),
    (b"a:\n  \\\n\tb\n  c", "nmNInNnNDE"),
    (b"a:\n  b\t=\tc", "nmNInmnNDE"),
    (b"(\n  b)\n  c", "mnmNInNDE"),
    (b"a:\n  (", "nmNImNDE"),
    (b"a)]:\n  b", "nmmmNInNDE"),
];

/// How many rows from the first on give what stands beside them.
fn agreeing(alloc: Global, rows: &[(&[u8], &str)]) -> Result<usize, AllocError> {
    for (n, (source, wanted)) in rows.iter().enumerate() {
        if shown(alloc, source)?.as_str() != *wanted {
            return Ok(n);
        }
    }
    Ok(rows.len())
}

#[test]
fn corners_of_lines(rt: HostRuntime) -> Result<(), Fail> {
    let alloc = rt.alloc();
    assert_eq!(rt; agreeing(alloc, &FIRST)?, FIRST.len());
    assert_eq!(rt; agreeing(alloc, &BLANK)?, BLANK.len());
    assert_eq!(rt; agreeing(alloc, &LINE_ENDS)?, LINE_ENDS.len());
    assert_eq!(rt; agreeing(alloc, &ORDER_MARKS)?, ORDER_MARKS.len());
    assert_eq!(rt; agreeing(alloc, &BAD_BYTES)?, BAD_BYTES.len());
    assert_eq!(rt; agreeing(alloc, &JOINS)?, JOINS.len());
    assert_eq!(rt; agreeing(alloc, &INDENTATION)?, INDENTATION.len());
    Ok(())
}

#[test]
fn corners_of_tokens(rt: HostRuntime) -> Result<(), Fail> {
    let alloc = rt.alloc();
    assert_eq!(rt; agreeing(alloc, &PAST_ASCII)?, PAST_ASCII.len());
    assert_eq!(rt; agreeing(alloc, &NO_TOKENS)?, NO_TOKENS.len());
    assert_eq!(rt; agreeing(alloc, &MARKS)?, MARKS.len());
    assert_eq!(rt; agreeing(alloc, &NAMES)?, NAMES.len());
    assert_eq!(rt; agreeing(alloc, &NUMBERS)?, NUMBERS.len());
    assert_eq!(rt; agreeing(alloc, &NUMBERS_MORE)?, NUMBERS_MORE.len());
    assert_eq!(rt; agreeing(alloc, &STRINGS)?, STRINGS.len());
    assert_eq!(rt; agreeing(alloc, &STRINGS_MORE)?, STRINGS_MORE.len());
    Ok(())
}

/// A text, another one so many times, and a third.
fn repeated(
    alloc: Global,
    front: &[u8],
    n: usize,
    part: &[u8],
    back: &[u8],
) -> Result<Vec<u8>, AllocError> {
    let mut text = Vec::new(alloc);
    text.extend_from_slice(front)?;
    for _ in 0..n {
        text.extend_from_slice(part)?;
    }
    text.extend_from_slice(back)?;
    Ok(text)
}

/// So many lines, each one column further in than the one before, and then a text one column further in.
fn stairs(alloc: Global, n: usize, last: &[u8]) -> Result<Vec<u8>, AllocError> {
    let mut text = Vec::new(alloc);
    for depth in 0..n {
        for _ in 0..depth {
            text.push(b' ')?;
        }
        text.extend_from_slice(b"a\n")?;
    }
    for _ in 0..n {
        text.push(b' ')?;
    }
    text.extend_from_slice(last)?;
    Ok(text)
}

/// A front, a part and how often it stands, and a back, with what they give.
const LIMITS: [(&[u8], usize, &[u8], &[u8], &str); 7] = [
    (b"return ", 65, b"(", b"", "P06 1:72"),
    (b"(", 64, b"[\n", b"", "P06 64:1"),
    (b"", 512, b"a ", b"$", "P04 1:1025"),
    (b"", 512, b"a ", b"b", "P06 1:1025"),
    (b"", 512, b"a ", b"08", "P05 1:1025"),
    (b"", 512, b"a ", b"'a\\q'", "P06 1:1025"),
    (b"", 512, b"a ", b"'a", "P04 1:1025"),
];

/// What stands behind 21 lines, each further in than the one before, and what the whole gives.
const COLUMNS: [(&[u8], &str); 4] = [
    (b"a", "P06 22:22"),
    (b"'a\\q'", "P06 22:22"),
    (b"$", "P04 22:22"),
    (b"\t$", "P02 22:22"),
];

#[test]
fn limits_of_lines(rt: HostRuntime) -> Result<(), Fail> {
    let alloc = rt.alloc();
    for (front, n, part, back, wanted) in &LIMITS {
        let source = repeated(alloc, front, *n, part, back)?;
        assert_eq!(rt; shown(alloc, source.as_slice())?.as_str(), *wanted);
    }
    let brackets = repeated(alloc, b"return ", 64, b"(", b")")?;
    assert_eq!(rt; shown(alloc, brackets.as_slice())?.len(), 68);
    let words = repeated(alloc, b"", 512, b"a ", b"\n")?;
    assert_eq!(rt; shown(alloc, words.as_slice())?.len(), 514);
    Ok(())
}

#[test]
fn limits_of_columns(rt: HostRuntime) -> Result<(), Fail> {
    let alloc = rt.alloc();
    for (last, wanted) in &COLUMNS {
        let source = stairs(alloc, 21, last)?;
        assert_eq!(rt; shown(alloc, source.as_slice())?.as_str(), *wanted);
    }
    let columns = stairs(alloc, 21, b"# c")?;
    assert_eq!(rt; shown(alloc, columns.as_slice())?.len(), 83);
    Ok(())
}

/// The tokens of a source: kind, start, end, line and column.
const PLACES: [(TokenKind, usize, usize, u32, u32); 9] = [
    (TokenKind::Name, 3, 4, 1, 1),
    (TokenKind::Mark, 4, 5, 1, 2),
    (TokenKind::Newline, 9, 11, 1, 7),
    (TokenKind::Indent, 13, 13, 2, 3),
    (TokenKind::Str, 13, 20, 2, 3),
    (TokenKind::Name, 21, 22, 3, 5),
    (TokenKind::Newline, 22, 23, 3, 6),
    (TokenKind::Dedent, 23, 23, 4, 1),
    (TokenKind::End, 23, 23, 4, 1),
];

#[test]
fn tokens_have_their_texts_and_places(rt: HostRuntime) -> Result<(), Fail> {
    let alloc = rt.alloc();
    let source = b"\xEF\xBB\xBFa: # c\r\n  '''\n''' b\n";
    let mut found = Vec::new(alloc);
    if let Ok(list) = tokens(alloc, source) {
        for token in list.as_slice() {
            found.push(*token)?;
        }
    }
    assert_eq!(rt; found.len(), 9);
    for (token, (kind, start, end, line, col)) in found.iter().zip(PLACES) {
        let place = Place { line, col };
        assert_eq!(rt;
            *token,
            Token {
                kind,
                start,
                end,
                place
            }
        );
    }
    Ok(())
}

/// Texts of numbers and their values.
const VALUES: [(&[u8], Option<u64>); 14] = [
    (b"0", Some(0)),
    (b"0_00", Some(0)),
    (b"42", Some(42)),
    (b"1_000_000", Some(1000000)),
    (b"0xDead_beef", Some(3735928559)),
    (b"0X_ff", Some(255)),
    (b"0o755", Some(493)),
    (b"0B1010", Some(10)),
    (b"18446744073709551615", Some(18446744073709551615)),
    (b"18446744073709551616", None),
    (b"99999999999999999999999", None),
    (b"007", None),
    (b"", None),
    (b"-1", None),
];

#[test]
fn values_of_numbers(rt: HostRuntime) {
    for (text, wanted) in &VALUES {
        assert_eq!(rt; number_value(text), *wanted);
    }
}

/// Texts of literals and what they stand for.
const LITERALS: [(&[u8], &[u8]); 9] = [
    (b"''", b""),
    (b"'a\"b'", b"a\"b"),
    (b"'''a'b'''", b"a'b"),
    (b"\"\"\"a\r\nb\nc\"\"\"", b"a\nb\nc"),
    (b"'\\\\\\'\\\"\\n\\r\\t'", b"\\'\"\n\r\t"),
    (b"'\\x41\\xe9\\xFF'", b"A\xC3\xA9\xC3\xBF"),
    (b"b'\\x41\\xe9\\xFF'", b"A\xE9\xFF"),
    (b"B'''\\x00'''", b"\x00"),
    (b"'\xC3\xA9'", b"\xC3\xA9"),
];

#[test]
fn values_of_literals(rt: HostRuntime) -> Result<(), Fail> {
    let alloc = rt.alloc();
    for (text, wanted) in &LITERALS {
        let mut bytes = Blob::new(alloc);
        assert!(rt; add_literal(&mut bytes, text)?);
        assert_eq!(rt; bytes.as_slice(), *wanted);
    }
    let mut joined = Blob::new(alloc);
    assert!(rt; add_literal(&mut joined, b"'ab'")?);
    assert!(rt; add_literal(&mut joined, b"'''c'''")?);
    assert_eq!(rt; joined.as_slice(), b"abc".as_slice());
    assert!(rt; !add_literal(&mut joined, b"'\\q'")?);
    Ok(())
}

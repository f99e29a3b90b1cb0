//! Names, keywords and marks.

ghost use Rattle.std.specs.Prelude.{◌≡◌, ◌≤◌, ◌+◌, length, drop, map};
ghost use Rattle.std.specs.List.{prefix_len};
ghost use Rattle.py_lexer.specs.Words as spec;
ghost use Rattle.py_lexer.specs.Longest.{WordsAreLongest};

/// A letter, a digit or `_`, all ASCII.
pub fn is_name_byte(b: u8) -> bool
    ensures { result ≡ spec.is_name_byte b }
{
    b.is_ascii_alphanumeric() || b == b'_'
}

/// The length of the run of name bytes at the front.
pub fn name_len(bytes: &[u8]) -> usize
    ensures value { result ≡ prefix_len spec.is_name_byte bytes.now }
    ensures within { result ≤ length bytes.now }
{
    let mut n = 0;
    while n < bytes.len() && is_name_byte(bytes[n]) {
        n += 1;
    }
    n
}

/// Space or tab.
fn is_blank(b: u8) -> bool
    ensures { result ≡ spec.is_blank b }
{
    b == b' ' || b == b'\t'
}

/// The length of the run of blanks at the front.
pub fn blanks_len(bytes: &[u8]) -> usize
    ensures value { result ≡ prefix_len spec.is_blank bytes.now }
    ensures within { result ≤ length bytes.now }
{
    let mut n = 0;
    while n < bytes.len() && is_blank(bytes[n]) {
        n += 1;
    }
    n
}

/// The length of the run of spaces at the front.
pub fn spaces_len(bytes: &[u8]) -> usize
    ensures value { result ≡ prefix_len spec.is_space bytes.now }
    ensures within { result ≤ length bytes.now }
{
    let mut n = 0;
    while n < bytes.len() && bytes[n] == b' ' {
        n += 1;
    }
    n
}

/// The length of the first text of the table that stands at the front, or 0.
fn front_len(mut table: &[&[u8]], bytes: &[u8]) -> usize
    ensures value { result ≡ spec.front_len (map (λ m. m.now) table.entry.now) bytes.now }
    ensures within { result ≤ length bytes.now }
{
    while let [m, rest @ ..] = table {
        if bytes.starts_with(m) {
            return m.len();
        }
        table = rest;
    }
    0
}

/// The marks, each before those that it begins with.
const MARKS: [&[u8]; 40] = [
    b"**=", b"//=", b"<<=", b">>=", b"**", b"//", b"<<", b">>", b"<=", b">=", b"==", b"!=", b"+=",
    b"-=", b"*=", b"%=", b"&=", b"|=", b"^=", b"->", b"+", b"-", b"*", b"/", b"%", b"&", b"|",
    b"^", b"~", b"<", b">", b"=", b"(", b")", b"[", b"]", b",", b":", b".", b"@",
];

/// The length of the longest mark at the front, or 0.
#[tactic(auto, unfolding(crate::specs::Words::marks))]
pub fn mark_len(bytes: &[u8]) -> usize
    ensures value { result ≡ spec.front_len spec.marks bytes.now }
    ensures within { result ≤ length bytes.now }
{
    front_len(&MARKS, bytes)
}

/// The keywords.
const KEYWORDS: [&[u8]; 35] = [
    b"False",
    b"None",
    b"True",
    b"and",
    b"as",
    b"assert",
    b"async",
    b"await",
    b"break",
    b"class",
    b"continue",
    b"def",
    b"del",
    b"elif",
    b"else",
    b"except",
    b"finally",
    b"for",
    b"from",
    b"global",
    b"if",
    b"import",
    b"in",
    b"is",
    b"lambda",
    b"nonlocal",
    b"not",
    b"or",
    b"pass",
    b"raise",
    b"return",
    b"try",
    b"while",
    b"with",
    b"yield",
];

/// Whether a text stands in a table.
fn is_one_of(mut table: &[&[u8]], text: &[u8]) -> bool
    ensures { result ≡ spec.is_one_of (map (λ m. m.now) table.entry.now) text.now }
{
    while let [m, rest @ ..] = table {
        if *m == text {
            return true;
        }
        table = rest;
    }
    false
}

/// Whether a text is a keyword.
#[tactic(auto, unfolding(crate::specs::Words::keywords))]
pub fn is_keyword(text: &[u8]) -> bool
    ensures { result ≡ spec.is_one_of spec.keywords text.now }
{
    is_one_of(&KEYWORDS, text)
}

/// A name, a keyword, a number or a mark that is cut from a source is the longest word that begins where it does: no longer
/// text from there on is letters, digits and `_` alone, or a mark, and an integer has no point behind it that makes a float
/// (Python reference, chapter 2).
pub fn words_are_longest()
    ensures { WordsAreLongest }
{}

use puya_base::{List, Place};

/// What a token is.
#[derive(Clone, Copy, Debug, PartialEq, Eq)]
pub enum TokenKind {
    Name,
    Keyword,
    Number,
    Str,
    BytesLit,
    Mark,
    /// The end of a logical line; its text is the line end.
    Newline,
    /// A line stands further in than the one before; its text is empty.
    Indent,
    /// A line closes a column; its text is empty.
    Dedent,
    /// The end of the source; its text is empty.
    End,
}

/// A token: `source[start..end]`, at the place of its first byte.
#[derive(Clone, Copy, Debug, PartialEq, Eq)]
pub struct Token {
    pub kind: TokenKind,
    pub start: usize,
    pub end: usize,
    pub place: Place,
}

/// The tokens of a source, in order.
pub type Tokens = List<Token>;

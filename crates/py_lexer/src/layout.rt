//! Logical lines, and the indentation that a line has against the columns that are open.

ghost use Rattle.std.specs.Prelude.{◌≡◌, ◌≤◌, ◌<◌, ◌+◌, ◌-◌, ◌^◌, length, drop, take, Result, Ok, Err, IfOk, OnOk, Some, None, [], ◌∷◌};
ghost use Rattle.py_lexer.specs.Layout as spec;
ghost use Rattle.py_lexer.specs.Layout.{Gives, Answers};
ghost use Rattle.py_lexer.specs.Pieces.{flaw_of};

use crate::pieces::{Piece, What};
use crate::token::{Token, TokenKind, Tokens};
use puya_base::{List, Place, Rule};
use std::alloc::{AllocError, AllocFailed, Global};

/// Why no tokens came of a source: no memory, or a rule that is broken at a byte.
#[derive(Clone, Copy, Debug, PartialEq, Eq)]
pub enum Stop {
    Memory,
    Broken(Rule, usize),
}

impl From<AllocError> for Stop {
    ghost use Rattle.std.specs.Prelude.{◌≡◌};
    ghost use Rattle.py_lexer.specs.declared.layout.Stop.TheVariants.{Memory};

    ghost from_gives = { λ _ e. e ≡ Memory };

    fn from(_error: AllocError) -> Stop {
        Stop::Memory
    }
}

impl<T: Drop> From<AllocFailed<T>> for Stop {
    ghost use Rattle.std.specs.Prelude.{◌≡◌};
    ghost use Rattle.py_lexer.specs.declared.layout.Stop.TheVariants.{Memory};

    ghost from_gives = { λ _ e. e ≡ Memory };

    fn from(_error: AllocFailed<T>) -> Stop {
        Stop::Memory
    }
}

/// What a line's column does to the open columns.
#[derive(Clone, Copy, Debug, PartialEq, Eq)]
pub enum Change {
    Same,
    Opens,
    /// It closes so many.
    Closes(usize),
    /// It closes to none that is open.
    Astray,
}

/// What a line at this column does to the open columns.
fn change_at(columns: &[usize], column: usize) -> Change
    ensures { result ≡ spec.change_at columns.now column }
{
    let closed = columns.iter().filter(|open| column < **open).count();
    match (columns.contains(&column), closed) {
        (true, 0) => Change::Same,
        (true, n) => Change::Closes(n),
        (false, 0) => Change::Opens,
        (false, _) => Change::Astray,
    }
}

/// Takes items off a list's end until at most so many are left.
fn shorten(list: &mut List<usize>, left: usize)
    ensures { list.new ≡ take left list.old }
{
    while left < list.len() {
        list.pop();
    }
}

/// A byte of a source and its place.
#[derive(Clone, Copy, Debug, PartialEq, Eq)]
pub struct Spot {
    pub at: usize,
    pub place: Place,
}

/// The tokens so far, the open columns from the outermost in, and the logical line that is being read.
#[derive(Drop)]
pub struct Layout {
    tokens: Tokens,
    columns: List<usize>,
    /// How many brackets are open.
    depth: usize,
    /// How many tokens the line has so far.
    words: usize,
    /// Whether nothing of the line is read yet.
    fresh: bool,
    /// How many spaces lead it.
    column: usize,
    /// Where the first tab of its indentation stands.
    tab: Option<usize>,
}

/// The most open brackets, open columns beside 0, and tokens of a logical line.
const BRACKETS: usize = 64;

const COLUMNS: usize = 20;

const WORDS: usize = 512;

impl Layout {
    /// No tokens; a logical line begins.
    pub fn new(alloc: Global) -> Result<Layout, Stop>
        ensures { Answers result (Ok spec.at_first) }
    {
        let mut columns = List::new(alloc);
        columns.push(0)?;
        Ok(Layout {
            tokens: List::new(alloc),
            columns,
            depth: 0,
            words: 0,
            fresh: true,
            column: 0,
            tab: None,
        })
    }

    /// Adds a token.
    fn push(&mut self, kind: TokenKind, spot: Spot, len: usize) -> Result<(), Stop>
        requires { spot.at + len < 2 ^ 32 }
        ensures { Gives result self.new (Ok (spec.with_token (spec.token_at kind spot len) self.old)) }
    {
        self.tokens.push(Token {
            kind,
            start: spot.at,
            end: spot.at + len,
            place: spot.place,
        })?;
        Ok(())
    }

    /// The blanks at a logical line's begin.
    fn indentation(&mut self, at: usize, spaces: usize, len: usize)
        requires { at + spaces < 2 ^ 32 }
        ensures { self.new ≡ spec.after_indentation at spaces len self.old }
    {
        self.column = spaces;
        self.tab = if spaces < len {
            Some(at + spaces)
        } else {
            None
        };
    }

    /// What the line does to the open columns, judged at its first character that is no blank.
    fn judge(&self, at: usize) -> Result<Change, Stop>
        ensures { result ≡ spec.judged at self.now }
    {
        if let Some(tab) = self.tab {
            return Err(Stop::Broken(Rule::P02, tab));
        }
        match change_at(self.columns.as_slice(), self.column) {
            Change::Astray => Err(Stop::Broken(Rule::P03, at)),
            Change::Opens if self.tokens.len() == 0 => Err(Stop::Broken(Rule::P03, at)),
            change => Ok(change),
        }
    }

    /// Adds the tokens of so many columns that close.
    fn dedent(&mut self, spot: Spot, closed: usize) -> Result<(), Stop>
        requires { spot.at < 2 ^ 32 }
        ensures { Gives result self.new (Ok (spec.after_dedents spot closed self.old)) }
    {
        for _ in 0..closed {
            self.push(TokenKind::Dedent, spot, 0)?;
        }
        Ok(())
    }

    /// Opens a column, of which at most 20 are open beside 0.
    fn indent(&mut self, spot: Spot) -> Result<(), Stop>
        requires { spot.at < 2 ^ 32 }
        ensures { Gives result self.new (spec.after_indent spot self.old) }
    {
        if COLUMNS < self.columns.len() {
            return Err(Stop::Broken(Rule::P06, spot.at));
        }
        self.columns.push(self.column)?;
        self.push(TokenKind::Indent, spot, 0)
    }

    /// Closes so many columns, and adds a token for each.
    fn close(&mut self, spot: Spot, closed: usize) -> Result<(), Stop>
        requires { spot.at < 2 ^ 32 }
        ensures { Gives result self.new (Ok (spec.after_close spot closed self.old)) }
    {
        let left = self.columns.len().saturating_sub(closed);
        shorten(&mut self.columns, left);
        self.dedent(spot, closed)
    }

    /// Changes the open columns as the line's first token says.
    fn change(&mut self, spot: Spot) -> Result<(), Stop>
        requires { spot.at < 2 ^ 32 }
        ensures { Gives result self.new (spec.after_change spot self.old) }
    {
        match self.judge(spot.at)? {
            Change::Opens => self.indent(spot),
            Change::Closes(closed) => self.close(spot, closed),
            Change::Same | Change::Astray => Ok(()),
        }
    }

    /// A token of the line, of which it has at most 512.
    fn word(&mut self, kind: TokenKind, spot: Spot, len: usize) -> Result<(), Stop>
        requires { spot.at + len < 2 ^ 32 }
        ensures { Gives result self.new (spec.after_word kind spot len self.old) }
    {
        if self.words == 0 {
            self.change(spot)?;
        }
        if WORDS <= self.words {
            return Err(Stop::Broken(Rule::P06, spot.at));
        }
        self.words += 1;
        self.push(kind, spot, len)
    }

    /// An opening bracket, of which at most 64 are open.
    fn open(&mut self, spot: Spot, len: usize) -> Result<(), Stop>
        requires { spot.at + len < 2 ^ 32 }
        ensures { Gives result self.new (spec.after_open spot len self.old) }
    {
        self.word(TokenKind::Mark, spot, len)?;
        if BRACKETS <= self.depth {
            return Err(Stop::Broken(Rule::P06, spot.at));
        }
        self.depth += 1;
        Ok(())
    }

    /// A closing bracket, of whichever kind; without an open one it closes none.
    fn shut(&mut self, spot: Spot, len: usize) -> Result<(), Stop>
        requires { spot.at + len < 2 ^ 32 }
        ensures { Gives result self.new (spec.after_shut spot len self.old) }
    {
        self.word(TokenKind::Mark, spot, len)?;
        self.depth = self.depth.saturating_sub(1);
        Ok(())
    }

    /// A line end: outside brackets it ends the logical line.
    fn line_end(&mut self, spot: Spot, len: usize) -> Result<(), Stop>
        requires { spot.at + len < 2 ^ 32 }
        ensures { Gives result self.new (Ok (spec.after_line_end spot len self.old)) }
    {
        if self.depth != 0 {
            return Ok(());
        }
        if self.words != 0 {
            self.push(TokenKind::Newline, spot, len)?;
        }
        self.words = 0;
        self.fresh = true;
        self.column = 0;
        self.tab = None;
        Ok(())
    }

    /// What breaks a rule where a token should begin.
    fn wrong(&mut self, rule: Rule, at: usize) -> Result<(), Stop>
        ensures { Gives result self.new (spec.stopped rule at self.old) }
    {
        if self.words == 0 {
            self.judge(at)?;
        }
        Err(Stop::Broken(rule, at))
    }

    /// Takes the next piece, led by so many spaces.
    #[tactic(auto, unfolding(crate::specs::Layout::after_piece))]
    pub fn take(&mut self, spot: Spot, piece: Piece, spaces: usize) -> Result<(), Stop>
        requires at { spot.at + piece.len < 2 ^ 32 }
        requires spaces { spaces ≤ piece.len }
        requires flaw { flaw_of piece.what ≤ piece.len }
        ensures { Gives result self.new (spec.after_piece spot piece spaces self.old) }
    {
        let fresh = self.fresh;
        self.fresh = false;
        match piece.what {
            What::Blanks if fresh => {
                self.indentation(spot.at, spaces, piece.len);
                Ok(())
            }
            What::Blanks | What::Skip => Ok(()),
            What::LineEnd => self.line_end(spot, piece.len),
            What::Open => self.open(spot, piece.len),
            What::Close => self.shut(spot, piece.len),
            What::Word(kind) => self.word(kind, spot, piece.len),
            What::Flawed(kind, flaw) => {
                self.word(kind, spot, piece.len)?;
                Err(Stop::Broken(Rule::P04, spot.at + flaw))
            }
            What::Wrong(rule) => self.wrong(rule, spot.at),
        }
    }

    /// The end of the source: it ends the logical line, closes the columns and stands last.
    #[tactic(auto, unfolding(crate::specs::Layout::finished))]
    pub fn finish(mut self, spot: Spot) -> Result<Tokens, Stop>
        requires { spot.at < 2 ^ 32 }
        ensures { Answers result (Ok (spec.finished spot self)) }
    {
        if self.words != 0 {
            self.push(TokenKind::Newline, spot, 0)?;
        }
        let open = self.columns.len().saturating_sub(1);
        self.dedent(spot, open)?;
        self.push(TokenKind::End, spot, 0)?;
        Ok(self.tokens)
    }
}

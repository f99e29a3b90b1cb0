//! Uses of names of forms that are not built yet.

ghost use Rattle.std.specs.Prelude.{◌≡◌, ◌≤◌, false, length};
ghost use Rattle.py_lexer.specs.Bytes.{order_mark_len};
ghost use Rattle.py_lexer.specs.Spans.{InOrder};
ghost use Rattle.py_grammar.specs.Symbols.{text_of};
ghost use Rattle.unbuilt_names.specs.Unbuilt as spec;

use crate::imports::has_unbuilt_import;
use crate::names::{begins_import, is_unbuilt_name};
use py_grammar::Module;
use py_lexer::{Token, TokenKind, Tokens};

/// Whether an import goes on behind a token with this text, of which it is said whether it stands in one.
fn goes_on(inside: bool, kind: TokenKind, text: &[u8]) -> bool
    ensures { result ≡ spec.goes_on inside kind text.now }
{
    match kind {
        TokenKind::Keyword => begins_import(text) || inside,
        TokenKind::Newline => false,
        _ => inside,
    }
}

/// Whether a token with this text is a name of a form that is not built yet, outside of imports.
fn is_use(inside: bool, kind: TokenKind, text: &[u8]) -> bool
    ensures { result ≡ spec.is_use inside kind text.now }
{
    match kind {
        TokenKind::Name => !inside && is_unbuilt_name(text),
        _ => false,
    }
}

fn text<'a>(source: &'a [u8], token: &Token) -> &'a [u8]
    requires order { token.now.start ≤ token.now.end }
    requires within { token.now.end ≤ length source.now }
    ensures { result.now ≡ text_of source.now token.now }
{
    &source[token.start..token.end]
}

/// Whether such a name stands outside of imports.
fn uses(source: &[u8], tokens: &[Token]) -> bool
    requires { InOrder (order_mark_len source.now) (length source.now) tokens.now }
    ensures { result ≡ spec.uses source.now false tokens.now }
{
    let mut inside = false;
    let mut left = tokens;
    while let [token, rest @ ..] = left {
        let text = text(source, token);
        if is_use(inside, token.kind, text) {
            return true;
        }
        inside = goes_on(inside, token.kind, text);
        left = rest;
    }
    false
}

/// Whether a source, its tokens and its tree use a form of the language that is not built yet: a name of one stands outside of
/// imports or is brought in under another name, or something is brought in from `algopy.arc4`.
pub fn is_unbuilt(source: &[u8], tokens: &Tokens, tree: &Module) -> bool
    requires { InOrder (order_mark_len source.now) (length source.now) tokens.now }
    ensures { result ≡ spec.is_unbuilt source.now tokens.now tree.now }
{
    uses(source, tokens.as_slice()) || has_unbuilt_import(tree.items.as_slice())
}

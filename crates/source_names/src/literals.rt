//! What the literals of a tree stand for (Python reference 2.4).

ghost use Rattle.std.specs.Prelude.{◌≡◌, IfOk};
ghost use Rattle.source_names.specs.Literals as spec;

use puya_base::{Blob, Memory};
use py_grammar::Literal;
use py_lexer::{add_literal, number_value};
use std::alloc::Global;

/// The number of a token that is one; of any other text 0.
pub fn number_of(literal: &Literal) -> u64
    ensures { result ≡ spec.number_of literal.now }
{
    number_value(literal.text.as_slice()).unwrap_or(0)
}

/// The bytes of literals side by side, joined.
pub fn joined(alloc: Global, literals: &[Literal]) -> Result<Blob, Memory>
    ensures { IfOk result (λ b. b ≡ spec.joined literals.now) }
{
    let mut bytes = Blob::new(alloc);
    let mut rest = literals;
    while let [first, behind @ ..] = rest {
        add_literal(&mut bytes, first.text.as_slice())?;
        rest = behind;
    }
    Ok(bytes)
}

/// Whether a joined literal has at most 4096 bytes.
pub fn is_short(bytes: &[u8]) -> bool
    ensures { result ≡ spec.is_short bytes.now }
{
    bytes.len() <= 4096
}

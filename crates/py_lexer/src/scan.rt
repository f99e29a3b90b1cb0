//! The tokens of a source, or the first rule that it breaks.

ghost use Rattle.std.specs.Prelude.{◌≡◌, ◌≤◌, ◌<◌, ◌+◌, ◌-◌, ◌^◌, length, drop, take, IfOk};
ghost use Rattle.py_lexer.specs.Layout.{Answers};
ghost use Rattle.py_lexer.specs.Scan as spec;
ghost use Rattle.py_lexer.specs.Tokens.{IsAnswer};
ghost use Rattle.py_lexer.specs.Bytes.{first_bad, order_mark_len};
ghost use Rattle.py_lexer.specs.Spans.{InOrder, InPlace, EndsOnce};
ghost use Rattle.puya_base.specs.declared.source.SourceFault.TheVariants.{Refused};

use crate::bytes::{first_bad, order_mark_len, place_after};
use crate::layout::{Layout, Spot, Stop};
use crate::pieces::piece_at;
use crate::token::Tokens;
use crate::words::spaces_len;
use puya_base::{Place, Refusal, Rule, SourceFault};
use std::alloc::Global;

const FIRST: Place = Place { line: 1, col: 1 };

/// The place of a byte behind the byte order mark, or of the source's end.
fn place_of(source: &[u8], begin: usize, at: usize) -> Place
    requires begin { begin ≤ length source.now }
    requires room { length source.now ≤ 1048576 }
    ensures { result ≡ spec.place_of begin source.now at }
{
    let body = &source[begin..];
    let n = at.saturating_sub(begin).min(body.len());
    place_after(FIRST, &body[..n])
}

/// Cuts a source from `begin` on into tokens.
fn scan(alloc: Global, source: &[u8], begin: usize) -> Result<Tokens, Stop>
    requires begin { begin ≤ length source.now }
    requires room { length source.now ≤ 1048576 }
    ensures { Answers result (spec.scanned begin source.now) }
{
    let mut layout = Layout::new(alloc)?;
    let mut spot = Spot {
        at: begin,
        place: FIRST,
    };
    while spot.at < source.len() {
        let rest = &source[spot.at..];
        let piece = piece_at(rest);
        let text = &rest[..piece.len];
        layout.take(spot, piece, spaces_len(text))?;
        spot = Spot {
            at: spot.at + piece.len,
            place: place_after(spot.place, text),
        };
    }
    layout.finish(spot)
}

/// The refusal of a rule that is broken at a byte.
fn refusal(source: &[u8], begin: usize, rule: Rule, at: usize) -> SourceFault
    requires begin { begin ≤ length source.now }
    requires room { length source.now ≤ 1048576 }
    ensures { result ≡ Refused (record { rule = rule; place = spec.place_of begin source.now at }) }
{
    SourceFault::Refused(Refusal {
        rule,
        place: place_of(source, begin, at),
    })
}

/// The earlier of what stopped the scan and the first byte that no source has, which comes first at one byte.
fn earlier(bad: usize, end: usize, found: Result<Tokens, Stop>) -> Result<Tokens, Stop>
    ensures { result ≡ spec.earlier bad end found }
{
    match found {
        Err(Stop::Memory) => Err(Stop::Memory),
        Err(Stop::Broken(rule, at)) if at < bad => Err(Stop::Broken(rule, at)),
        _ if bad < end => Err(Stop::Broken(Rule::P01, bad)),
        found => found,
    }
}

/// The tokens of a source whose text begins at `begin`, or what stops them.
fn found(alloc: Global, source: &[u8], begin: usize) -> Result<Tokens, Stop>
    requires begin { begin ≤ length source.now }
    requires room { length source.now ≤ 1048576 }
    ensures { Answers result (spec.earlier (begin + first_bad (drop begin source.now)) (length source.now) (spec.scanned begin source.now)) }
{
    let bad = begin + first_bad(&source[begin..]);
    earlier(bad, source.len(), scan(alloc, source, begin))
}

/// The tokens of a source of at most 1,048,576 bytes, or the first of the rules P01 to P06 that it breaks, by place and then
/// by number (Python reference, chapter 2).
pub fn tokens(alloc: Global, source: &[u8]) -> Result<Tokens, SourceFault>
    requires { length source.now ≤ 1048576 }
    ensures answer { IsAnswer source.now result }
    ensures spans { IfOk result (λ list. InOrder (order_mark_len source.now) (length source.now) list) }
    ensures places { IfOk result (λ list. InPlace (order_mark_len source.now) source.now list) }
    ensures last { IfOk result EndsOnce }
{
    let begin = order_mark_len(source);
    match found(alloc, source, begin) {
        Ok(tokens) => Ok(tokens),
        Err(Stop::Memory) => Err(SourceFault::Memory),
        Err(Stop::Broken(rule, at)) => Err(refusal(source, begin, rule, at)),
    }
}

//! `Bytes.from_hex` (Algorand Python guide, "Bytes"): P14 on a literal that is no text of pairs of hexadecimal digits.

ghost use Rattle.std.specs.Prelude.{◌≡◌, ◌++◌, ◌<◌, IfOk, IfSome, OnOk};
ghost use Rattle.py_lexer.specs.Numbers as numbers;
ghost use Rattle.call_rules.specs.Calls as spec;
ghost use Rattle.call_rules.specs.Hexes as hexes;

use crate::arguments::Known;
use algopy_library::Scalar;
use awst::ExprKind;
use meaning_rules::{Lit, Meaning, breaks, scalar_value};
use path_rules::Notes;
use puya_base::{Blob, Memory, Place, Rule};
use std::alloc::Global;

/// The value of a hexadecimal digit.
fn digit_value(b: u8) -> Option<u8>
    ensures value { result ≡ numbers.digit_value b }
    ensures bound { IfSome result (λ d. d < 16) }
{
    match b {
        b'0'..=b'9' => Some(b - b'0'),
        b'a'..=b'f' => Some(b - b'a' + 10),
        b'A'..=b'F' => Some(b - b'A' + 10),
        _ => None,
    }
}

fn pair(high: u8, low: u8) -> Option<u8>
    ensures { result ≡ hexes.pair high low }
{
    let high = digit_value(high)?;
    let low = digit_value(low)?;
    Some(high * 16 + low)
}

/// The bytes that pairs of hexadecimal digits write.
fn hex_bytes(alloc: Global, text: &[u8]) -> Result<Option<Blob>, Memory>
    ensures { IfOk result (λ bytes. bytes ≡ spec.hex_bytes text.now) }
{
    let mut bytes = Blob::new(alloc);
    let mut rest = text;
    while let [high, low, behind @ ..] = rest {
        let Some(byte) = pair(*high, *low) else {
            return Ok(None);
        };
        bytes.push(byte)?;
        rest = behind;
    }
    if rest.is_empty() {
        Ok(Some(bytes))
    } else {
        Ok(None)
    }
}

fn hex_data(
    into: &mut Notes,
    place: Place,
    at: Place,
    bytes: Option<Blob>,
) -> Result<Meaning, Memory>
    ensures told { OnOk result (into.new ≡ into.old ++ (spec.hex_data place at bytes).notes) }
    ensures meaning { IfOk result (λ m. m ≡ (spec.hex_data place at bytes).meaning) }
{
    match bytes {
        Some(bytes) => Ok(scalar_value(place, Scalar::Bytes, ExprKind::Data(bytes))),
        None => breaks(into, Rule::P14, at),
    }
}

fn hex_text(
    alloc: Global,
    into: &mut Notes,
    place: Place,
    at: Place,
    text: &Blob,
) -> Result<Meaning, Memory>
    ensures told { OnOk result (into.new ≡ into.old ++ (spec.hex_data place at (spec.hex_bytes text.now)).notes) }
    ensures meaning { IfOk result (λ m. m ≡ (spec.hex_data place at (spec.hex_bytes text.now)).meaning) }
{
    let bytes = hex_bytes(alloc, text.as_slice())?;
    hex_data(into, place, at, bytes)
}

fn hex_literal(
    alloc: Global,
    into: &mut Notes,
    place: Place,
    at: Place,
    lit: &Lit,
) -> Result<Meaning, Memory>
    ensures told { OnOk result (into.new ≡ into.old ++ (spec.hex_literal place at lit.now).notes) }
    ensures meaning { IfOk result (λ m. m ≡ (spec.hex_literal place at lit.now).meaning) }
{
    match lit {
        Lit::Text(text) => hex_text(alloc, into, place, at, text),
        Lit::Number(_) => breaks(into, Rule::P14, at),
        Lit::Bytes(_) => breaks(into, Rule::P14, at),
    }
}

fn hex_known(
    alloc: Global,
    into: &mut Notes,
    place: Place,
    known: &Known,
) -> Result<Meaning, Memory>
    ensures told { OnOk result (into.new ≡ into.old ++ (hexes.hex_known place known.now).notes) }
    ensures meaning { IfOk result (λ m. m ≡ (hexes.hex_known place known.now).meaning) }
{
    match known {
        Known::Value(_, typed) => breaks(into, Rule::P14, typed.expr.place),
        Known::Literal(_, at, lit) => hex_literal(alloc, into, place, *at, lit),
    }
}

#[tactic(auto, using(crate::proofs::HexLaws::called))]
/// A call of `Bytes.from_hex`; P15 on another number of arguments than one.
pub(crate) fn call_hex(
    alloc: Global,
    into: &mut Notes,
    place: Place,
    known: &[Known],
) -> Result<Meaning, Memory>
    ensures told { OnOk result (into.new ≡ into.old ++ (spec.call_hex place known.now).notes) }
    ensures meaning { IfOk result (λ m. m ≡ (spec.call_hex place known.now).meaning) }
{
    match known {
        [only] => hex_known(alloc, into, place, only),
        _ => breaks(into, Rule::P15, place),
    }
}

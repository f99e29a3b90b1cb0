//! What the rules say of a few calls.

use call_rules::{Callee, Known, applied};
use meaning_rules::{Lit, Meaning};
use path_rules::{Note, Notes};
use puya_base::{Blob, List, Memory, Place, Rule};
use std::alloc::Global;
use std::test::Fail;

const HERE: Place = Place { line: 1, col: 1 };

const THERE: Place = Place { line: 1, col: 5 };

/// Whether one rule is noted, at that place.
fn is_told(notes: &Notes, rule: Rule, place: Place) -> bool {
    match notes.as_slice() {
        [Note::Broken(refusal)] => refusal.rule == rule && refusal.place == place,
        _ => false,
    }
}

/// What `from_hex` gives for a text.
fn bytes_of(alloc: Global, notes: &mut Notes, digits: &[u8]) -> Result<Meaning, Memory> {
    let digits = Lit::Text(Blob::from_slice(alloc, digits)?);
    let known = vec![in alloc; Known::Literal(0, THERE, digits)]?;
    let none = List::new(alloc);
    applied(alloc, notes, &none, HERE, Callee::FromHex, known)
}

#[test]
fn hexadecimal_digits_come_in_pairs(rt: HostRuntime) -> Result<(), Fail> {
    let mut notes = Notes::new(rt.alloc());
    let bytes = bytes_of(rt.alloc(), &mut notes, b"00fF")?;
    assert!(rt; matches!(bytes, Meaning::Value(_)));
    bytes_of(rt.alloc(), &mut notes, b"00f")?;
    assert!(rt; is_told(&notes, Rule::P14, THERE));
    Ok(())
}

#[test]
fn a_step_is_a_literal_from_one(rt: HostRuntime) -> Result<(), Fail> {
    let mut notes = Notes::new(rt.alloc());
    let none = List::new(rt.alloc());
    let mut known = Vec::new(rt.alloc());
    for number in 0..3 {
        known.push(Known::Literal(number, THERE, Lit::Number(0)))?;
    }
    applied(rt.alloc(), &mut notes, &none, HERE, Callee::Ranges, known)?;
    assert!(rt; is_told(&notes, Rule::P15, THERE));
    Ok(())
}

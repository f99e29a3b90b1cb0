//! What the rules say of a few expressions.

use algopy_library::{Operator, Scalar};
use awst::ExprKind;
use meaning_rules::{
    BinaryOperator, Hope, Lit, Meaning, Operand, between_operands, literal, scalar_node,
};
use path_rules::{Note, Notes};
use puya_base::{Blob, Place, Rule};
use std::test::Fail;

const HERE: Place = Place { line: 1, col: 1 };

const THERE: Place = Place { line: 1, col: 5 };

/// Whether one rule is noted, at that place.
fn is_told(notes: &Notes, rule: Rule, place: Place) -> bool {
    match notes.as_slice() {
        [Note::Broken(refusal)] => refusal.rule == rule && refusal.place == place,
        _ => false,
    }
}

#[test]
fn literals_have_no_type(rt: HostRuntime) -> Result<(), Fail> {
    let mut notes = Notes::new(rt.alloc());
    let typed = literal(&mut notes, &Hope::Free, THERE, Lit::Number(1))?;
    assert!(rt; typed.is_none());
    assert!(rt; is_told(&notes, Rule::P14, THERE));
    Ok(())
}

#[test]
fn numbers_are_added_and_texts_are_not_divided(rt: HostRuntime) -> Result<(), Fail> {
    let mut notes = Notes::new(rt.alloc());
    let one = Operand::Value(scalar_node(HERE, Scalar::UInt64, ExprKind::Int(1)));
    let two = Operand::Literal(THERE, Lit::Number(2));
    let add = BinaryOperator::Does(Operator::Add);
    let sum = between_operands(rt.alloc(), &mut notes, HERE, THERE, add, one, two)?;
    assert!(rt; matches!(sum, Meaning::Value(_)));
    assert_eq!(rt; notes.len(), 0);
    let text = scalar_node(THERE, Scalar::Text, ExprKind::Data(Blob::new(rt.alloc())));
    let part = Operand::Literal(THERE, Lit::Number(2));
    let div = BinaryOperator::Does(Operator::Div);
    between_operands(
        rt.alloc(),
        &mut notes,
        HERE,
        THERE,
        div,
        Operand::Value(text),
        part,
    )?;
    assert!(rt; is_told(&notes, Rule::P14, HERE));
    Ok(())
}

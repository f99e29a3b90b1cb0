//! The operators of the source's trees, as the rules name them.

ghost use Rattle.std.specs.Prelude.{◌≡◌};
ghost use Rattle.source_names.specs.Source as source;
ghost use Rattle.meaning_rules.specs.Betweens.{between_of};

use algopy_library::Operator;
use meaning_rules::BinaryOperator;
use py_grammar::{BinaryOp, CompareOp};

pub(crate) fn binary_form(op: BinaryOp) -> BinaryOperator
    ensures { between_of result ≡ source.binary_form op }
{
    match op {
        BinaryOp::Or => BinaryOperator::Or,
        BinaryOp::And => BinaryOperator::And,
        BinaryOp::BitOr => BinaryOperator::Does(Operator::BitOr),
        BinaryOp::BitXor => BinaryOperator::Does(Operator::BitXor),
        BinaryOp::BitAnd => BinaryOperator::Does(Operator::BitAnd),
        BinaryOp::ShiftLeft => BinaryOperator::Does(Operator::ShiftLeft),
        BinaryOp::ShiftRight => BinaryOperator::Does(Operator::ShiftRight),
        BinaryOp::Add => BinaryOperator::Does(Operator::Add),
        BinaryOp::Sub => BinaryOperator::Does(Operator::Sub),
        BinaryOp::Mul => BinaryOperator::Does(Operator::Mul),
        BinaryOp::Div => BinaryOperator::Does(Operator::Div),
        BinaryOp::FloorDiv => BinaryOperator::Does(Operator::FloorDiv),
        BinaryOp::Mod => BinaryOperator::Does(Operator::Mod),
    }
}

pub(crate) fn compare_form(op: CompareOp) -> BinaryOperator
    ensures { between_of result ≡ source.compare_form op }
{
    match op {
        CompareOp::Less => BinaryOperator::Does(Operator::Less),
        CompareOp::Greater => BinaryOperator::Does(Operator::Greater),
        CompareOp::AtMost => BinaryOperator::Does(Operator::AtMost),
        CompareOp::AtLeast => BinaryOperator::Does(Operator::AtLeast),
        CompareOp::Equal => BinaryOperator::Does(Operator::Equal),
        CompareOp::NotEqual => BinaryOperator::Does(Operator::NotEqual),
        CompareOp::In => BinaryOperator::In,
        CompareOp::NotIn => BinaryOperator::In,
    }
}

//! Which types have which operators and members.

ghost use Rattle.std.specs.Prelude.{◌≡◌};
ghost use Rattle.algopy_library.specs.Operators as spec;

use crate::scalar::Scalar;
use awst::Primitive;

/// An operator between two values, but `and`, `or` and `in`.
#[derive(Clone, Copy, Debug, PartialEq, Eq)]
pub enum Operator {
    Add,
    Sub,
    Mul,
    Div,
    FloorDiv,
    Mod,
    Power,
    ShiftLeft,
    ShiftRight,
    BitAnd,
    BitOr,
    BitXor,
    Less,
    Greater,
    AtMost,
    AtLeast,
    Equal,
    NotEqual,
}

/// What an operator does at a type, and the type that it gives.
#[derive(Clone, Copy, Debug, PartialEq, Eq)]
pub struct Operation {
    pub prim: Primitive,
    pub result: Scalar,
}

fn gives(prim: Primitive, ty: Scalar) -> Option<Operation>
    ensures { result ≡ spec.gives prim ty }
{
    Some(Operation { prim, result: ty })
}

fn equality(op: Operator) -> Option<Operation>
    ensures { result ≡ spec.equality op }
{
    match op {
        Operator::Equal => gives(Primitive::Equal, Scalar::Bool),
        Operator::NotEqual => gives(Primitive::NotEqual, Scalar::Bool),
        _ => None,
    }
}

fn joining(op: Operator, ty: Scalar) -> Option<Operation>
    ensures { result ≡ spec.joining op ty }
{
    match op {
        Operator::Add => gives(Primitive::Join, ty),
        _ => equality(op),
    }
}

fn arithmetic(op: Operator) -> Option<Operation>
    ensures { result ≡ spec.arithmetic op }
{
    match op {
        Operator::Add => gives(Primitive::Add, Scalar::UInt64),
        Operator::Sub => gives(Primitive::Sub, Scalar::UInt64),
        Operator::Mul => gives(Primitive::Mul, Scalar::UInt64),
        Operator::Div => None,
        Operator::FloorDiv => gives(Primitive::FloorDiv, Scalar::UInt64),
        Operator::Mod => gives(Primitive::Mod, Scalar::UInt64),
        Operator::Power => gives(Primitive::Power, Scalar::UInt64),
        Operator::ShiftLeft => gives(Primitive::ShiftLeft, Scalar::UInt64),
        Operator::ShiftRight => gives(Primitive::ShiftRight, Scalar::UInt64),
        Operator::BitAnd => gives(Primitive::BitAnd, Scalar::UInt64),
        Operator::BitOr => gives(Primitive::BitOr, Scalar::UInt64),
        Operator::BitXor => gives(Primitive::BitXor, Scalar::UInt64),
        Operator::Less => gives(Primitive::Less, Scalar::Bool),
        Operator::Greater => gives(Primitive::Greater, Scalar::Bool),
        Operator::AtMost => gives(Primitive::AtMost, Scalar::Bool),
        Operator::AtLeast => gives(Primitive::AtLeast, Scalar::Bool),
        Operator::Equal => gives(Primitive::Equal, Scalar::Bool),
        Operator::NotEqual => gives(Primitive::NotEqual, Scalar::Bool),
    }
}

/// What an operator does between two values of a type, where the type has it.
pub fn between(op: Operator, ty: Scalar) -> Option<Operation>
    ensures { result ≡ spec.between op ty }
{
    match ty {
        Scalar::UInt64 => arithmetic(op),
        Scalar::Bytes => joining(op, Scalar::Bytes),
        Scalar::Text => joining(op, Scalar::Text),
        Scalar::Bool => equality(op),
        Scalar::Account => equality(op),
    }
}

/// What `~` does at a type, where the type has it.
pub fn inverted(ty: Scalar) -> Option<Operation>
    ensures { result ≡ spec.inverted ty }
{
    match ty {
        Scalar::UInt64 => gives(Primitive::Invert, Scalar::UInt64),
        _ => None,
    }
}

/// Whether a value of a type can stand as a condition, behind `not` and in `bool(..)`.
pub fn has_truth(ty: Scalar) -> bool
    ensures { result ≡ spec.has_truth ty }
{
    match ty {
        Scalar::Account => false,
        _ => true,
    }
}

/// Whether `log` takes a value of a type.
pub fn is_logged(ty: Scalar) -> bool
    ensures { result ≡ spec.is_logged ty }
{
    match ty {
        Scalar::Bool => false,
        _ => true,
    }
}

/// What a member of a value of a type is.
pub fn value_member(ty: Scalar, name: &[u8]) -> Option<Operation>
    ensures { result ≡ spec.value_member ty name.now }
{
    match ty {
        Scalar::Bytes if name == b"length".as_slice() => gives(Primitive::Length, Scalar::UInt64),
        Scalar::Text if name == b"bytes".as_slice() => gives(Primitive::BytesOf, Scalar::Bytes),
        Scalar::Account if name == b"bytes".as_slice() => gives(Primitive::BytesOf, Scalar::Bytes),
        _ => None,
    }
}

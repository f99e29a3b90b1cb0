//! What an expression means, from the meanings of its parts.
#![tactic(auto)]

mod choosing;
mod meaning;
mod named;
mod operand;
mod operators;
mod scope;
mod subscripts;
mod telling;
mod types;
mod values;

pub use choosing::{choose_values, chosen};
pub use meaning::{Context, Expect, Hope, Lit, Meaning, Range, Typed};
pub use named::{
    application_member, bytes_literal, constant_says, member_says, member_when, read_local,
    text_literal,
};
pub use operand::{End, Operand};
pub use operators::{BinaryOperator, between_operands, has_between, two_values, unary_operand};
pub use scope::{Local, Method, Scope, Status};
pub use subscripts::{
    a_number, end_of_bytes, index_hope, index_when, is_bytes, other_end, slice_when,
};
pub use telling::{
    break_rule, breaks, expr_in, node, of_one, scalar_node, scalar_value, small, value_breaks,
};
pub use types::{copied, is_scalar, scalar_of, tree_type};
pub use values::{
    as_operand, condition, fits_type, fits_when, hoped, lit_node, literal, literal_as, settled,
    value,
};

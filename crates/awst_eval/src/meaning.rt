//! The meaning of expressions, statements and functions, computed: one cycle of calls.

mod calls;
mod expressions;
mod loops;
mod statements;

pub(crate) use calls::called;

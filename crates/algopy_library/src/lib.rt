//! The library of the source language as data: its names, what stands behind each, and which types its forms take and give.
#![tactic(auto)]

mod form;
mod member;
mod operator;
mod row;
mod scalar;
mod table;

pub use form::{Admits, Form, admitted};
pub use member::{Member, member_named};
pub use operator::{Operation, Operator, between, has_truth, inverted, is_logged, value_member};
pub use row::{Row, built_in, package_named, typing_named};
pub use scalar::Scalar;

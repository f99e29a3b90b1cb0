//! What the judging of an expression carries along.

use crate::locals::Locals;
use crate::sight::Sight;
use std::alloc::Global;

/// What the expressions of a function see, and its variables.
#[derive(Clone, Copy)]
pub(crate) struct View<'a> {
    pub(crate) alloc: Global,
    pub(crate) sight: &'a Sight,
    pub(crate) locals: &'a Locals,
}

//! What the checking of a function's statements carries along.

use expression_check::Sight;
use source_names::SourceType;
use std::alloc::Global;

/// A function whose statements are checked: what it sees besides its variables, and what it gives where that is known.
#[derive(Clone, Copy)]
pub struct Frame<'a> {
    pub alloc: Global,
    pub sight: &'a Sight,
    pub gives: &'a Option<SourceType>,
}

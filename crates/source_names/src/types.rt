//! Source types.

ghost use Rattle.std.specs.Prelude.{◌≡◌, IfOk};
ghost use Rattle.source_names.specs.Types as spec;

use algopy_library::Scalar;
use puya_base::{List, Memory};
use std::alloc::Global;

/// A type of the source. Two types are one where they are written alike.
#[derive(Drop)]
pub enum SourceType {
    Scalar(Scalar),
    /// What a function without a result gives.
    Nothing,
    Tuple(List<SourceType>),
}

/// Whether two types are one.
#[cycle(same)]
pub fn same_type(a: &SourceType, b: &SourceType) -> bool
    ensures { result ≡ spec.same_type a.now b.now }
{
    match (a, b) {
        (SourceType::Scalar(s), SourceType::Scalar(t)) => *s == *t,
        (SourceType::Nothing, SourceType::Nothing) => true,
        (SourceType::Tuple(xs), SourceType::Tuple(ys)) => same_types(xs.as_slice(), ys.as_slice()),
        _ => false,
    }
}

#[cycle(same)]
fn same_types(xs: &[SourceType], ys: &[SourceType]) -> bool
    ensures { result ≡ spec.same_types xs.now ys.now }
{
    let mut i = 0;
    for x in xs {
        if i >= ys.len() {
            return false;
        }
        if !same_type(x, &ys[i]) {
            return false;
        }
        i += 1;
    }
    let n = ys.len();
    if i < n { false } else { true }
}

//! Types of the source.

ghost use Rattle.std.specs.Prelude.{◌≡◌, None, Some, MatchOption};
ghost use Rattle.source_names.specs.Types as spec;

use source_names::SourceType;

/// Whether it is what a function without a result gives.
pub fn is_nothing(ty: &SourceType) -> bool
    ensures { result ≡ spec.is_nothing ty.now }
{
    match ty {
        SourceType::Scalar(_) => false,
        SourceType::Nothing => true,
        SourceType::Tuple(_) => false,
    }
}

/// The types of a tuple's parts.
pub fn tuple_parts(ty: &SourceType) -> Option<&[SourceType]>
    ensures { MatchOption result (spec.tuple_parts ty.now ≡ None) (λ ts. spec.tuple_parts ty.now ≡ Some ts.now) }
{
    match ty {
        SourceType::Scalar(_) => None,
        SourceType::Nothing => None,
        SourceType::Tuple(parts) => Some(parts.as_slice()),
    }
}

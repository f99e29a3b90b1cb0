//! Types of the source, once more.

ghost use Rattle.std.specs.Prelude.{◌≡◌, IfOk};

use meaning_rules::copied;
use puya_base::Memory;
use source_names::SourceType;
use std::alloc::Global;

/// The same type once more, where it is known.
pub(crate) fn known_copied(
    alloc: Global,
    ty: &Option<SourceType>,
) -> Result<Option<SourceType>, Memory>
    ensures { IfOk result (λ t. t ≡ ty.now) }
{
    match ty {
        Some(ty) => Ok(Some(copied(alloc, ty)?)),
        None => Ok(None),
    }
}

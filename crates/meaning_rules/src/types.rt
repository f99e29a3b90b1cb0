//! Types of the source: what they are, copies of them, and the types of typed trees for them.

ghost use Rattle.std.specs.Prelude.{◌≡◌, map, None, Some, IfOk, MatchOption};
ghost use Rattle.source_names.specs.Types as spec;
ghost use Rattle.meaning_rules.specs.Meanings as meanings;

use algopy_library::Scalar;
use awst::{Ty, Tys};
use puya_base::{List, Memory};
use source_names::SourceType;
use std::alloc::Global;

/// The type's scalar, if it is one.
pub fn scalar_of(ty: &SourceType) -> Option<Scalar>
    ensures { result ≡ spec.scalar_of ty.now }
{
    match ty {
        SourceType::Scalar(scalar) => Some(*scalar),
        SourceType::Nothing => None,
        SourceType::Tuple(_) => None,
    }
}

/// Whether it is this scalar.
pub fn is_scalar(scalar: Option<Scalar>, wanted: Scalar) -> bool
    ensures { result ≡ meanings.is_scalar scalar wanted }
{
    match scalar {
        Some(scalar) => scalar == wanted,
        None => false,
    }
}

/// Whether it is what a function without a result gives.
pub(crate) fn is_nothing(ty: &SourceType) -> bool
    ensures { result ≡ spec.is_nothing ty.now }
{
    match ty {
        SourceType::Scalar(_) => false,
        SourceType::Nothing => true,
        SourceType::Tuple(_) => false,
    }
}

/// The types of a tuple's parts.
pub(crate) fn tuple_parts(ty: &SourceType) -> Option<&[SourceType]>
    ensures { MatchOption result (spec.tuple_parts ty.now ≡ None) (λ ts. spec.tuple_parts ty.now ≡ Some ts.now) }
{
    match ty {
        SourceType::Scalar(_) => None,
        SourceType::Nothing => None,
        SourceType::Tuple(parts) => Some(parts.as_slice()),
    }
}

pub(crate) fn typed_scalar(scalar: Scalar) -> Ty
    ensures { result ≡ spec.typed_scalar scalar }
{
    match scalar {
        Scalar::UInt64 => Ty::UInt64,
        Scalar::Bool => Ty::Bool,
        Scalar::Bytes => Ty::Bytes,
        Scalar::Text => Ty::Text,
        Scalar::Account => Ty::Account,
    }
}

/// The type of typed trees for a type.
#[cycle(typed)]
pub fn tree_type(alloc: Global, ty: &SourceType) -> Result<Ty, Memory>
    ensures { IfOk result (λ t. t ≡ spec.typed ty.now) }
{
    match ty {
        SourceType::Scalar(scalar) => Ok(typed_scalar(*scalar)),
        SourceType::Nothing => Ok(Ty::Nothing),
        SourceType::Tuple(below) => {
            let parts = tree_types(alloc, below.as_slice())?;
            Ok(Ty::Tuple(parts))
        }
    }
}

#[cycle(typed)]
fn tree_types(alloc: Global, tys: &[SourceType]) -> Result<Tys, Memory>
    ensures { IfOk result (λ ts. ts ≡ map spec.typed tys.now) }
{
    let mut all = List::new(alloc);
    for ty in tys {
        let one = tree_type(alloc, ty)?;
        all.push(one)?;
    }
    Ok(all)
}

/// The same type once more.
#[cycle(copied)]
pub fn copied(alloc: Global, ty: &SourceType) -> Result<SourceType, Memory>
    ensures { IfOk result (λ t. t ≡ ty.now) }
{
    match ty {
        SourceType::Scalar(scalar) => Ok(SourceType::Scalar(*scalar)),
        SourceType::Nothing => Ok(SourceType::Nothing),
        SourceType::Tuple(below) => {
            let parts = all_copied(alloc, below.as_slice())?;
            Ok(SourceType::Tuple(parts))
        }
    }
}

#[cycle(copied)]
fn all_copied(alloc: Global, tys: &[SourceType]) -> Result<List<SourceType>, Memory>
    ensures { IfOk result (λ ts. ts ≡ tys.now) }
{
    let mut all = List::new(alloc);
    for ty in tys {
        let one = copied(alloc, ty)?;
        all.push(one)?;
    }
    Ok(all)
}

//! The limits of tuple types: how deep they nest, and how many parts they have in all.

ghost use Rattle.std.specs.Prelude.{◌≡◌, nat_le};
ghost use Rattle.source_names.specs.Types as spec;
ghost use Rattle.source_names.specs.Limits.{left};

use crate::types::SourceType;

/// Whether a type nests at most so many levels deep.
#[cycle(levels)]
fn nests_within(ty: &SourceType, limit: u32) -> bool
    ensures { result ≡ nat_le (spec.levels (spec.plain ty.now)) limit }
{
    match ty {
        SourceType::Tuple(parts) => {
            if limit == 0 {
                return false;
            }
            all_nest_within(parts.as_slice(), limit - 1)
        }
        _ => true,
    }
}

#[cycle(levels)]
fn all_nest_within(types: &[SourceType], limit: u32) -> bool
    ensures { result ≡ nat_le (spec.most_levels (spec.plains types.now)) limit }
{
    for ty in types {
        if !nests_within(ty, limit) {
            return false;
        }
    }
    true
}

/// What the parts of a type leave of a limit, where it is not passed.
#[cycle(parts)]
#[tactic(auto, unfolding(crate::specs::Limits::left))]
fn parts_left(ty: &SourceType, limit: u32) -> Option<u32>
    ensures { result ≡ left limit (spec.part_count (spec.plain ty.now)) }
{
    match ty {
        SourceType::Tuple(parts) => all_parts_left(parts.as_slice(), limit),
        _ => Some(limit),
    }
}

#[cycle(parts)]
#[tactic(auto, using(crate::proofs::Left::no_room, crate::proofs::Left::all_left))]
fn all_parts_left(types: &[SourceType], limit: u32) -> Option<u32>
    ensures { result ≡ left limit (spec.all_parts (spec.plains types.now)) }
{
    let mut room = limit;
    for ty in types {
        if room == 0 {
            return None;
        }
        match parts_left(ty, room - 1) {
            Some(left) => room = left,
            None => return None,
        }
    }
    Some(room)
}

/// Whether a tuple type nests at most 32 levels deep and has at most 4096 parts.
#[tactic(auto, unfolding(crate::specs::Limits::left))]
pub fn fits_limits(ty: &SourceType) -> bool
    ensures { result ≡ spec.fits_limits ty.now }
{
    if !nests_within(ty, 32) {
        return false;
    }
    parts_left(ty, 4096).is_some()
}

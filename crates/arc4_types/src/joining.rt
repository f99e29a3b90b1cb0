ghost use Rattle.std.specs.Prelude.{◌≡◌, ◌+◌, ◌≤◌, ◌++◌, IfOk, OnOk, min, true};
ghost use Rattle.arc4_types.specs.Encoding.{in_head, head_size, heads, joined, offsets_fit, tails};

use crate::placed::Placed;
use puya_base::{Blob, Memory};
use std::alloc::Global;

/// One more than the greatest offset.
const OFFSETS: usize = 65536;

/// How many bytes of the head are a part's.
fn in_head(part: &Placed) -> usize
    ensures { result ≡ in_head part.now }
{
    match part {
        Placed::Here(bytes) => bytes.len(),
        Placed::Later(_) => 2,
    }
}

/// A place so many bytes on, or 65,536 where that is more.
fn moved_on(at: usize, by: usize) -> usize
    ensures { result ≡ min (at + by) OFFSETS }
{
    at.saturating_add(by).min(OFFSETS)
}

/// The size of the head, or 65,536 where it is more.
#[tactic(auto, using(crate::proofs::Offsets::cap_more))]
fn head_size(parts: &[Placed]) -> usize
    ensures { result ≡ min (head_size parts.now) OFFSETS }
{
    let mut size = 0;
    for part in parts {
        size = moved_on(size, in_head(part));
    }
    size
}

/// Whether each offset fits 16 bits, where the tails begin at `at`.
#[tactic(auto, using(crate::proofs::Offsets::fits_min))]
fn offsets_fit(at: usize, parts: &[Placed]) -> bool
    ensures { result ≡ offsets_fit at parts.now }
{
    let mut at = at;
    for part in parts {
        let Placed::Later(bytes) = part else {
            continue;
        };
        if at >= OFFSETS {
            return false;
        }
        at = moved_on(at, bytes.len());
    }
    true
}

/// Appends the head, where the tails begin at `at`.
#[tactic(auto, using(crate::proofs::Offsets::fits_min, crate::proofs::Offsets::heads_min))]
fn push_heads(out: &mut Blob, at: usize, parts: &[Placed]) -> Result<(), Memory>
    requires { offsets_fit at parts.now ≡ true }
    ensures { OnOk result (out.new ≡ out.old ++ heads at parts.now) }
{
    let mut at = at;
    for part in parts {
        match part {
            Placed::Here(bytes) => {
                out.extend(bytes.as_slice())?;
                continue;
            }
            Placed::Later(bytes) => {
                out.extend(&(at as u16).to_be_bytes())?;
                at = moved_on(at, bytes.len());
            }
        }
    }
    Ok(())
}

/// Appends the tails.
fn push_tails(out: &mut Blob, parts: &[Placed]) -> Result<(), Memory>
    ensures { OnOk result (out.new ≡ out.old ++ tails parts.now) }
{
    for part in parts {
        if let Placed::Later(bytes) = part {
            out.extend(bytes.as_slice())?;
        }
    }
    Ok(())
}

/// The head and the tails of the parts, unless an offset passes 65,535.
#[tactic(auto, using(crate::proofs::Offsets::fits_min, crate::proofs::Offsets::heads_min))]
pub(crate) fn joined(alloc: Global, parts: &[Placed]) -> Result<Option<Blob>, Memory>
    ensures { IfOk result (λ r. r ≡ joined parts.now) }
{
    let size = head_size(parts);
    if !offsets_fit(size, parts) {
        return Ok(None);
    }
    let mut out = Blob::new(alloc);
    push_heads(&mut out, size, parts)?;
    push_tails(&mut out, parts)?;
    Ok(Some(out))
}

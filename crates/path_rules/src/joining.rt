//! The summary of many pieces.

ghost use Rattle.std.specs.Prelude.{◌≡◌, ◌+◌, ◌*◌, ◌≤◌, [], ◌∷◌, ◌++◌, IfOk, OnOk, vec_len};
ghost use Rattle.path_rules.specs.Describes.{Describes, Together};
ghost use Rattle.path_rules.specs.Steps.{Steps};
ghost use Rattle.path_rules.specs.Summaries.{both_or_one, only_goes, plain};

use crate::merging::summary_behind;
use crate::summary::{Exits, Summary};
use puya_base::{List, Memory};
use std::alloc::Global;

/// The summary of notes that name no variable.
pub(crate) fn plain(alloc: Global, others: Exits) -> Summary
    ensures { result ≡ plain others }
{
    Summary {
        others,
        touched: List::new(alloc),
    }
}

pub(crate) fn only_goes() -> Exits
    ensures { result ≡ only_goes }
{
    Exits {
        goes: true,
        leaves: false,
        breaks: false,
        continues: false,
    }
}

/// Adds the summary of a piece and of the one behind it, or of the second alone.
fn push_both(
    alloc: Global,
    into: &mut Vec<Summary>,
    first: Option<Summary>,
    second: Summary,
) -> Result<(), Memory>
    ensures items { OnOk result (into.new.items ≡ into.old.items ++ both_or_one first second ∷ []) }
    ensures len { OnOk result (vec_len into.new ≡ vec_len into.old + 1) }
{
    let both = match first {
        Some(first) => summary_behind(alloc, &first, &second)?,
        None => second,
    };
    into.push(both)?;
    Ok(())
}

/// The summaries of neighbours: half as many, of the same steps.
fn halved(alloc: Global, mut parts: Vec<Summary>) -> Result<Vec<Summary>, Memory>
    ensures same { IfOk result (λ halves. (fs : Steps) → Together parts.items fs → Together halves.items fs) }
    ensures fewer { IfOk result (λ halves. 2 * vec_len halves ≤ vec_len parts + 1) }
{
    let mut halves = Vec::new(alloc);
    while let Some(second) = parts.pop() {
        let first = parts.pop();
        push_both(alloc, &mut halves, first, second)?;
    }
    halves.reverse();
    Ok(halves)
}

/// The summary of all the pieces, one behind the other. Each variable of a piece is looked at about as often as the
/// number of pieces has binary digits.
pub(crate) fn joined(alloc: Global, mut parts: Vec<Summary>) -> Result<Summary, Memory>
    ensures { IfOk result (λ m. (fs : Steps) → Together parts.items fs → Describes m fs) }
{
    while parts.len() > 1 {
        parts = halved(alloc, parts)?;
    }
    match parts.pop() {
        Some(all) => Ok(all),
        None => Ok(plain(alloc, only_goes())),
    }
}

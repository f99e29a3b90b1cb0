//! Notes on broken rules.

ghost use Rattle.std.specs.Prelude.{◌≡◌, ◌++◌, OnOk};
ghost use Rattle.meaning_rules.specs.Meanings as meanings;

use path_rules::{Note, Notes};
use puya_base::{Memory, Refusal};

/// Notes these broken rules.
pub fn note_all(into: &mut Notes, told: &[Refusal]) -> Result<(), Memory>
    ensures { OnOk result (into.new ≡ into.old ++ meanings.broken_all told.now) }
{
    let mut rest = told;
    while let [first, behind @ ..] = rest {
        into.push(Note::Broken(*first))?;
        rest = behind;
    }
    Ok(())
}

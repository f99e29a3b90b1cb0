//! Telling broken rules.

ghost use Rattle.std.specs.Prelude.{◌≡◌, ◌++◌, OnOk};
ghost use Rattle.source_names.specs.Faults.{breaks};

use puya_base::{List, Memory, Place, Refusal, Rule};

/// Adds a broken rule to those told.
pub fn break_rule(into: &mut List<Refusal>, rule: Rule, place: Place) -> Result<(), Memory>
    ensures { OnOk result (into.new ≡ into.old ++ breaks rule place) }
{
    into.push(Refusal { rule, place })?;
    Ok(())
}

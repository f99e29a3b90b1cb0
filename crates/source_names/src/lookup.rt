//! Maps from names, in which the first value that a name gets counts.

ghost use Rattle.std.specs.Prelude.{◌≡◌, ℕ, List, OnOk};
ghost use Rattle.std.specs.HashMap.{get_by_text};
ghost use Rattle.source_names.specs.Lookups.{first_of, value_at};

use indexmap::IndexMap;
use puya_base::Memory;
use std::alloc::Global;

/// Gives a name a value, unless it has one.
pub fn note<T: Copy>(
    alloc: Global,
    map: &mut IndexMap<String, T>,
    name: &str,
    value: T,
) -> Result<(), Memory>
    ensures { OnOk result ((n : List ℕ) → get_by_text map.new n ≡ first_of (get_by_text map.old n) (value_at name.now value n)) }
{
    if map.contains_key(name) {
        return Ok(());
    }
    let name = String::from_str(alloc, name)?;
    map.insert(name, value)?;
    Ok(())
}

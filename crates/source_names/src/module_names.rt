//! The names that a module defines.

ghost use Rattle.std.specs.Prelude.{◌≡◌, IfOk};
ghost use Rattle.source_names.specs.Things as spec;

use crate::lookup::note;
use crate::named::{Entry, Thing};
use indexmap::IndexMap;
use puya_base::{List, Memory};
use std::alloc::Global;
use std::marker::Model;

/// The names that a module defines, in the order of its lines, with a map to look them up. A contract sees the list of them.
#[derive(Drop)]
pub struct ModuleNames {
    entries: List<Entry>,
    things: IndexMap<String, Thing>,
}

impl Model for ModuleNames {
    ghost use Rattle.std.specs.Prelude.{◌≡◌, List, ℕ};
    ghost use Rattle.std.specs.HashMap.{get_by_text};
    ghost use Rattle.source_names.specs.declared.named.Entry.{Entry};
    ghost use Rattle.source_names.specs.Things.{entry_named};

    ghost Value = { List Entry };

    ghost view = { λ m. m.entries };

    ghost invariant = { λ m. (n : List ℕ) → get_by_text m.things n ≡ entry_named m.entries n };
}

impl ModuleNames {
    /// These names, to be looked up.
    pub fn new(alloc: Global, entries: List<Entry>) -> Result<ModuleNames, Memory>
        ensures { IfOk result (λ m. m ≡ entries) }
    {
        let mut things = IndexMap::new(alloc);
        for entry in entries.as_slice() {
            note(alloc, &mut things, entry.name.as_str(), entry.thing)?;
        }
        Ok(ModuleNames { entries, things })
    }

    /// What a name stands for, by the first line that defines it.
    pub fn thing_of(&self, name: &str) -> Option<Thing>
        ensures { result ≡ spec.entry_named self.now name.now }
    {
        self.things.get(name).copied()
    }

    /// The names as they stand.
    pub fn entries(&self) -> &[Entry]
        ensures { result.now ≡ self.now }
    {
        self.entries.as_slice()
    }
}

//! Sets of names.

ghost use Rattle.std.specs.Prelude.{◌≡◌, [], IfOk, OnOk};
ghost use Rattle.source_names.specs.Lookups.{is_seen, with_name};
ghost use Rattle.source_names.specs.Things.{names_variable};

use indexmap::IndexSet;
use puya_base::Memory;
use std::alloc::Global;
use std::marker::Model;

/// Names, each once, in the order of their first sight. A contract sees the list of the names.
#[derive(Drop)]
pub struct NameSet {
    names: IndexSet<String>,
}

impl Model for NameSet {
    ghost use Rattle.std.specs.Prelude.{List, ℕ, map, string_bytes};

    ghost Value = { List (List ℕ) };

    ghost view = { λ s. map string_bytes s.names.keys };
}

impl NameSet {
    /// No names; it takes no memory.
    pub fn new(alloc: Global) -> NameSet
        ensures { result ≡ [] }
    {
        NameSet {
            names: IndexSet::new(alloc),
        }
    }

    /// Whether a name is one of them.
    pub fn contains(&self, name: &str) -> bool
        ensures { result ≡ names_variable self.now name.now }
    {
        self.names.contains(name)
    }

    /// Adds a name, and tells whether it stood there before. On `Memory` nothing is added.
    pub fn note(&mut self, alloc: Global, name: &str) -> Result<bool, Memory>
        ensures before { IfOk result (λ b. b ≡ is_seen name.now self.old) }
        ensures added { OnOk result (self.new ≡ with_name self.old name.now) }
    {
        if self.names.contains(name) {
            return Ok(true);
        }
        let name = String::from_str(alloc, name)?;
        self.names.insert(name)?;
        Ok(false)
    }
}

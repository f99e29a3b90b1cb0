ghost use Rattle.std.specs.Prelude.{◌≡◌, ℕ, ◌<◌, ◌≤◌, ◌+◌, ◌^◌, [], length, IfOk, OnOk};
ghost use Rattle.teal_text.specs.Numbering.{number_of, with_name};

use indexmap::IndexSet;
use puya_base::Memory;
use std::alloc::Global;
use std::marker::Model;

/// The names of labels in the order of their first sight. A contract sees the list of the names.
#[derive(Drop)]
pub(crate) struct Seen {
    names: IndexSet<String>,
}

impl Model for Seen {
    ghost use Rattle.std.specs.Prelude.{List, ℕ, map, string_bytes};

    ghost Value = { List (List ℕ) };

    ghost view = { λ s. map string_bytes s.names.keys };
}

impl Seen {
    pub fn new(alloc: Global) -> Seen
        ensures { result ≡ [] }
    {
        Seen {
            names: IndexSet::new(alloc),
        }
    }

    /// The number of a name, which is seen from now on.
    pub fn number(&mut self, alloc: Global, name: &str) -> Result<u32, Memory>
        requires { length self.old < 2 ^ 32 }
        ensures number { IfOk result (λ n. n ≡ number_of self.old name.now) }
        ensures seen { OnOk result (self.new ≡ with_name self.old name.now) }
        ensures room { OnOk result (length self.new ≤ length self.old + 1) }
    {
        if let Some(number) = self.names.get_index_of(name) {
            return Ok(number as u32);
        }
        let number = self.names.len();
        let name = String::from_str(alloc, name)?;
        self.names.insert(name)?;
        Ok(number as u32)
    }
}

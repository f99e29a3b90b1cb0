//! The variables of a function.

ghost use Rattle.std.specs.Prelude.{◌≡◌, ◌+◌, ℕ, List, slice_get, IfOk, OnOk, option_copied};
ghost use Rattle.std.specs.HashMap.{get_by_text};
ghost use Rattle.source_names.specs.Lookups.{first_of, value_at};
ghost use Rattle.source_names.specs.Things.{names_variable};
ghost use Rattle.meaning_rules.specs.Operations.{local_from};
ghost use Rattle.expression_check.specs.Sights.{is_unseen};
ghost use Rattle.expression_check.specs.Variables.{fixed, local_names};

use indexmap::IndexMap;
use meaning_rules::{Local, Status};
use puya_base::Memory;
use source_names::{NameSet, SourceType, note};
use std::alloc::Global;
use std::marker::Model;

/// The variables of a function, with maps to look them up: of a name that stands twice the first counts. A contract sees the list of them.
#[derive(Drop)]
pub struct Locals {
    list: Vec<Local>,
    numbers: IndexMap<String, u32>,
    names: NameSet,
}

impl Model for Locals {
    ghost use Rattle.std.specs.Prelude.{◌≡◌, List, ℕ};
    ghost use Rattle.std.specs.HashMap.{get_by_text};
    ghost use Rattle.source_names.specs.Things.{names_variable};
    ghost use Rattle.meaning_rules.specs.declared.scope.Local.{Local};
    ghost use Rattle.meaning_rules.specs.Operations.{local_from};
    ghost use Rattle.expression_check.specs.Variables.{local_names};
    ghost use Rattle.source_names.specs.contracts.types.SourceType as source_type;
    ghost use Rattle.std.specs.Coded.{codes};

    ghost Value = { List Local };

    ghost coded = { Prim.hlevel (codes, source_type.the_row.coded) };

    ghost view = { λ l. l.list.items };

    ghost invariant = { λ l. ((n : List ℕ) → get_by_text l.numbers n ≡ local_from 0 n l.list.items) × ((n : List ℕ) → names_variable l.names n ≡ names_variable (local_names l.list.items) n) };
}

impl Locals {
    /// These variables, to be looked up. More than 2^32 variables are no memory.
    pub fn new(alloc: Global, list: Vec<Local>) -> Result<Locals, Memory>
        ensures { IfOk result (λ l. l ≡ list.items) }
    {
        let mut numbers = IndexMap::new(alloc);
        let mut names = NameSet::new(alloc);
        let mut number = 0;
        for local in &list {
            names.note(alloc, local.name.as_str())?;
            note(alloc, &mut numbers, local.name.as_str(), number)?;
            number = next_number(number)?;
        }
        Ok(Locals {
            list,
            numbers,
            names,
        })
    }

    /// The names of the variables.
    pub fn names(&self) -> &NameSet
        ensures { (n : List ℕ) → names_variable result.now n ≡ names_variable (local_names self.now) n }
    {
        &self.names
    }

    /// The number of the variable of a name.
    pub fn number_of(&self, name: &str) -> Option<u32>
        ensures { result ≡ local_from 0 name.now self.now }
    {
        self.numbers.get(name).copied()
    }

    /// The variable of a number.
    pub fn at(&self, number: u32) -> Option<&Local>
        ensures { option_copied result ≡ slice_get self.now number }
    {
        self.list.get(number as usize)
    }

    /// The variables as they stand.
    pub fn as_slice(&self) -> &[Local]
        ensures { result.now ≡ self.now }
    {
        self.list.as_slice()
    }

    /// The variable has this type from now on, unless its type is fixed.
    pub fn fix(&mut self, number: u32, ty: Option<SourceType>)
        ensures { self.new ≡ fixed self.old number ty }
    {
        let at = number as usize;
        if at < self.list.len() {
            if is_unseen(&self.list[at].status) {
                self.list[at].status = Status::Fixed(ty);
            }
        }
    }
}

fn is_unseen(status: &Status) -> bool
    ensures { result ≡ is_unseen status.now }
{
    match status {
        Status::Unseen => true,
        Status::Fixed(_) => false,
    }
}

fn next_number(number: u32) -> Result<u32, Memory>
    ensures { IfOk result (λ n. n ≡ number + 1) }
{
    number.checked_add(1).ok_or(Memory)
}

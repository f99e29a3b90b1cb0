//! The functions of a class that can be called on `self`.

ghost use Rattle.std.specs.Prelude.{◌≡◌, ◌++◌, [], map, IfOk, OnOk};
ghost use Rattle.source_names.specs.Things as spec;

use crate::lookup::note;
use crate::named::Thing;
use crate::things::{plain_member, undefined};
use indexmap::IndexMap;
use puya_base::{List, Memory, Name, Place, Refusal};
use py_grammar::Word;
use std::alloc::Global;
use std::marker::Model;

/// A function's name and its number among the contract's functions.
#[derive(Drop)]
pub struct Method {
    pub name: Name,
    pub function: u32,
}

/// The functions of a class that can be called on `self`, in order, with a map to look them up. A contract sees the list of their names and
/// numbers among the contract's functions.
#[derive(Drop)]
pub struct Methods {
    list: List<Method>,
    functions: IndexMap<String, u32>,
}

impl Model for Methods {
    ghost use Rattle.std.specs.Prelude.{◌≡◌, List, ℕ, map};
    ghost use Rattle.std.specs.HashMap.{get_by_text};
    ghost use Rattle.source_names.specs.Things.{method_named};

    ghost Value = { List (List ℕ × ℕ) };

    ghost view = { λ m. map (λ x. (x.name, x.function)) m.list };

    ghost invariant = { λ m. (n : List ℕ) → get_by_text m.functions n ≡ method_named (map (λ x. (x.name, x.function)) m.list) n };
}

impl Methods {
    /// No functions; it takes no memory.
    pub fn new(alloc: Global) -> Methods
        ensures { result ≡ [] }
    {
        Methods {
            list: List::new(alloc),
            functions: IndexMap::new(alloc),
        }
    }

    /// These functions, to be looked up.
    pub fn of_list(alloc: Global, list: List<Method>) -> Result<Methods, Memory>
        ensures { IfOk result (λ m. m ≡ map (λ x. (x.name, x.function)) list) }
    {
        let mut functions = IndexMap::new(alloc);
        for method in list.as_slice() {
            note(alloc, &mut functions, method.name.as_str(), method.function)?;
        }
        Ok(Methods { list, functions })
    }

    /// The number of a function that can be called on `self`.
    pub fn function_of(&self, name: &str) -> Option<u32>
        ensures { result ≡ spec.method_named self.now name.now }
    {
        self.functions.get(name).copied()
    }
}

fn found_method(
    into: &mut List<Refusal>,
    place: Place,
    number: Option<u32>,
) -> Result<Thing, Memory>
    ensures told { OnOk result (into.new ≡ into.old ++ (spec.found_method place number).faults) }
    ensures thing { IfOk result (λ t. t ≡ (spec.found_method place number).thing) }
{
    match number {
        Some(number) => Ok(Thing::Method(number)),
        None => undefined(into, place),
    }
}

/// What stands behind a name that is no value, and a point; P08 or P09 where that is nothing.
pub fn member_of(
    into: &mut List<Refusal>,
    methods: &Methods,
    thing: Thing,
    word: &Word,
) -> Result<Thing, Memory>
    ensures told { OnOk result (into.new ≡ into.old ++ (spec.member_of methods.now thing word.now).faults) }
    ensures thing { IfOk result (λ t. t ≡ (spec.member_of methods.now thing word.now).thing) }
{
    match thing {
        Thing::Myself => found_method(into, word.place, methods.function_of(word.name.as_str())),
        _ => plain_member(into, thing, word),
    }
}

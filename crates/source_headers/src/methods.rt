//! The functions of a class that can be called on `self`.

ghost use Rattle.std.specs.Prelude.{◌≡◌, ◌++◌, [], ◌∷◌, map, IfOk, OnOk};
ghost use Rattle.source_headers.specs.Classes.{methods_from, functions};
ghost use Rattle.source_headers.specs.Bases.{number_behind};

use crate::classes::is_program;
use crate::counting::next_number;
use puya_base::{List, Memory, Name};
use py_grammar::{Func, Member};
use source_names::{Method, Methods};
use std::alloc::Global;

/// Adds a function that is no program.
fn add_method(
    alloc: Global,
    into: &mut List<Method>,
    number: u32,
    func: &Func,
) -> Result<(), Memory>
    ensures { OnOk result (map (λ x. (x.name, x.function)) into.new ≡ map (λ x. (x.name, x.function)) into.old ++ methods_from number (func.now ∷ [])) }
{
    if is_program(func) {
        return Ok(());
    }
    let name = Name::new(alloc, func.name.name.as_str())?;
    into.push(Method {
        name,
        function: number,
    })?;
    Ok(())
}

/// Adds a member that is a function and no program, and gives the number behind it.
fn add_member(
    alloc: Global,
    into: &mut List<Method>,
    number: u32,
    member: &Member,
) -> Result<u32, Memory>
    ensures added { OnOk result (map (λ x. (x.name, x.function)) into.new ≡ map (λ x. (x.name, x.function)) into.old ++ methods_from number (functions (member.now ∷ []))) }
    ensures number { IfOk result (λ n. n ≡ number_behind number member.now) }
{
    match member {
        Member::Func(func) => {
            add_method(alloc, into, number, func)?;
            next_number(number)
        }
        _ => Ok(number),
    }
}

/// The functions of a class that can be called as `self.m(..)`, where its first function has this number.
pub fn methods_of(alloc: Global, first: u32, members: &[Member]) -> Result<Methods, Memory>
    ensures { IfOk result (λ m. m ≡ methods_from first (functions members.now)) }
{
    let mut list = List::new(alloc);
    let mut number = first;
    let mut rest = members;
    while let [member, behind @ ..] = rest {
        number = add_member(alloc, &mut list, number, member)?;
        rest = behind;
    }
    Methods::of_list(alloc, list)
}

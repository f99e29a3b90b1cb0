//! Decorators (Python reference 8.7): P22 on what is none, or stands where none may; P08 and P09 on their names.

ghost use Rattle.std.specs.Prelude.{◌≡◌, ◌++◌, IfOk, OnOk};
ghost use Rattle.source_headers.specs.Headers as spec;
ghost use Rattle.source_names.specs.Source as source;
ghost use Rattle.source_headers.specs.Bases.{unwanted_told};

use algopy_library::Row;
use puya_base::{List, Memory, Place, Refusal, Rule};
use py_grammar::Tree;
use source_names::{ModuleNames, Thing, break_rule, module_name, place_of, plain_member};

/// Something made of a name is no decorator.
fn not_alone(thing: Thing) -> Thing
    ensures { result ≡ spec.not_alone thing }
{
    match thing {
        Thing::Unknown => Thing::Unknown,
        _ => Thing::Variable,
    }
}

/// What a decorator names.
#[tactic(auto, using(crate::proofs::Parens::parens_comma))]
fn decorator(into: &mut List<Refusal>, names: &ModuleNames, tree: &Tree) -> Result<Thing, Memory>
    ensures told { OnOk result (into.new ≡ into.old ++ (spec.decorator names.now (source.tree_of tree.now)).faults) }
    ensures thing { IfOk result (λ t. t ≡ (spec.decorator names.now (source.tree_of tree.now)).thing) }
{
    match tree {
        Tree::Name(word) => module_name(into, names, word),
        Tree::Paren(_, items, comma) => {
            if *comma {
                return Ok(Thing::Variable);
            }
            match items.as_slice() {
                [] => Ok(Thing::Variable),
                [only] => decorator(into, names, only),
                [_, _, ..] => Ok(Thing::Variable),
            }
        }
        Tree::Member(_, of, word) => {
            let thing = decorator(into, names, of.get())?;
            plain_member(into, thing, word)
        }
        Tree::Index(_, of, _, _) => Ok(not_alone(decorator(into, names, of.get())?)),
        Tree::Slice(_, of, _, _) => Ok(not_alone(decorator(into, names, of.get())?)),
        Tree::Call(_, of, _, _) => Ok(not_alone(decorator(into, names, of.get())?)),
        _ => Ok(Thing::Variable),
    }
}

/// P22 on a decorator that is none, or stands where none may.
fn unwanted(into: &mut List<Refusal>, place: Place, thing: Thing) -> Result<(), Memory>
    ensures { OnOk result (into.new ≡ into.old ++ spec.unwanted place thing) }
{
    match thing {
        Thing::Unknown => Ok(()),
        _ => break_rule(into, Rule::P22, place),
    }
}

/// P08, P09 and P22 on a decorator where none may stand.
fn one_unwanted(into: &mut List<Refusal>, names: &ModuleNames, tree: &Tree) -> Result<(), Memory>
    ensures { OnOk result (into.new ≡ into.old ++ unwanted_told names.now tree.now) }
{
    let thing = decorator(into, names, tree)?;
    unwanted(into, place_of(tree), thing)
}

/// P22 on each of these decorators.
pub(crate) fn all_unwanted(
    into: &mut List<Refusal>,
    names: &ModuleNames,
    trees: &[Tree],
) -> Result<(), Memory>
    ensures { OnOk result (into.new ≡ into.old ++ spec.all_unwanted names.now trees.now) }
{
    let mut rest = trees;
    while let [tree, behind @ ..] = rest {
        one_unwanted(into, names, tree)?;
        rest = behind;
    }
    Ok(())
}

fn wanted_row(into: &mut List<Refusal>, place: Place, row: Row) -> Result<(), Memory>
    ensures { OnOk result (into.new ≡ into.old ++ spec.wanted_row place row) }
{
    match row {
        Row::Subroutine => Ok(()),
        _ => break_rule(into, Rule::P22, place),
    }
}

/// P22 on a decorator of a function that is not `subroutine`.
fn wanted(into: &mut List<Refusal>, place: Place, thing: Thing) -> Result<(), Memory>
    ensures { OnOk result (into.new ≡ into.old ++ spec.wanted place thing) }
{
    match thing {
        Thing::Library(row) => wanted_row(into, place, row),
        Thing::Unknown => Ok(()),
        _ => break_rule(into, Rule::P22, place),
    }
}

/// A function has one decorator, `subroutine`; P22 at `def` where it has none, and at each further one.
pub(crate) fn decorators(
    into: &mut List<Refusal>,
    names: &ModuleNames,
    def: Place,
    trees: &[Tree],
) -> Result<(), Memory>
    ensures { OnOk result (into.new ≡ into.old ++ spec.decorators names.now def trees.now) }
{
    match trees {
        [] => break_rule(into, Rule::P22, def),
        [first, behind @ ..] => {
            let thing = decorator(into, names, first)?;
            wanted(into, place_of(first), thing)?;
            all_unwanted(into, names, behind)
        }
    }
}

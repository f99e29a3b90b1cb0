//! What a small module defines, and the rules that a class breaks, asked once.

use puya_base::{Blob, List, Memory, Name, Place, Refusal, Rule};
use py_grammar::{
    Block, Class, ConstValue, Func, Import, Item, Literal, Member, Param, Tree, TypeTree, Word,
};
use source_headers::{Table, all_class_faults, methods_of, no_contract, table};
use source_names::Thing;
use std::alloc::Global;
use std::test::Fail;

const PLACE: Place = Place { line: 3, col: 7 };

fn word(alloc: Global, text: &str) -> Result<Word, Memory> {
    Ok(Word {
        name: Name::new(alloc, text)?,
        place: PLACE,
    })
}

fn words(alloc: Global, text: &str) -> Result<List<Word>, Memory> {
    let mut list = List::new(alloc);
    list.push(word(alloc, text)?)?;
    Ok(list)
}

fn named(alloc: Global, text: &str) -> Result<TypeTree, Memory> {
    Ok(TypeTree::Named(PLACE, words(alloc, text)?))
}

/// A function with one parameter, decorated as `subroutine`.
fn func(
    alloc: Global,
    name: &str,
    param: &str,
    annotation: Option<TypeTree>,
) -> Result<Func, Memory> {
    let mut decorators = List::new(alloc);
    decorators.push(Tree::Name(word(alloc, "subroutine")?))?;
    let mut params = List::new(alloc);
    params.push(Param {
        name: word(alloc, param)?,
        annotation,
    })?;
    Ok(Func {
        place: PLACE,
        decorators,
        def: PLACE,
        name: word(alloc, name)?,
        params,
        comma: false,
        result: Some(named(alloc, "UInt64")?),
        body: Block::Lines(List::new(alloc)),
    })
}

fn add_import(alloc: Global, imports: &mut List<Import>, text: &str) -> Result<(), Memory> {
    imports.push(Import {
        name: word(alloc, text)?,
        known_as: None,
    })?;
    Ok(())
}

/// A contract with one function, and neither of its programs.
fn class(alloc: Global) -> Result<Class, Memory> {
    let mut members = List::new(alloc);
    members.push(Member::Func(func(alloc, "helper", "self", None)?))?;
    Ok(Class {
        place: PLACE,
        name: word(alloc, "Small")?,
        base: words(alloc, "Contract")?,
        members,
    })
}

/// A module that imports from `algopy`, and then defines a constant, a function and a contract.
fn items(alloc: Global) -> Result<List<Item>, Memory> {
    let mut imports = List::new(alloc);
    add_import(alloc, &mut imports, "Contract")?;
    add_import(alloc, &mut imports, "UInt64")?;
    add_import(alloc, &mut imports, "subroutine")?;
    let mut list = List::new(alloc);
    list.push(Item::From(PLACE, words(alloc, "algopy")?, imports))?;
    let five = Literal {
        text: Blob::from_slice(alloc, b"5")?,
        place: PLACE,
    };
    list.push(Item::Const(word(alloc, "LIMIT")?, ConstValue::Number(five)))?;
    list.push(Item::Func(func(alloc, "twice", "x", Some(named(alloc, "UInt64")?))?))?;
    list.push(Item::Class(class(alloc)?))?;
    Ok(list)
}

fn thing_named(table: &Table, text: &str) -> Option<Thing> {
    table.entries.thing_of(text)
}

fn told_at(told: &[Refusal], number: usize) -> Option<Refusal> {
    told.get(number).copied()
}

#[test]
fn a_table_of_a_module(rt: HostRuntime) -> Result<(), Fail> {
    let alloc = rt.alloc();
    let mut told = List::new(alloc);
    let made = table(alloc, &mut told, items(alloc)?.as_slice())?;
    assert_eq!(rt; told.len(), 0);
    assert_eq!(rt; thing_named(&made, "LIMIT"), Some(Thing::Constant(0)));
    assert_eq!(rt; thing_named(&made, "twice"), Some(Thing::Function(0)));
    assert_eq!(rt; thing_named(&made, "Small"), Some(Thing::Class(0)));
    assert_eq!(rt; thing_named(&made, "helper"), None);
    assert_eq!(rt; made.constants.len(), 1);
    assert_eq!(rt; made.functions.len(), 1);
    Ok(())
}

#[test]
fn a_contract_without_programs(rt: HostRuntime) -> Result<(), Fail> {
    let alloc = rt.alloc();
    let lines = items(alloc)?;
    let mut told = List::new(alloc);
    let made = table(alloc, &mut told, lines.as_slice())?;
    all_class_faults(alloc, &mut told, &made.entries, lines.as_slice())?;
    no_contract(alloc, &mut told, &made.entries, lines.as_slice())?;
    assert_eq!(rt; told.len(), 2);
    let missing = Refusal {
        rule: Rule::P12,
        place: PLACE,
    };
    assert_eq!(rt; told_at(told.as_slice(), 0), Some(missing));
    assert_eq!(rt; told_at(told.as_slice(), 1), Some(missing));
    Ok(())
}

#[test]
fn functions_on_self(rt: HostRuntime) -> Result<(), Fail> {
    let alloc = rt.alloc();
    let made = methods_of(alloc, 4, class(alloc)?.members.as_slice())?;
    assert_eq!(rt; made.function_of("helper"), Some(4));
    assert_eq!(rt; made.function_of("approval_program"), None);
    Ok(())
}

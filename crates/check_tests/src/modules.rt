//! What is answered on small modules, asked once; the table of sources is tried with the parser above this crate.

use puya_base::{Blob, Boxed, List, Memory, Name, Place, Refusal, Rule, SourceFault};
use py_grammar::{
    Arg, Block, Class, Exprs, Func, Import, Item, Literal, Member, Module, Param, Simple, Tree,
    TypeTree, Word,
};
use std::alloc::Global;
use std::test::Fail;
use type_check::check;

fn at(line: u32) -> Place {
    Place { line, col: 1 }
}

fn word(alloc: Global, text: &str, line: u32) -> Result<Word, Memory> {
    Ok(Word {
        name: Name::new(alloc, text)?,
        place: at(line),
    })
}

fn words(alloc: Global, text: &str, line: u32) -> Result<List<Word>, Memory> {
    let mut all = List::new(alloc);
    all.push(word(alloc, text, line)?)?;
    Ok(all)
}

fn add_import(alloc: Global, into: &mut List<Import>, text: &str) -> Result<(), Memory> {
    into.push(Import {
        name: word(alloc, text, 1)?,
        known_as: None,
    })?;
    Ok(())
}

/// `from algopy import Contract, UInt64`
fn import(alloc: Global) -> Result<Item, Memory> {
    let mut names = List::new(alloc);
    add_import(alloc, &mut names, "Contract")?;
    add_import(alloc, &mut names, "UInt64")?;
    Ok(Item::From(at(1), words(alloc, "algopy", 1)?, names))
}

/// `UInt64(1)`
fn one(alloc: Global, line: u32) -> Result<Tree, Memory> {
    let called = Boxed::new(alloc, Tree::Name(word(alloc, "UInt64", line)?))?;
    let mut args = List::new(alloc);
    args.push(Arg::Plain(Tree::Number(Literal {
        text: Blob::from_slice(alloc, b"1")?,
        place: at(line),
    })))?;
    Ok(Tree::Call(at(line), called, args, false))
}

/// A program that returns this.
fn program(alloc: Global, name: &str, line: u32, value: Tree) -> Result<Member, Memory> {
    let mut params = List::new(alloc);
    params.push(Param {
        name: word(alloc, "self", line)?,
        annotation: None,
    })?;
    let mut items = List::new(alloc);
    items.push(value)?;
    let values = Exprs {
        items,
        comma: false,
    };
    Ok(Member::Func(Func {
        place: at(line),
        decorators: List::new(alloc),
        def: at(line),
        name: word(alloc, name, line)?,
        params,
        comma: false,
        result: Some(TypeTree::Named(at(line), words(alloc, "UInt64", line)?)),
        body: Block::Line(Simple::Return(at(line), Some(values))),
    }))
}

/// A contract whose clear state program is in line 4 and returns this.
fn contract(alloc: Global, value: Tree) -> Result<Module, Memory> {
    let mut members = List::new(alloc);
    members.push(program(alloc, "approval_program", 3, one(alloc, 3)?)?)?;
    members.push(program(alloc, "clear_state_program", 4, value)?)?;
    let mut items = List::new(alloc);
    items.push(import(alloc)?)?;
    items.push(Item::Class(Class {
        place: at(2),
        name: word(alloc, "C", 2)?,
        base: words(alloc, "Contract", 2)?,
        members,
    }))?;
    Ok(Module { items })
}

#[test]
fn a_contract_has_its_programs(rt: HostRuntime) -> Result<(), Fail> {
    let alloc = rt.alloc();
    let contracts = check(alloc, &contract(alloc, one(alloc, 4)?)?)?;
    match contracts.as_slice() {
        [only] => {
            assert_eq!(rt; only.name.as_str(), "C");
            assert_eq!(rt; only.funcs.len(), 2);
            assert_eq!(rt; only.approval, Some(0));
            assert_eq!(rt; only.clear, Some(1));
        }
        _ => assert!(rt; false),
    }
    Ok(())
}

/// Whether a module is refused by this rule in that line.
fn is_refused(alloc: Global, module: &Module, rule: Rule, line: u32) -> bool {
    let place = at(line);
    match check(alloc, module) {
        Err(SourceFault::Refused(refusal)) => refusal == Refusal { rule, place },
        _ => false,
    }
}

#[test]
fn the_first_rule_is_answered(rt: HostRuntime) -> Result<(), Fail> {
    let alloc = rt.alloc();
    let unknown = contract(alloc, Tree::Name(word(alloc, "y", 4)?))?;
    assert!(rt; is_refused(alloc, &unknown, Rule::P09, 4));
    let flag = contract(alloc, Tree::Flag(at(4), true))?;
    assert!(rt; is_refused(alloc, &flag, Rule::P14, 4));
    let empty = Module {
        items: List::new(alloc),
    };
    assert!(rt; is_refused(alloc, &empty, Rule::P12, 1));
    Ok(())
}

//! What names stand for, asked once.

use algopy_library::{Row, Scalar};
use puya_base::{Blob, List, Memory, Name, Place};
use py_grammar::{Literal, TypeArg, TypeTree, Word};
use source_names::{
    Entry, ModuleNames, NameSet, SourceType, Thing, dotted, fits_limits, is_short, joined,
    module_name, number_of, same_type, written_value,
};
use std::alloc::Global;
use std::test::Fail;

fn word(alloc: Global, text: &str) -> Result<Word, Memory> {
    Ok(Word {
        name: Name::new(alloc, text)?,
        place: Place { line: 3, col: 7 },
    })
}

fn add_entry(
    alloc: Global,
    entries: &mut List<Entry>,
    text: &str,
    thing: Thing,
) -> Result<(), Memory> {
    let Word { name, place } = word(alloc, text)?;
    entries.push(Entry { name, place, thing })?;
    Ok(())
}

/// A module that imports `op` and `Bytes`, and then defines a function `op`.
fn names(alloc: Global) -> Result<ModuleNames, Memory> {
    let mut entries = List::new(alloc);
    add_entry(alloc, &mut entries, "op", Thing::Library(Row::Op))?;
    add_entry(alloc, &mut entries, "Bytes", Thing::Library(Row::Bytes))?;
    add_entry(alloc, &mut entries, "op", Thing::Function(0))?;
    ModuleNames::new(alloc, entries)
}

/// What a name stands for, and how many rules it breaks.
fn thing_named(alloc: Global, text: &str) -> Result<(Thing, usize), Memory> {
    let mut told = List::new(alloc);
    let thing = module_name(&mut told, &names(alloc)?, &word(alloc, text)?)?;
    Ok((thing, told.len()))
}

/// What two names with a point between stand for, in a function with the variable `x`, and how many rules they break.
fn thing_behind(alloc: Global, first: &str, second: &str) -> Result<(Thing, usize), Memory> {
    let mut variables = NameSet::new(alloc);
    variables.note(alloc, "x")?;
    let mut words = List::new(alloc);
    words.push(word(alloc, first)?)?;
    words.push(word(alloc, second)?)?;
    let mut told = List::new(alloc);
    let thing = dotted(&mut told, &names(alloc)?, &variables, words.as_slice())?;
    Ok((thing, told.len()))
}

#[test]
fn a_name_stands_for_its_first_line(rt: HostRuntime) -> Result<(), Fail> {
    let alloc = rt.alloc();
    assert_eq!(rt; thing_named(alloc, "op"), Ok((Thing::Library(Row::Op), 0)));
    assert_eq!(rt;
        thing_named(alloc, "bool"),
        Ok((Thing::Library(Row::Bool), 0))
    );
    assert_eq!(rt; thing_named(alloc, "Op"), Ok((Thing::Unknown, 1)));
    Ok(())
}

#[test]
fn names_behind_points(rt: HostRuntime) -> Result<(), Fail> {
    let alloc = rt.alloc();
    assert_eq!(rt;
        thing_behind(alloc, "op", "keccak256"),
        Ok((Thing::Unknown, 1))
    );
    assert_eq!(rt; thing_behind(alloc, "x", "op"), Ok((Thing::Unknown, 1)));
    assert_eq!(rt; thing_behind(alloc, "y", "op"), Ok((Thing::Unknown, 1)));
    Ok(())
}

fn literal(alloc: Global, text: &str) -> Result<Literal, Memory> {
    Ok(Literal {
        text: Blob::from_slice(alloc, text.as_bytes())?,
        place: Place { line: 2, col: 5 },
    })
}

#[test]
fn literals_of_a_source(rt: HostRuntime) -> Result<(), Fail> {
    let alloc = rt.alloc();
    let mut parts = List::new(alloc);
    parts.push(literal(alloc, "'ab'")?)?;
    parts.push(literal(alloc, "'c'")?)?;
    assert_eq!(rt;
        joined(alloc, parts.as_slice())?.as_slice(),
        b"abc".as_slice()
    );
    assert_eq!(rt; number_of(&literal(alloc, "0x10")?), 16);
    assert!(rt; is_short(b"abc"));
    Ok(())
}

fn pair(alloc: Global, second: Scalar) -> Result<SourceType, Memory> {
    let mut parts = List::new(alloc);
    parts.push(SourceType::Scalar(Scalar::UInt64))?;
    parts.push(SourceType::Scalar(second))?;
    Ok(SourceType::Tuple(parts))
}

#[test]
fn tuple_types(rt: HostRuntime) -> Result<(), Fail> {
    let alloc = rt.alloc();
    let flagged = pair(alloc, Scalar::Bool)?;
    assert!(rt; same_type(&flagged, &pair(alloc, Scalar::Bool)?));
    assert!(rt; !same_type(&flagged, &pair(alloc, Scalar::Bytes)?));
    assert!(rt; fits_limits(&flagged));
    Ok(())
}

/// A name as a type.
fn named(alloc: Global, text: &str) -> Result<TypeTree, Memory> {
    let mut words = List::new(alloc);
    words.push(word(alloc, text)?)?;
    Ok(TypeTree::Named(Place { line: 1, col: 1 }, words))
}

/// Whether an annotation writes a type of a value, and how many rules it breaks.
fn value_written(alloc: Global, tree: &TypeTree) -> Result<(bool, usize), Memory> {
    let mut told = List::new(alloc);
    let annotation = written_value(alloc, &mut told, &names(alloc)?, &NameSet::new(alloc), tree)?;
    Ok((annotation.ty.is_some(), told.len()))
}

#[test]
fn annotations_of_values(rt: HostRuntime) -> Result<(), Fail> {
    let alloc = rt.alloc();
    let mut words = List::new(alloc);
    words.push(word(alloc, "tuple")?)?;
    let mut parts = List::new(alloc);
    parts.push(TypeArg::Type(named(alloc, "Bytes")?))?;
    parts.push(TypeArg::Type(named(alloc, "bool")?))?;
    let place = Place { line: 1, col: 1 };
    let pair = TypeTree::Of(place, words, parts, false);
    assert_eq!(rt; value_written(alloc, &pair), Ok((true, 0)));
    assert_eq!(rt;
        value_written(alloc, &TypeTree::None(place)),
        Ok((false, 1))
    );
    assert_eq!(rt;
        value_written(alloc, &named(alloc, "Nowhere")?),
        Ok((false, 1))
    );
    Ok(())
}

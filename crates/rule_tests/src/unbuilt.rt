//! Sources with forms that are not built yet, and without.

ghost use Rattle.std.specs.Prelude.{◌≤◌, length};

use puya_base::{List, Memory, Name, Place, SourceFault};
use py_grammar::{Import, Item, Module, Word};
use py_lexer::tokens;
use std::alloc::Global;
use std::test::Fail;
use unbuilt_names::is_unbuilt;

const HERE: Place = Place { line: 1, col: 1 };

/// Whether the tokens of a source have such a name outside of imports.
fn has_name(alloc: Global, source: &[u8]) -> Result<bool, SourceFault>
    requires { length source.now ≤ 1048576 }
{
    let items = List::new(alloc);
    let tokens = tokens(alloc, source)?;
    Ok(is_unbuilt(source, &tokens, &Module { items }))
}

fn word(alloc: Global, text: &str) -> Result<Word, Memory> {
    let name = Name::new(alloc, text)?;
    Ok(Word { name, place: HERE })
}

/// Whether this is such a line: `from algopy.MODULE import NAME as KNOWN`.
fn has_import(alloc: Global, module: &str, name: &str, known: &str) -> Result<bool, SourceFault> {
    let mut words = List::new(alloc);
    words.push(word(alloc, "algopy")?)?;
    words.push(word(alloc, module)?)?;
    let mut imports = List::new(alloc);
    imports.push(Import {
        name: word(alloc, name)?,
        known_as: Some(word(alloc, known)?),
    })?;
    let mut items = List::new(alloc);
    items.push(Item::From(HERE, words, imports))?;
    let tokens = tokens(alloc, b"")?;
    Ok(is_unbuilt(b"", &tokens, &Module { items }))
}

#[test]
fn names_outside_of_imports(rt: HostRuntime) -> Result<(), Fail> {
    let alloc = rt.alloc();
    assert!(rt; has_name(alloc, b"class A(ARC4Contract):\n    pass\n")?);
    assert!(rt; has_name(alloc, b"from algopy import op\nx = Box\n")?);
    assert!(rt; !has_name(alloc, b"from algopy import Box, BoxMap\nimport arc4\n")?);
    assert!(rt; !has_name(alloc, b"def f() -> Boxed:\n    return 'Box'\n")?);
    Ok(())
}

#[test]
fn imports(rt: HostRuntime) -> Result<(), Fail> {
    let alloc = rt.alloc();
    assert!(rt; has_import(alloc, "arc4", "Bool", "Bool")?);
    assert!(rt; has_import(alloc, "other", "Box", "Chest")?);
    assert!(rt; !has_import(alloc, "other", "Box", "Box")?);
    assert!(rt; !has_import(alloc, "other", "Bytes", "Box")?);
    Ok(())
}

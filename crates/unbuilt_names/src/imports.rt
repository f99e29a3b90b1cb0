//! Imports of forms that are not built yet (Python reference 7.11).

ghost use Rattle.std.specs.Prelude.{◌≡◌};
ghost use Rattle.unbuilt_names.specs.Unbuilt as spec;

use crate::names::is_unbuilt_name;
use py_grammar::{Import, Item, Word};

/// Whether the name is brought in under another one.
fn is_renamed(import: &Import) -> bool
    ensures { result ≡ spec.is_renamed import.now }
{
    match &import.known_as {
        Some(word) => word.name.as_str() != import.name.name.as_str(),
        None => false,
    }
}

/// Whether a name of a form that is not built yet is brought in under another one.
fn renames(imports: &[Import]) -> bool
    ensures { result ≡ spec.renames imports.now }
{
    let mut left = imports;
    while let [first, rest @ ..] = left {
        if is_renamed(first) && is_unbuilt_name(first.name.name.as_str().as_bytes()) {
            return true;
        }
        left = rest;
    }
    false
}

/// Whether the words are `algopy.arc4`.
fn is_arc4(words: &[Word]) -> bool
    ensures { result ≡ spec.is_arc4 words.now }
{
    match words {
        [package, module] => { package.name.as_str() == "algopy" && module.name.as_str() == "arc4" }
        _ => false,
    }
}

/// Whether the line brings in something of `algopy.arc4`, or a name of a form that is not built yet under another one.
fn is_unbuilt_import(item: &Item) -> bool
    ensures { result ≡ spec.is_unbuilt_import item.now }
{
    match item {
        Item::From(_, words, imports) => is_arc4(words.as_slice()) || renames(imports.as_slice()),
        Item::FromParen(_, words, imports, _) => {
            is_arc4(words.as_slice()) || renames(imports.as_slice())
        }
        _ => false,
    }
}

/// Whether a line of the module does.
pub(crate) fn has_unbuilt_import(items: &[Item]) -> bool
    ensures { result ≡ spec.has_unbuilt_import items.now }
{
    let mut left = items;
    while let [first, rest @ ..] = left {
        if is_unbuilt_import(first) {
            return true;
        }
        left = rest;
    }
    false
}

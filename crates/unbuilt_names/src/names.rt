//! The names of the forms that are not built yet.

ghost use Rattle.std.specs.Prelude.{◌≡◌};
ghost use Rattle.unbuilt_names.specs.Unbuilt as spec;

/// A contract with ARC-4 methods and what it needs, and the forms of storage.
const NAMES: [&[u8]; 8] = [
    b"ARC4Contract",
    b"arc4",
    b"GlobalState",
    b"LocalState",
    b"Box",
    b"BoxMap",
    b"BoxRef",
    b"__init__",
];

/// Whether it is one of these names.
fn is_one_of(mut names: &[&[u8]], name: &[u8]) -> bool
    ensures { result ≡ spec.is_one_of (spec.texts names.entry.now) name.now }
{
    while let [first, rest @ ..] = names {
        if *first == name {
            return true;
        }
        names = rest;
    }
    false
}

/// Whether it is the name of a form that is not built yet.
#[tactic(auto, unfolding(crate::specs::Unbuilt::names))]
pub(crate) fn is_unbuilt_name(name: &[u8]) -> bool
    ensures { result ≡ spec.is_one_of spec.names name.now }
{
    is_one_of(&NAMES, name)
}

/// Whether it is a word that begins an import (Python reference 7.11).
#[tactic(auto, unfolding(crate::specs::Unbuilt::import_words))]
pub(crate) fn begins_import(word: &[u8]) -> bool
    ensures { result ≡ spec.is_one_of spec.import_words word.now }
{
    is_one_of(&[b"import", b"from"], word)
}

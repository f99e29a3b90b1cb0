//! The names of the packages.

ghost use Rattle.std.specs.Prelude.{◌≡◌};
ghost use Rattle.algopy_library.specs.Packages as spec;

use crate::table::named_in;

/// What a name of the packages `algopy` and `typing`, or a built-in name, stands for.
#[derive(Clone, Copy, Debug, PartialEq, Eq)]
pub enum Row {
    /// The base of a contract whose programs are written out.
    Contract,
    /// The base of a contract whose methods are called by selectors.
    Arc4Contract,
    /// The decorator of a function.
    Subroutine,
    UInt64,
    Bool,
    Bytes,
    Text,
    Account,
    Tuple,
    GlobalState,
    LocalState,
    Box,
    BoxMap,
    BoxRef,
    Txn,
    Global,
    OnCompleteAction,
    Urange,
    Log,
    Op,
    Arc4,
    /// The module `typing`.
    Typing,
    /// `typing.Literal`.
    Literal,
    /// A name that is left out of the language.
    LeftOut,
}

/// The names of `algopy`.
static PACKAGE: [(&[u8], Row); 38] = [
    (b"Contract", Row::Contract),
    (b"ARC4Contract", Row::Arc4Contract),
    (b"subroutine", Row::Subroutine),
    (b"UInt64", Row::UInt64),
    (b"Bytes", Row::Bytes),
    (b"String", Row::Text),
    (b"Account", Row::Account),
    (b"GlobalState", Row::GlobalState),
    (b"LocalState", Row::LocalState),
    (b"Box", Row::Box),
    (b"BoxMap", Row::BoxMap),
    (b"BoxRef", Row::BoxRef),
    (b"Txn", Row::Txn),
    (b"Global", Row::Global),
    (b"OnCompleteAction", Row::OnCompleteAction),
    (b"urange", Row::Urange),
    (b"log", Row::Log),
    (b"op", Row::Op),
    (b"arc4", Row::Arc4),
    (b"Application", Row::LeftOut),
    (b"Array", Row::LeftOut),
    (b"Asset", Row::LeftOut),
    (b"BigUInt", Row::LeftOut),
    (b"ImmutableArray", Row::LeftOut),
    (b"LogicSig", Row::LeftOut),
    (b"OpUpFeeSource", Row::LeftOut),
    (b"ReferenceArray", Row::LeftOut),
    (b"StateTotals", Row::LeftOut),
    (b"Struct", Row::LeftOut),
    (b"TemplateVar", Row::LeftOut),
    (b"TransactionType", Row::LeftOut),
    (b"compile_contract", Row::LeftOut),
    (b"compile_logicsig", Row::LeftOut),
    (b"ensure_budget", Row::LeftOut),
    (b"gtxn", Row::LeftOut),
    (b"itxn", Row::LeftOut),
    (b"logicsig", Row::LeftOut),
    (b"uenumerate", Row::LeftOut),
];

/// The built-in names.
static BUILT_IN: [(&[u8], Row); 2] = [(b"bool", Row::Bool), (b"tuple", Row::Tuple)];

/// The names of `typing`.
static TYPING: [(&[u8], Row); 1] = [(b"Literal", Row::Literal)];

#[tactic(auto, unfolding(crate::specs::Packages::package_named))]
/// What `from algopy import` takes under a name.
pub fn package_named(name: &[u8]) -> Option<Row>
    ensures { result ≡ spec.package_named name.now }
{
    named_in(&PACKAGE, name)
}

#[tactic(auto, unfolding(crate::specs::Packages::built_in))]
/// What a name stands for that no line of the source defines.
pub fn built_in(name: &[u8]) -> Option<Row>
    ensures { result ≡ spec.built_in name.now }
{
    named_in(&BUILT_IN, name)
}

#[tactic(auto, unfolding(crate::specs::Packages::typing_named))]
/// What `from typing import` takes under a name.
pub fn typing_named(name: &[u8]) -> Option<Row>
    ensures { result ≡ spec.typing_named name.now }
{
    named_in(&TYPING, name)
}

ghost use Rattle.std.specs.Prelude.{◌≡◌, map};
ghost use Rattle.arc4_types.specs.Types.{type_of, types_of, is_byte};
ghost use Rattle.arc4_types.specs.Groups.{form_of, has_dynamic};

use crate::abi::Abi;

/// How a part stands in the head of a tuple.
#[derive(Clone, Copy, Debug, PartialEq, Eq)]
pub(crate) enum Form {
    /// A bool, which shares a byte with the bools beside it.
    Bool,
    /// By its own bytes.
    Static,
    /// By the offset of its tail.
    Dynamic,
}

/// Whether this is the type `byte`.
pub(crate) fn is_byte(ty: &Abi) -> bool
    ensures { result ≡ is_byte (type_of ty.now) }
{
    match ty {
        Abi::Byte => true,
        _ => false,
    }
}

/// How a part of the type stands in a head.
#[cycle(form)]
pub(crate) fn form_of(ty: &Abi) -> Form
    ensures { result ≡ form_of (type_of ty.now) }
{
    match ty {
        Abi::Bool => Form::Bool,
        Abi::Text => Form::Dynamic,
        Abi::Array(_) => Form::Dynamic,
        Abi::Fixed(item, _) => match form_of(item.get()) {
            Form::Dynamic => Form::Dynamic,
            _ => Form::Static,
        },
        Abi::Tuple(types) => tuple_form(types.as_slice()),
        _ => Form::Static,
    }
}

/// How a tuple of these types stands in a head.
#[cycle(form)]
fn tuple_form(types: &[Abi]) -> Form
    ensures { result ≡ has_dynamic (types_of types.now) }
{
    for ty in types {
        if form_of(ty) == Form::Dynamic {
            return Form::Dynamic;
        }
    }
    Form::Static
}

ghost use Rattle.std.specs.Prelude.{◌≡◌, ◌++◌, codes, map, take, IfOk, OnOk};
ghost use Rattle.std.specs.Fmt.{decimal};
ghost use Rattle.sha2.specs.Sha512.{sha512_256};
ghost use Rattle.arc4_types.specs.Names.{type_name, list_of_names, more_names, result_name, signature_of};

use crate::abi::{Abi, Abis};
use puya_base::{Blob, Memory};
use sha2::{Digest, Sha512_256};
use std::alloc::Global;

/// Appends a number in decimal.
fn push_decimal(alloc: Global, out: &mut Blob, n: u32) -> Result<(), Memory>
    ensures { OnOk result (out.new ≡ out.old ++ decimal n) }
{
    let text = n.to_string(alloc)?;
    out.extend(text.as_bytes())
}

/// Appends the name of a type.
#[cycle(names)]
fn push_type(alloc: Global, out: &mut Blob, ty: &Abi) -> Result<(), Memory>
    ensures { OnOk result (out.new ≡ out.old ++ type_name ty.now) }
{
    match ty {
        Abi::Uint(bits) => {
            out.extend(b"uint")?;
            push_decimal(alloc, out, u32::from(*bits))
        }
        Abi::Byte => out.extend(b"byte"),
        Abi::Bool => out.extend(b"bool"),
        Abi::Text => out.extend(b"string"),
        Abi::Address => out.extend(b"address"),
        Abi::Array(item) => {
            push_type(alloc, out, item.get())?;
            out.extend(b"[]")
        }
        Abi::Fixed(item, count) => {
            push_type(alloc, out, item.get())?;
            out.extend(b"[")?;
            push_decimal(alloc, out, *count)?;
            out.extend(b"]")
        }
        Abi::Tuple(types) => push_types(alloc, out, types.as_slice()),
    }
}

/// Appends the names of types, with commas between them, in brackets.
#[cycle(names)]
fn push_types(alloc: Global, out: &mut Blob, types: &[Abi]) -> Result<(), Memory>
    ensures { OnOk result (out.new ≡ out.old ++ list_of_names types.now) }
{
    let [first, more @ ..] = types else {
        return out.extend(b"()");
    };
    out.extend(b"(")?;
    push_type(alloc, out, first)?;
    for ty in more {
        out.extend(b",")?;
        push_type(alloc, out, ty)?;
    }
    out.extend(b")")
}

/// Appends the name of a result's type, `void` where there is none.
fn push_result(alloc: Global, out: &mut Blob, result_type: Option<&Abi>) -> Result<(), Memory>
    ensures { OnOk result (out.new ≡ out.old ++ result_name result_type.entry) }
{
    match result_type {
        Some(ty) => push_type(alloc, out, ty),
        None => out.extend(b"void"),
    }
}

/// The signature of a method: its name, the types of its arguments and of its result, as `add(uint64,uint64)uint64`; no result
/// is `void` (ARC-4, "Method Signature"). The error is want of memory.
pub fn signature(
    alloc: Global,
    name: &str,
    args: &Abis,
    result_type: Option<&Abi>,
) -> Result<Blob, Memory>
    ensures { IfOk result (λ text. text ≡ signature_of name.now args.now result_type.entry) }
{
    let mut text = Blob::new(alloc);
    text.extend(name.as_bytes())?;
    push_types(alloc, &mut text, args.as_slice())?;
    push_result(alloc, &mut text, result_type)?;
    Ok(text)
}

/// The first four bytes of SHA-512/256 of a signature, by which a method or an event is told (ARC-4, "Method Selector"). It takes no memory.
pub fn selector(signature: &[u8]) -> [u8; 4]
    ensures { result ≡ take 4 (sha512_256 signature.now) }
{
    let digest = Sha512_256::digest(signature);
    [digest[0], digest[1], digest[2], digest[3]]
}

use arc4_types::{Abi, AbiFault, AbiValue, AbiValues, Abis, decode, encode, selector, signature};
use puya_base::{At, Blob, Boxed, List, Memory};
use std::alloc::Global;
use std::test::Fail;

fn pair(alloc: Global, first: Abi, second: Abi) -> Result<Abi, Memory> {
    let mut types = List::new(alloc);
    types.push(first)?;
    types.push(second)?;
    Ok(Abi::Tuple(types))
}

fn both(alloc: Global, first: AbiValue, second: AbiValue) -> Result<AbiValue, Memory> {
    let mut parts = List::new(alloc);
    parts.push(first)?;
    parts.push(second)?;
    Ok(AbiValue::Parts(parts))
}

fn fault(answer: Result<AbiValue, AbiFault>) -> Option<AbiFault> {
    match answer {
        Ok(_) => None,
        Err(fault) => Some(fault),
    }
}

#[test]
fn bools_share_a_byte(rt: HostRuntime) -> Result<(), Fail> {
    let alloc = rt.alloc();
    let mut types = List::new(alloc);
    types.push(Abi::Bool)?;
    types.push(Abi::Bool)?;
    types.push(Abi::Uint(8))?;
    let value = decode(alloc, &Abi::Tuple(types), &[0xc0, 7])?;
    let AbiValue::Parts(parts) = value else {
        return Err("no parts")?;
    };
    assert_eq!(rt; parts.len(), 3);
    assert!(rt; matches!(parts.at(0), AbiValue::Flag(true)));
    assert!(rt; matches!(parts.at(1), AbiValue::Flag(true)));
    assert!(rt; matches!(parts.at(2), AbiValue::Number(7)));
    Ok(())
}

#[test]
fn the_first_fault_is_told(rt: HostRuntime) -> Result<(), Fail> {
    let alloc = rt.alloc();
    assert_eq!(rt; fault(decode(alloc, &Abi::Bool, &[1])), Some(AbiFault::Bit));
    assert_eq!(rt;
        fault(decode(alloc, &Abi::Text, &[0, 3, 0x61, 0x62])),
        Some(AbiFault::Length)
    );
    let texts = pair(alloc, Abi::Text, Abi::Uint(8))?;
    assert_eq!(rt;
        fault(decode(alloc, &texts, &[0, 4, 5, 0, 1, 0x61])),
        Some(AbiFault::Offset)
    );
    let numbers = Abi::Array(Boxed::new(alloc, Abi::Uint(16))?);
    assert_eq!(rt;
        fault(decode(alloc, &numbers, &[0, 2, 0, 1])),
        Some(AbiFault::Length)
    );
    let flags = pair(alloc, Abi::Bool, Abi::Uint(8))?;
    assert_eq!(rt;
        fault(decode(alloc, &flags, &[0xc0, 7])),
        Some(AbiFault::Bit)
    );
    assert_eq!(rt;
        fault(decode(alloc, &Abi::Byte, &[1, 2])),
        Some(AbiFault::Length)
    );
    Ok(())
}

#[test]
fn nine_bools_take_two_bytes(rt: HostRuntime) -> Result<(), Fail> {
    let alloc = rt.alloc();
    let mut types: Abis = List::new(alloc);
    let mut parts: AbiValues = List::new(alloc);
    for _ in 0..9 {
        types.push(Abi::Bool)?;
        parts.push(AbiValue::Flag(true))?;
    }
    let ty = Abi::Tuple(types);
    let bytes = encode(alloc, &ty, &AbiValue::Parts(parts))?.ok_or("no encoding")?;
    assert_eq!(rt; bytes.as_slice(), [0xff, 0x80].as_slice());
    Ok(())
}

#[test]
fn a_nested_tuple_is_read_again(rt: HostRuntime) -> Result<(), Fail> {
    let alloc = rt.alloc();
    let inner = pair(alloc, Abi::Text, Abi::Uint(16))?;
    let ty = pair(alloc, inner, Abi::Bool)?;
    let text = AbiValue::Data(Blob::from_slice(alloc, b"hi")?);
    let inner = both(alloc, text, AbiValue::Number(258))?;
    let value = both(alloc, inner, AbiValue::Flag(true))?;
    let bytes = encode(alloc, &ty, &value)?.ok_or("no encoding")?;
    let want = [0, 3, 0x80, 0, 4, 1, 2, 0, 2, 0x68, 0x69];
    assert_eq!(rt; bytes.as_slice(), want.as_slice());
    let again = decode(alloc, &ty, bytes.as_slice())?;
    let bytes = encode(alloc, &ty, &again)?.ok_or("no encoding")?;
    assert_eq!(rt; bytes.as_slice(), want.as_slice());
    Ok(())
}

#[test]
fn parts_of_no_bytes_are_read(rt: HostRuntime) -> Result<(), Fail> {
    let alloc = rt.alloc();
    let nothing = Abi::Fixed(Boxed::new(alloc, Abi::Uint(64))?, 0);
    let ty = Abi::Array(Boxed::new(alloc, nothing)?);
    let AbiValue::Parts(parts) = decode(alloc, &ty, &[0, 3])? else {
        return Err("no parts")?;
    };
    assert_eq!(rt; parts.len(), 3);
    Ok(())
}

#[test]
fn what_does_not_fit_has_no_encoding(rt: HostRuntime) -> Result<(), Fail> {
    let alloc = rt.alloc();
    assert!(rt; encode(alloc, &Abi::Uint(8), &AbiValue::Number(256))?.is_none());
    assert!(rt; encode(alloc, &Abi::Uint(8), &AbiValue::Number(255))?.is_some());
    let text = AbiValue::Data(Blob::from_vec(vec![in alloc; 0u8; 4095]?));
    assert!(rt; encode(alloc, &Abi::Text, &text)?.is_none());
    let text = AbiValue::Data(Blob::from_vec(vec![in alloc; 0u8; 4094]?));
    assert!(rt; encode(alloc, &Abi::Text, &text)?.is_some());
    Ok(())
}

#[test]
fn signatures_and_selectors(rt: HostRuntime) -> Result<(), Fail> {
    let alloc = rt.alloc();
    let mut args: Abis = List::new(alloc);
    args.push(Abi::Text)?;
    let hello = signature(alloc, "hello", &args, Some(&Abi::Text))?;
    assert_eq!(rt; hello.as_slice(), b"hello(string)string".as_slice());
    assert_eq!(rt; selector(hello.as_slice()), [0x02, 0xbe, 0xce, 0x11]);
    assert_eq!(rt; selector(b"return"), [0x15, 0x1f, 0x7c, 0x75]);
    assert_eq!(rt; selector(b"Moved(uint64)"), [0x8d, 0xc7, 0x08, 0x7b]);
    let pairs = Abi::Array(Boxed::new(alloc, pair(alloc, Abi::Byte, Abi::Bool)?)?);
    args.push(Abi::Fixed(Boxed::new(alloc, pairs)?, 12))?;
    args.push(Abi::Address)?;
    let long = signature(alloc, "f", &args, None)?;
    assert_eq!(rt;
        long.as_slice(),
        b"f(string,(byte,bool)[][12],address)void".as_slice()
    );
    Ok(())
}

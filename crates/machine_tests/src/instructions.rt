use avm_ops::{DecodeFault, Imm, Instr, Operands, apply, decode_at, encode, row, shape};
use puya_base::{Blob, List, Memory, StepFault, Value};
use std::alloc::{AllocError, Global};
use std::test::Fail;

fn fault_of(alloc: Global, code: &[u8]) -> Option<DecodeFault> {
    match decode_at(alloc, code, 0) {
        Ok(_) => None,
        Err(fault) => Some(fault),
    }
}

#[test]
fn faults_come_where_the_bytes_show_them(rt: HostRuntime) -> Result<(), Fail> {
    let alloc = rt.alloc();
    // nine bytes ff, then each of these ends
    let nine = [0x81, 255, 255, 255, 255, 255, 255, 255, 255, 255];
    let cases = [
        ([].as_slice(), DecodeFault::Cut(0)),
        ([0x02].as_slice(), DecodeFault::Outside(0, 0x02)),
        ([0x31, 2].as_slice(), DecodeFault::Outside(0, 2)),
        ([0x36, 25].as_slice(), DecodeFault::Outside(0, 25)),
        ([0x36, 26].as_slice(), DecodeFault::Cut(0)),
        ([0x81, 0x80, 0x00].as_slice(), DecodeFault::Overlong(0)),
        ([0x81, 0x80].as_slice(), DecodeFault::Cut(0)),
        ([0x80, 0x02, 0x41].as_slice(), DecodeFault::Cut(0)),
        ([0x40, 0xff].as_slice(), DecodeFault::Cut(0)),
        ([0x8d, 0x01, 0x00].as_slice(), DecodeFault::Cut(0)),
    ];
    for (code, fault) in cases.iter() {
        assert_eq!(rt; fault_of(alloc, code), Some(*fault));
    }
    let mut long = Blob::from_slice(alloc, nine.as_slice())?;
    long.push(0x81)?;
    assert_eq!(rt; fault_of(alloc, long.as_slice()), Some(DecodeFault::Cut(0)));
    let mut high = Blob::from_slice(alloc, nine.as_slice())?;
    high.push(0x82)?;
    assert_eq!(rt;
        fault_of(alloc, high.as_slice()),
        Some(DecodeFault::Overlong(0))
    );
    let mut eleven = Blob::from_slice(alloc, nine.as_slice())?;
    eleven.extend(&[255, 1])?;
    assert_eq!(rt;
        fault_of(alloc, eleven.as_slice()),
        Some(DecodeFault::Overlong(0))
    );
    Ok(())
}

#[test]
fn each_form_is_read_and_spelled(rt: HostRuntime) -> Result<(), Fail> {
    let alloc = rt.alloc();
    let codes = [
        [0x08].as_slice(),
        [0x21, 7].as_slice(),
        [0x51, 1, 3].as_slice(),
        [0x8b, 0xff].as_slice(),
        [0x81, 0xac, 0x02].as_slice(),
        [0x81, 255, 255, 255, 255, 255, 255, 255, 255, 255, 1].as_slice(),
        [0x20, 2, 1, 0x80, 0x01].as_slice(),
        [0x80, 2, 0x41, 0x42].as_slice(),
        [0x26, 2, 1, 0x41, 0].as_slice(),
        [0x42, 0xff, 0xfe].as_slice(),
        [0x8d, 2, 0, 1, 0xff, 0xff].as_slice(),
        [0x31, 25].as_slice(),
        [0x36, 26, 1].as_slice(),
        [0xc0, 26].as_slice(),
    ];
    for code in codes.iter() {
        match decode_at(alloc, code, 0) {
            Ok((instr, next)) => {
                assert_eq!(rt; next, code.len());
                let mut spelled = Blob::new(alloc);
                encode(alloc, &instr, &mut spelled)?;
                assert_eq!(rt; spelled.as_slice(), *code);
            }
            Err(_) => assert!(rt; false),
        }
    }
    Ok(())
}

#[test]
fn jumps_are_signed_and_big_endian(rt: HostRuntime) -> Result<(), Fail> {
    let alloc = rt.alloc();
    match decode_at(alloc, &[0x42, 0xff, 0xfe], 0) {
        Ok(
            (
                Instr {
                    imm: Imm::Jump(jump),
                    ..
                },
                next,
            ),
        ) => {
            assert_eq!(rt; jump, -2);
            assert_eq!(rt; next, 3);
        }
        _ => assert!(rt; false),
    }
    Ok(())
}

#[test]
fn shapes_count_by_the_immediate(rt: HostRuntime) -> Result<(), Fail> {
    let alloc = rt.alloc();
    let cases = [
        ([0x45, 3].as_slice(), 4, 3, 1),
        ([0x46, 3].as_slice(), 3, 0, 1),
        ([0x47, 3].as_slice(), 1, 4, 1),
        ([0x4b, 3].as_slice(), 4, 5, 1),
        ([0x4e, 3].as_slice(), 4, 4, 1),
        ([0x1f].as_slice(), 4, 4, 20),
        ([0x83, 2, 1, 1].as_slice(), 0, 2, 1),
        ([0x8e, 1, 0, 0].as_slice(), 2, 0, 1),
        ([0x8d, 1, 0, 0].as_slice(), 1, 0, 1),
    ];
    for (code, pops, pushes, cost) in cases.iter() {
        match decode_at(alloc, code, 0) {
            Ok((instr, _)) => {
                let shape = shape(&instr);
                assert_eq!(rt;
                    (shape.pops, shape.pushes, shape.cost),
                    (*pops, *pushes, *cost)
                );
            }
            Err(_) => assert!(rt; false),
        }
    }
    assert!(rt; row(0x02).is_none());
    Ok(())
}

/// The results of an opcode without immediates.
fn applied(alloc: Global, op: u8, operands: &[&Value]) -> Result<Option<Operands>, Fail> {
    let mut list = List::new(alloc);
    for value in operands {
        list.push(value.copy(alloc)?)?;
    }
    let instr = Instr {
        op,
        imm: Imm::Nothing,
    };
    match apply(alloc, &instr, &list) {
        Ok(results) => Ok(Some(results)),
        Err(StepFault::Fails) => Ok(None),
        Err(StepFault::Memory) => Err(Fail::from(AllocError)),
    }
}

fn bytes(alloc: Global, source: &[u8]) -> Result<Value, Memory> {
    Ok(Value::Bytes(Blob::from_slice(alloc, source)?))
}

#[test]
fn digests_are_those_of_the_standard(rt: HostRuntime) -> Result<(), Fail> {
    let alloc = rt.alloc();
    let abc = bytes(alloc, b"abc")?;
    // hashlib.sha256(b"abc"), hashlib.new("sha512_256", b"abc")
    let sha256 = [
        186, 120, 22, 191, 143, 1, 207, 234, 65, 65, 64, 222, 93, 174, 34, 35, 176, 3, 97, 163,
        150, 23, 122, 156, 180, 16, 255, 97, 242, 0, 21, 173,
    ];
    let sha512_256 = [
        83, 4, 142, 38, 129, 148, 30, 249, 155, 46, 41, 183, 107, 76, 125, 171, 228, 194, 208, 198,
        52, 252, 109, 70, 224, 226, 241, 49, 7, 231, 175, 35,
    ];
    for (op, digest) in [(0x01, sha256), (0x03, sha512_256)].iter() {
        let expected = bytes(alloc, digest.as_slice())?;
        match applied(alloc, *op, &[&abc])? {
            Some(results) => assert!(rt; results.as_slice() == [expected].as_slice()),
            None => assert!(rt; false),
        }
    }
    Ok(())
}

#[test]
fn numbers_are_computed(rt: HostRuntime) -> Result<(), Fail> {
    let alloc = rt.alloc();
    let top = u64::MAX;
    let cases = [
        (0x08, 2, 3, Some(5)),
        (0x08, top, 1, None),
        (0x09, 2, 3, None),
        (0x0a, 7, 2, Some(3)),
        (0x0a, 7, 0, None),
        (0x18, 7, 4, Some(3)),
        (0x0e, 3, 3, Some(1)),
        (0x90, top, 63, Some(1 << 63)),
        (0x90, 1, 64, None),
        (0x91, 256, 4, Some(16)),
        (0x94, 0, 0, None),
        (0x94, 2, 63, Some(1 << 63)),
        (0x94, 2, 64, None),
        (0x94, 1, top, Some(1)),
        (0x53, 4, 2, Some(1)),
        (0x53, 4, 64, None),
    ];
    for (op, a, b, expected) in cases.iter() {
        let found = applied(alloc, *op, &[&Value::Int(*a), &Value::Int(*b)])?;
        match (found, expected) {
            (Some(results), Some(n)) => assert!(rt;
                results.as_slice() == [Value::Int(*n)].as_slice()
            ),
            (None, None) => {}
            _ => assert!(rt; false),
        }
    }
    Ok(())
}

#[test]
fn bytes_are_taken_apart(rt: HostRuntime) -> Result<(), Fail> {
    let alloc = rt.alloc();
    let text = bytes(alloc, &[0x40, 0x02])?;
    let cases = [
        (0x53, 1, Some(1)),
        (0x53, 14, Some(1)),
        (0x53, 0, Some(0)),
        (0x53, 16, None),
        (0x55, 1, Some(2)),
        (0x55, 2, None),
        (0x59, 0, Some(0x4002)),
        (0x59, 1, None),
    ];
    for (op, i, expected) in cases.iter() {
        let found = applied(alloc, *op, &[&text, &Value::Int(*i)])?;
        match (found, expected) {
            (Some(results), Some(n)) => assert!(rt;
                results.as_slice() == [Value::Int(*n)].as_slice()
            ),
            (None, None) => {}
            _ => assert!(rt; false),
        }
    }
    match applied(alloc, 0x93, &[&text])? {
        Some(results) => assert!(rt; results.as_slice() == [Value::Int(15)].as_slice()),
        None => assert!(rt; false),
    }
    Ok(())
}

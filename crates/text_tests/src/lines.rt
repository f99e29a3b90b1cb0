use avm_ops::encode;
use puya_base::Blob;
use std::alloc::Global;
use std::test::Fail;
use teal_line::{Flaw, Statement, push_statement, said, words};

fn flaw_name(flaw: Flaw) -> &'static [u8] {
    match flaw {
        Flaw::Word => b"Word",
        Flaw::Count => b"Count",
        Flaw::Number => b"Number",
        Flaw::Bytes => b"Bytes",
        Flaw::Memory => b"Memory",
    }
}

/// The statement of a line as it is printed, or the name of the line's flaw; nothing for a line without words.
fn shown(alloc: Global, line: &[u8]) -> Result<Blob, Fail> {
    let mut text = Blob::new(alloc);
    let list = words(alloc, line)?;
    if let [first, rest @ ..] = list.as_slice() {
        match said(alloc, first, rest) {
            Ok(statement) => push_statement(alloc, &statement, &mut text)?,
            Err(flaw) => text.extend(flaw_name(flaw))?,
        }
    }
    Ok(text)
}

/// How many rows from the first on give what stands beside them.
fn agreeing(alloc: Global, rows: &[(&[u8], &[u8])]) -> Result<usize, Fail> {
    for (n, (line, wanted)) in rows.iter().enumerate() {
        if shown(alloc, line)?.as_slice() != *wanted {
            return Ok(n);
        }
    }
    Ok(rows.len())
}

/// Blanks, comments and the ends of words.
const WORDS: [(&[u8], &[u8]); 18] = [
    (b"", b""),
    (b" \t ", b""),
    (b"// err", b""),
    (b"\t//", b""),
    (b"///", b""),
    (b"err", b"err"),
    (b"  err\t", b"err"),
    (b"err//x", b"err"),
    (b"err // pop", b"err"),
    (b"/ // pop", b"/"),
    (b"b x//c", b"b x"),
    (b"load\t3", b"load 3"),
    (b"load / 3", b"Count"),
    (b"err\r", b"Word"),
    (b"e\x01rr", b"Word"),
    (b"err \r", b"Count"),
    (b"a\"b//c", b"Word"),
    (b"\"err\"", b"Word"),
];

/// Each form of immediates.
const FORMS: [(&[u8], &[u8]); 24] = [
    (b"+", b"+"),
    (b"||", b"||"),
    (b"retsub", b"retsub"),
    (b"load 255", b"load 255"),
    (b"proto 1 2", b"proto 1 2"),
    (b"frame_dig -1", b"frame_dig -1"),
    (b"frame_bury 127", b"frame_bury 127"),
    (b"frame_dig -128", b"frame_dig -128"),
    (b"frame_dig -0", b"frame_dig 0"),
    (b"frame_dig 0x7F", b"frame_dig 127"),
    (
        b"pushint 18446744073709551615",
        b"pushint 18446744073709551615",
    ),
    (b"pushints", b"pushints"),
    (b"intcblock 0 0x12c", b"intcblock 0 300"),
    (b"pushbytes 0x", b"pushbytes 0x"),
    (b"pushbytes 0xaBcD", b"pushbytes 0xabcd"),
    (b"pushbytess", b"pushbytess"),
    (b"bytecblock 0x01 \"A\"", b"bytecblock 0x01 0x41"),
    (b"bnz @a-b.c_9", b"bnz @a-b.c_9"),
    (b"callsub pushint", b"callsub pushint"),
    (b"switch", b"switch"),
    (b"match 5 x 5", b"match 5 x 5"),
    (b"txn ApplicationID", b"txn ApplicationID"),
    (b"global Round", b"global Round"),
    (b"txna ApplicationArgs 7", b"txna ApplicationArgs 7"),
];

/// Names of instructions and fields, and how many immediates they take.
const NAMES: [(&[u8], &[u8]); 20] = [
    (b"int 5", b"Word"),
    (b"Err", b"Word"),
    (b"#define x y", b"Word"),
    (b"err 1", b"Count"),
    (b"load", b"Count"),
    (b"load 1 2", b"Count"),
    (b"load 256 x", b"Count"),
    (b"proto 1", b"Count"),
    (b"proto 1 2 3", b"Count"),
    (b"txn", b"Count"),
    (b"txn Sender 1", b"Count"),
    (b"txn sender", b"Word"),
    (b"txn Foo 1", b"Word"),
    (b"txn Round", b"Word"),
    (b"txn ApplicationArgs", b"Word"),
    (b"txn 0", b"Word"),
    (b"txna ApplicationArgs", b"Count"),
    (b"txna ApplicationArgs 1 2", b"Count"),
    (b"txna Sender 1 2", b"Word"),
    (b"txnas ApplicationArgs", b"txnas ApplicationArgs"),
];

const LABELS: [(&[u8], &[u8]); 19] = [
    (b"a:", b"a:"),
    (b"pushint:", b"pushint:"),
    (b"5:", b"5:"),
    (b".-@_Z9:", b".-@_Z9:"),
    (b"a://c", b"a:"),
    (b":", b"Word"),
    (b"a::", b"Word"),
    (b"a+b:", b"Word"),
    (b"a+b: c", b"Word"),
    (b"a: b", b"Count"),
    (b"a:b", b"Word"),
    (b"#pragma:", b"Word"),
    (b"b", b"Count"),
    (b"b 5", b"b 5"),
    (b"b x y", b"Count"),
    (b"b x a+b", b"Count"),
    (b"b a+b c", b"Word"),
    (b"b x:", b"Word"),
    (b"match a a+b", b"Word"),
];

const NUMBERS: [(&[u8], &[u8]); 27] = [
    (b"pushint 0", b"pushint 0"),
    (b"pushint 00", b"Number"),
    (b"pushint 07", b"Number"),
    (b"pushint 0x007", b"pushint 7"),
    (b"pushint 0x", b"Number"),
    (b"pushint 0X7", b"Number"),
    (b"pushint 0xg", b"Number"),
    (
        b"pushint 0xFFFFFFFFFFFFFFFF",
        b"pushint 18446744073709551615",
    ),
    (b"pushint 0x10000000000000000", b"Number"),
    (b"pushint 0x00000000000000000001", b"pushint 1"),
    (b"pushint 18446744073709551616", b"Number"),
    (b"pushint 99999999999999999999x", b"Number"),
    (b"pushint -1", b"Number"),
    (b"pushint +1", b"Number"),
    (b"pushint 1_0", b"Number"),
    (b"pushint \"1\"", b"Number"),
    (b"pushints 1 x 2", b"Number"),
    (b"load 256", b"Number"),
    (b"load 0xff", b"load 255"),
    (b"proto 256 1", b"Number"),
    (b"txna ApplicationArgs 256", b"Number"),
    (b"frame_dig 128", b"Number"),
    (b"frame_dig 0x80", b"Number"),
    (b"frame_dig -129", b"Number"),
    (b"frame_dig -0x1", b"Number"),
    (b"frame_dig -01", b"Number"),
    (b"frame_dig -", b"Number"),
];

const BYTES: [(&[u8], &[u8]); 27] = [
    (b"pushbytes 0xa", b"Bytes"),
    (b"pushbytes 0xag", b"Bytes"),
    (b"pushbytes 0Xab", b"Bytes"),
    (b"pushbytes abc", b"Bytes"),
    (b"pushbytes", b"Count"),
    (b"pushbytes 0x 0x", b"Count"),
    (b"pushbytes \"\"", b"pushbytes 0x"),
    (b"pushbytes \"a b\"", b"pushbytes 0x612062"),
    (b"pushbytes \"//\" // c", b"pushbytes 0x2f2f"),
    (b"pushbytes \"a\"//c", b"pushbytes 0x61"),
    (b"pushbytes \"a\tb\"", b"pushbytes 0x610962"),
    (b"pushbytes \"\\\\\"", b"pushbytes 0x5c"),
    (b"pushbytes \"\\\"\"", b"pushbytes 0x22"),
    (b"pushbytes \"\\n\"", b"pushbytes 0x0a"),
    (b"pushbytes \"\\r\"", b"pushbytes 0x0d"),
    (b"pushbytes \"\\t\"", b"pushbytes 0x09"),
    (b"pushbytes \"\\xfF\\x00\"", b"pushbytes 0xff00"),
    (b"pushbytes \"\\x1\"", b"Bytes"),
    (b"pushbytes \"\\xg0\"", b"Bytes"),
    (b"pushbytes \"\\a\"", b"Bytes"),
    (b"pushbytes \"\\\"", b"Bytes"),
    (b"pushbytes \"a", b"Bytes"),
    (b"pushbytes \"a // c", b"Bytes"),
    (b"pushbytes \"a\"b", b"Bytes"),
    (b"pushbytes \"a\"\"b\"", b"Bytes"),
    (b"pushbytes \"a\" b", b"Count"),
    (b"pushbytess \"a b\" 0x00", b"pushbytess 0x612062 0x00"),
];

#[test]
fn corners_of_words_and_names(rt: HostRuntime) -> Result<(), Fail> {
    let alloc = rt.alloc();
    assert_eq!(rt; agreeing(alloc, &WORDS)?, WORDS.len());
    assert_eq!(rt; agreeing(alloc, &FORMS)?, FORMS.len());
    assert_eq!(rt; agreeing(alloc, &NAMES)?, NAMES.len());
    Ok(())
}

#[test]
fn corners_of_operands(rt: HostRuntime) -> Result<(), Fail> {
    let alloc = rt.alloc();
    assert_eq!(rt; agreeing(alloc, &LABELS)?, LABELS.len());
    assert_eq!(rt; agreeing(alloc, &NUMBERS)?, NUMBERS.len());
    assert_eq!(rt; agreeing(alloc, &BYTES)?, BYTES.len());
    Ok(())
}

/// The line of a table with so many labels.
fn table(alloc: Global, labels: usize) -> Result<Blob, Fail> {
    let mut line = Blob::from_slice(alloc, b"match")?;
    for _ in 0..labels {
        line.extend(b" a")?;
    }
    Ok(line)
}

#[test]
fn a_table_has_at_most_255_labels(rt: HostRuntime) -> Result<(), Fail> {
    let alloc = rt.alloc();
    let most = table(alloc, 255)?;
    assert_eq!(rt; shown(alloc, most.as_slice())?.as_slice(), most.as_slice());
    let mut more = table(alloc, 256)?;
    assert_eq!(rt;
        shown(alloc, more.as_slice())?.as_slice(),
        b"Count".as_slice()
    );
    more.extend(b" +")?;
    assert_eq!(rt;
        shown(alloc, more.as_slice())?.as_slice(),
        b"Word".as_slice()
    );
    Ok(())
}

/// The code of a line's instruction.
fn code(alloc: Global, line: &[u8]) -> Result<Blob, Fail> {
    let mut code = Blob::new(alloc);
    let list = words(alloc, line)?;
    if let [first, rest @ ..] = list.as_slice() {
        if let Ok(Statement::Op(instr)) = said(alloc, first, rest) {
            encode(alloc, &instr, &mut code)?;
        }
    }
    Ok(code)
}

/// Lines and their code (AVM specification, "Opcodes").
const CODE: [(&[u8], &[u8]); 12] = [
    (b"sha512_256", &[0x03]),
    (b"<=", &[0x0e]),
    (b"pushint 300", &[0x81, 0xac, 0x02]),
    (b"intcblock 1 128", &[0x20, 2, 1, 0x80, 1]),
    (b"pushbytes 0x4142", &[0x80, 2, 0x41, 0x42]),
    (b"bytecblock 0x41 0x", &[0x26, 2, 1, 0x41, 0]),
    (b"frame_dig -1", &[0x8b, 0xff]),
    (b"frame_bury 5", &[0x8c, 5]),
    (b"txn NumAppArgs", &[0x31, 27]),
    (b"global CreatorAddress", &[0x32, 9]),
    (b"txna ApplicationArgs 2", &[0x36, 26, 2]),
    (b"txnas ApplicationArgs", &[0xc0, 26]),
];

#[test]
fn lines_stand_for_their_code(rt: HostRuntime) -> Result<(), Fail> {
    let alloc = rt.alloc();
    for (line, wanted) in CODE.iter() {
        assert_eq!(rt; code(alloc, line)?.as_slice(), *wanted);
    }
    Ok(())
}

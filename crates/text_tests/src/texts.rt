use avm_asm::{Labels, Line, Lines};
use avm_run::check_program;
use puya_base::{Blob, Memory};
use std::alloc::{AllocError, Global};
use std::test::Fail;
use teal_text::{print, read};

fn add_labels(text: &mut String, labels: &Labels) -> Result<(), AllocError> {
    for label in labels.as_slice() {
        write!(text, " {label}")?;
    }
    Ok(())
}

/// A letter for the kind of each line, with the numbers of its labels.
fn add_line(text: &mut String, line: &Line) -> Result<(), AllocError> {
    match line {
        Line::Op(_) => text.push_str("o;"),
        Line::Label(label) => write!(text, "L {label};"),
        Line::Jump(_, label) => write!(text, "J {label};"),
        Line::Table(_, labels) => {
            text.push_str("T")?;
            add_labels(text, labels)?;
            text.push_str(";")
        }
    }
}

fn lines_shown(alloc: Global, lines: &Lines) -> Result<String, AllocError> {
    let mut text = String::new(alloc);
    for line in lines.as_slice() {
        add_line(&mut text, line)?;
    }
    Ok(text)
}

/// The lines that a text stands for, or its fault.
fn shown(alloc: Global, text: &[u8]) -> Result<String, AllocError> {
    if text.len() > 1048576 {
        return Ok(String::new(alloc));
    }
    match read(alloc, text) {
        Ok(lines) => lines_shown(alloc, &lines),
        Err(fault) => format!(in alloc; "{fault:?}"),
    }
}

/// Programs and their texts: the third has each form of immediates, the fourth branches back.
const PRINTED: [(&[u8], &[u8]); 5] = [
    (
        b"\x0a\x81\x01\x43",
        b"#pragma version 10\npushint 1\nreturn\n",
    ),
    (
        b"\x0a\x42\x00\x00\x81\x01",
        b"#pragma version 10\nb at4\nat4:\npushint 1\n",
    ),
    (
        b"\x0a\x22\x21\x02\x57\x01\x02\x8b\xff\x81\xac\x02\x83\x02\x01\x02\x80\x02\x00\xff\x82\x02\x01\x61\x00\x31\x00\x36\x1a\x03\x8d\x01\x00\x00",
        b"#pragma version 10\nintc_0\nintc 2\nextract 1 2\nframe_dig -1\npushint 300\npushints 1 2\npushbytes 0x00ff\npushbytess 0x61 0x\ntxn Sender\ntxna ApplicationArgs 3\nswitch at34\nat34:\n",
    ),
    (
        b"\x0a\x81\x01\x42\xff\xfb",
        b"#pragma version 10\nat1:\npushint 1\nb at1\n",
    ),
    (b"\x0a", b"#pragma version 10\n"),
];

#[test]
fn programs_are_printed(rt: HostRuntime) -> Result<(), Fail> {
    let alloc = rt.alloc();
    for (code, text) in PRINTED {
        let program = check_program(alloc, code)?;
        let printed = print(alloc, &program)?;
        assert_eq!(rt; printed.as_slice(), text);
    }
    Ok(())
}

/// Texts and what they stand for: line ends, comments, pragmas, strings, and labels by their first sight.
const READ: [(&[u8], &str); 5] = [
    (b"#pragma version 10\r\npushint 1\r\nreturn", "o;o;"),
    (
        b"// c\n\n \t// c\n#pragma\tversion 10// v\n#pragma typetrack false\n\tpushbytes \"a // b\"//c\npushbytes \"\\x41\\\"\"\n#pragma typetrack true",
        "o;o;",
    ),
    (
        b"#pragma version 10\nb x\ny:\nswitch z y x\nx:\nz:\n",
        "J 0;L 1;T 2 1 0;L 0;L 2;",
    ),
    (
        b"#pragma version 10\nb pushint\n5:\npushint:\nb 5",
        "J 0;L 1;L 0;J 1;",
    ),
    (b"#pragma version 10\nmatch\npushints", "T;o;"),
];

/// Texts with each fault, and which fault comes first.
const FAULTS: [(&[u8], &str); 28] = [
    (b"", "Pragma(1)"),
    (b"\n \t\n// c\n", "Pragma(1)"),
    (b"\npushint 1", "Pragma(2)"),
    (b"#pragma version 010", "Pragma(1)"),
    (b"#pragma version 10 x", "Pragma(1)"),
    (b"#pragma typetrack true\n#pragma version 10", "Pragma(1)"),
    (b"#pragma version 10\n#pragma version 10", "Pragma(2)"),
    (b"#pragma version 10\n#pragma typetrack", "Pragma(2)"),
    (b"#pragma version 11 \xff", "NotAscii(1)"),
    (b"#pragma version 10\n// \xff", "NotAscii(2)"),
    (b"#pragma version 10\n#define a b", "Word(2)"),
    (b"#pragma version 10\n:", "Word(2)"),
    (b"#pragma version 10\na+b:", "Word(2)"),
    (b"#pragma version 10\nreturn\r\r\n", "Word(2)"),
    (b"#pragma version 10\nb a+b c", "Word(2)"),
    (b"#pragma version 10\nb x a+b", "Count(2)"),
    (b"#pragma version 10\nx: y", "Count(2)"),
    (b"#pragma version 10\npushint 1 x", "Count(2)"),
    (b"#pragma version 10\npushbytes", "Count(2)"),
    (b"#pragma version 10\npushint 010", "Number(2)"),
    (b"#pragma version 10\npushint 0x", "Number(2)"),
    (b"#pragma version 10\npushint 0X1", "Number(2)"),
    (b"#pragma version 10\nframe_dig -129", "Number(2)"),
    (b"#pragma version 10\npushbytes 0x1", "Bytes(2)"),
    (b"#pragma version 10\npushbytes \"a", "Bytes(2)"),
    (b"#pragma version 10\npushbytes \"a\"b", "Bytes(2)"),
    (b"#pragma version 10\n\nint 1\n\xff", "Word(3)"),
    (b"#pragma version 10\npushint x\nint", "Number(2)"),
];

#[test]
fn texts_are_read(rt: HostRuntime) -> Result<(), Fail> {
    let alloc = rt.alloc();
    for (text, want) in READ {
        let seen = shown(alloc, text)?;
        assert_eq!(rt; seen.as_str(), want);
    }
    Ok(())
}

#[test]
fn faults_come_by_line_and_kind(rt: HostRuntime) -> Result<(), Fail> {
    let alloc = rt.alloc();
    for (text, want) in FAULTS {
        let seen = shown(alloc, text)?;
        assert_eq!(rt; seen.as_str(), want);
    }
    Ok(())
}

/// A `match` with so many labels on line 2.
fn many_labels(alloc: Global, count: u32) -> Result<Blob, Memory> {
    let mut text = Blob::from_slice(alloc, b"#pragma version 10\nmatch")?;
    for _label in 0..count {
        text.extend(b" x")?;
    }
    Ok(text)
}

#[test]
fn a_table_has_at_most_255_labels(rt: HostRuntime) -> Result<(), Fail> {
    let alloc = rt.alloc();
    let most = many_labels(alloc, 255)?;
    let more = many_labels(alloc, 256)?;
    let seen = shown(alloc, most.as_slice())?;
    assert!(rt; seen.as_str().starts_with("T 0 0 0"));
    let seen = shown(alloc, more.as_slice())?;
    assert_eq!(rt; seen.as_str(), "Count(2)");
    Ok(())
}

use call_file::{CallFault, Saved, read_call};
use puya_base::{At, Blob, Memory, Value};
use std::alloc::Global;
use std::test::Fail;

const SOME: &str = "\"1111111111111111111111111111111111111111111111111111111111111111\"";

const OTHER: &str = "\"2222222222222222222222222222222222222222222222222222222222222222\"";

/// The fields of a good file: a name and its value on each line.
const FIELDS: &str = "contract \"c.py\"\n\
    application 7\n\
    creating false\n\
    on_completion 5\n\
    args [\"00ff\", \"\", \"aBcD\"]\n\
    sender \"1111111111111111111111111111111111111111111111111111111111111111\"\n\
    fee 1000\n\
    note \"6869\"\n\
    accounts [\"1111111111111111111111111111111111111111111111111111111111111111\", \"2222222222222222222222222222222222222222222222222222222222222222\", \"1111111111111111111111111111111111111111111111111111111111111111\"]\n\
    boxes [\"62\", \"62\"]\n\
    round 18446744073709551615\n\
    timestamp 0\n\
    creator \"2222222222222222222222222222222222222222222222222222222222222222\"\n\
    budget 11200\n\
    global [[\"6b\", 7], [\"\", \"00ff\"], [\"6B6b\", \"\"]]\n\
    opted [\"1111111111111111111111111111111111111111111111111111111111111111\", \"2222222222222222222222222222222222222222222222222222222222222222\"]\n\
    local [[\"1111111111111111111111111111111111111111111111111111111111111111\", \"6b\", 7], [\"2222222222222222222222222222222222222222222222222222222222222222\", \"6b\", \"ff\"], [\"1111111111111111111111111111111111111111111111111111111111111111\", \"\", 0]]\n\
    box [[\"62\", \"\"], [\"ff\", \"0102\"]]";

/// Fields that are bad where the others are good.
const BAD: &str = "contract null\n\
    contract 7\n\
    contract [\"c.py\"]\n\
    application 0\n\
    application 1.0\n\
    application 1e3\n\
    application -0\n\
    application -1\n\
    application 18446744073709551616\n\
    application null\n\
    application \"1\"\n\
    application true\n\
    creating null\n\
    creating 0\n\
    creating \"true\"\n\
    on_completion 6\n\
    on_completion 256\n\
    on_completion 5.0\n\
    on_completion null\n\
    args null\n\
    args \"00\"\n\
    args [1]\n\
    args [\"0\"]\n\
    args [\"0x00\"]\n\
    args [\"gg\"]\n\
    args [\"00\", null]\n\
    args {}\n\
    args [\"\", \"\", \"\", \"\", \"\", \"\", \"\", \"\", \"\", \"\", \"\", \"\", \"\", \"\", \"\", \"\", \"\"]\n\
    sender null\n\
    sender \"\"\n\
    sender \"11111111111111111111111111111111111111111111111111111111111111\"\n\
    sender \"111111111111111111111111111111111111111111111111111111111111111111\"\n\
    sender \"11111111111111111111111111111111111111111111111111111111111111111\"\n\
    sender \"0x11111111111111111111111111111111111111111111111111111111111111\"\n\
    fee 1.0\n\
    fee -0\n\
    fee -1\n\
    fee 1e3\n\
    fee 18446744073709551616\n\
    fee null\n\
    note null\n\
    note []\n\
    note \"6\"\n\
    accounts null\n\
    accounts [\"1111111111111111111111111111111111111111111111111111111111111111\", \"1111111111111111111111111111111111111111111111111111111111111111\", \"1111111111111111111111111111111111111111111111111111111111111111\", \"1111111111111111111111111111111111111111111111111111111111111111\", \"1111111111111111111111111111111111111111111111111111111111111111\"]\n\
    accounts [\"11\"]\n\
    boxes null\n\
    boxes [\"\"]\n\
    boxes [\"62\", \"62\", \"62\", \"62\", \"62\", \"62\", \"62\", \"62\", \"62\"]\n\
    boxes [\"6262626262626262626262626262626262626262626262626262626262626262626262626262626262626262626262626262626262626262626262626262626262\"]\n\
    round -0\n\
    round null\n\
    timestamp 0.0\n\
    timestamp null\n\
    creator null\n\
    creator \"11111111111111111111111111111111111111111111111111111111111111\"\n\
    budget 0\n\
    budget 11201\n\
    budget 1.0\n\
    budget null\n\
    global null\n\
    global {}\n\
    global [[\"6b\"]]\n\
    global [[\"6b\", 1, 2]]\n\
    global [{\"6b\": 1}]\n\
    global [[\"6b\", null]]\n\
    global [[\"6b\", 1.0]]\n\
    global [[\"6b\", true]]\n\
    global [[\"6\", 1]]\n\
    global [[7, 1]]\n\
    global [[\"6b\", 1], [\"6B\", 1], [\"6b\", 2]]\n\
    global [[\"6b\", 1], [\"6B\", 1]]\n\
    global [[\"6262626262626262626262626262626262626262626262626262626262626262626262626262626262626262626262626262626262626262626262626262626262\", 1]]\n\
    global [[\"62626262626262626262626262626262626262626262626262626262626262626262626262626262626262626262626262626262626262626262626262626262\", \"0000000000000000000000000000000000000000000000000000000000000000000000000000000000000000000000000000000000000000000000000000000000\"]]\n\
    global [[\"\", \"000000000000000000000000000000000000000000000000000000000000000000000000000000000000000000000000000000000000000000000000000000000000000000000000000000000000000000000000000000000000000000000000000000000000000000000000000000000000000000000000000000000000000000\"]]\n\
    opted null\n\
    opted [\"11\"]\n\
    opted [\"abababababababababababababababababababababababababababababababab\", \"ABABABABABABABABABABABABABABABABABABABABABABABABABABABABABABABAB\"]\n\
    opted [\"1111111111111111111111111111111111111111111111111111111111111111\", \"2222222222222222222222222222222222222222222222222222222222222222\", \"1111111111111111111111111111111111111111111111111111111111111111\"]\n\
    local null\n\
    local [[\"1111111111111111111111111111111111111111111111111111111111111111\", \"6b\"]]\n\
    local [[\"1111111111111111111111111111111111111111111111111111111111111111\", \"6b\", 7, 8]]\n\
    local [[\"3333333333333333333333333333333333333333333333333333333333333333\", \"6b\", 7]]\n\
    local [[\"1111111111111111111111111111111111111111111111111111111111111111\", \"6b\", 7], [\"1111111111111111111111111111111111111111111111111111111111111111\", \"6B\", 8]]\n\
    local [[\"1111111111111111111111111111111111111111111111111111111111111111\", \"6262626262626262626262626262626262626262626262626262626262626262626262626262626262626262626262626262626262626262626262626262626262\", 7]]\n\
    local [[\"1111111111111111111111111111111111111111111111111111111111111111\", \"62626262626262626262626262626262626262626262626262626262626262626262626262626262626262626262626262626262626262626262626262626262\", \"0000000000000000000000000000000000000000000000000000000000000000000000000000000000000000000000000000000000000000000000000000000000\"]]\n\
    box null\n\
    box [[\"\", \"00\"]]\n\
    box [[\"6262626262626262626262626262626262626262626262626262626262626262626262626262626262626262626262626262626262626262626262626262626262\", \"00\"]]\n\
    box [[\"62\", 7]]\n\
    box [[\"62\"]]\n\
    box [[\"62\", \"\", \"\"]]\n\
    box [[\"62\", \"\"], [\"62\", \"00\"]]";

/// Fields that are good beside the others.
const GOOD: &str = "contract \"\"\n\
    application 18446744073709551615\n\
    creating true\n\
    on_completion 3\n\
    args []\n\
    args [\"00\", \"00\", \"00\", \"00\", \"00\", \"00\", \"00\", \"00\", \"00\", \"00\", \"00\", \"00\", \"00\", \"00\", \"00\", \"00\"]\n\
    sender \"aBaBaBaBaBaBaBaBaBaBaBaBaBaBaBaBaBaBaBaBaBaBaBaBaBaBaBaBaBaBaBaB\"\n\
    fee 18446744073709551615\n\
    note \"\"\n\
    accounts []\n\
    accounts [\"1111111111111111111111111111111111111111111111111111111111111111\", \"1111111111111111111111111111111111111111111111111111111111111111\", \"1111111111111111111111111111111111111111111111111111111111111111\", \"1111111111111111111111111111111111111111111111111111111111111111\"]\n\
    boxes []\n\
    boxes [\"62626262626262626262626262626262626262626262626262626262626262626262626262626262626262626262626262626262626262626262626262626262\"]\n\
    budget 1\n\
    global []\n\
    global [[\"62626262626262626262626262626262626262626262626262626262626262626262626262626262626262626262626262626262626262626262626262626262\", \"00000000000000000000000000000000000000000000000000000000000000000000000000000000000000000000000000000000000000000000000000000000\"]]\n\
    global [[\"\", \"0000000000000000000000000000000000000000000000000000000000000000000000000000000000000000000000000000000000000000000000000000000000000000000000000000000000000000000000000000000000000000000000000000000000000000000000000000000000000000000000000000000000000000\"]]\n\
    global [[\"62626262626262626262626262626262626262626262626262626262626262626262626262626262626262626262626262626262626262626262626262626262\", 18446744073709551615]]\n\
    local []\n\
    local [[\"1111111111111111111111111111111111111111111111111111111111111111\", \"62626262626262626262626262626262626262626262626262626262626262626262626262626262626262626262626262626262626262626262626262626262\", \"00000000000000000000000000000000000000000000000000000000000000000000000000000000000000000000000000000000000000000000000000000000\"]]\n\
    box []\n\
    box [[\"62626262626262626262626262626262626262626262626262626262626262626262626262626262626262626262626262626262626262626262626262626262\", \"00\"]]";

fn add_member(text: &mut Blob, name: &str, value: &str) -> Result<(), Memory> {
    text.push(b'"')?;
    text.extend(name.as_bytes())?;
    text.extend(b"\": ")?;
    text.extend(value.as_bytes())?;
    text.extend(b", ")?;
    Ok(())
}

/// Adds a field with its new value, where it is changed, or none where that is empty.
fn add_field(
    text: &mut Blob,
    changes: &[(&str, &str)],
    name: &str,
    value: &str,
) -> Result<(), Memory> {
    for (other, new) in changes {
        if *other == name {
            if *new != "" {
                add_member(text, name, new)?;
            }
            return Ok(());
        }
    }
    add_member(text, name, value)
}

/// A good file but for these fields, which are left out where they are empty.
fn file_of(alloc: Global, changes: &[(&str, &str)]) -> Result<Blob, Memory> {
    let mut text = Blob::new(alloc);
    text.push(b'{')?;
    for line in FIELDS.lines() {
        if let Some((name, value)) = line.split_once(' ') {
            add_field(&mut text, changes, name, value)?;
        }
    }
    text.extend(b"\"more\": [null]}")?;
    Ok(text)
}

fn fault_text(alloc: Global, fault: CallFault) -> Result<String, Fail> {
    match fault {
        CallFault::Json => Ok(format!(in alloc; "json")?),
        CallFault::Missing(name) => {
            let name = name.as_str();
            Ok(format!(in alloc; "missing {name}")?)
        }
        CallFault::Bad(name) => {
            let name = name.as_str();
            Ok(format!(in alloc; "bad {name}")?)
        }
        CallFault::Memory => Ok(format!(in alloc; "memory")?),
    }
}

/// What is said of a text.
fn said(alloc: Global, text: &[u8], named: bool) -> Result<String, Fail> {
    match read_call(alloc, text, named) {
        Ok(_) => Ok(format!(in alloc; "read")?),
        Err(fault) => fault_text(alloc, fault),
    }
}

/// What is said of a good file but for these fields.
fn said_with(alloc: Global, changes: &[(&str, &str)], named: bool) -> Result<String, Fail> {
    let text = file_of(alloc, changes)?;
    said(alloc, text.as_slice(), named)
}

/// The file that is good, read.
fn whole(alloc: Global, named: bool) -> Result<Saved, Memory> {
    let text = file_of(alloc, &[])?;
    match read_call(alloc, text.as_slice(), named) {
        Ok(saved) => Ok(saved),
        Err(_) => Err(Memory),
    }
}

#[test]
fn a_call_is_read_whole(rt: HostRuntime) -> Result<(), Fail> {
    let alloc = rt.alloc();
    let some = [0x11u8; 32];
    let other = [0x22u8; 32];
    let saved = whole(alloc, true)?;
    let call = &saved.call;
    assert_eq!(rt; call.application, 7);
    assert!(rt; !call.creating);
    assert_eq!(rt; call.on_completion, 5);
    assert_eq!(rt; call.args.len(), 3);
    assert_eq!(rt; call.sender.as_slice(), some.as_slice());
    assert_eq!(rt; call.fee, 1000);
    assert_eq!(rt; call.note.as_slice(), b"hi".as_slice());
    assert_eq!(rt; call.accounts.len(), 3);
    assert_eq!(rt; call.boxes.len(), 2);
    assert_eq!(rt; call.round, 18446744073709551615);
    assert_eq!(rt; call.timestamp, 0);
    assert_eq!(rt; call.creator.as_slice(), other.as_slice());
    assert_eq!(rt; call.budget, 11200);
    Ok(())
}

/// The bytes of a list, each item before a bar.
fn barred(alloc: Global, list: &[Blob]) -> Result<Blob, Memory> {
    let mut text = Blob::new(alloc);
    for bytes in list {
        text.extend(bytes.as_slice())?;
        text.push(b'|')?;
    }
    Ok(text)
}

#[test]
fn the_lists_of_a_call_are_read_whole(rt: HostRuntime) -> Result<(), Fail> {
    let alloc = rt.alloc();
    let saved = whole(alloc, true)?;
    let args = barred(alloc, saved.call.args.as_slice())?;
    assert_eq!(rt; args.as_slice(), b"\x00\xff||\xab\xcd|".as_slice());
    let boxes = barred(alloc, saved.call.boxes.as_slice())?;
    assert_eq!(rt; boxes.as_slice(), b"b|b|".as_slice());
    let accounts = barred(alloc, saved.call.accounts.as_slice())?;
    assert_eq!(rt; accounts.len(), 99);
    assert_eq!(rt;
        &accounts.as_slice()[31..35],
        [0x11, b'|', 0x22, 0x22].as_slice()
    );
    Ok(())
}

#[test]
fn the_contract_is_read_where_it_is_named(rt: HostRuntime) -> Result<(), Fail> {
    let alloc = rt.alloc();
    let saved = whole(alloc, true)?;
    assert!(rt; saved.contract.is_some());
    if let Some(name) = &saved.contract {
        assert_eq!(rt; name.as_str(), "c.py");
    }
    let saved = whole(alloc, false)?;
    assert!(rt; saved.contract.is_none());
    for value in ["", "null", "7"] {
        let text = said_with(alloc, &[("contract", value)], false)?;
        assert_eq!(rt; text.as_str(), "read", "{value}");
    }
    Ok(())
}

fn add_value(text: &mut Blob, value: &Value) -> Result<(), Memory> {
    match value {
        Value::Int(n) => text.push(b'0'.wrapping_add((*n % 10) as u8))?,
        Value::Bytes(bytes) => text.extend(bytes.as_slice())?,
    }
    text.push(b'|')?;
    Ok(())
}

fn global_text(alloc: Global, saved: &Saved) -> Result<Blob, Memory> {
    let mut text = Blob::new(alloc);
    for i in 0..saved.ledger.global_count() {
        text.extend(saved.ledger.global_key(i))?;
        text.push(b'=')?;
        add_value(&mut text, saved.ledger.global_value(i))?;
    }
    Ok(text)
}

fn local_text(alloc: Global, saved: &Saved) -> Result<Blob, Memory> {
    let mut text = Blob::new(alloc);
    for i in 0..saved.ledger.local_count() {
        if let [first, ..] = saved.ledger.local_account(i) {
            text.push(*first)?;
        }
        text.extend(saved.ledger.local_key(i))?;
        text.push(b'=')?;
        add_value(&mut text, saved.ledger.local_value(i))?;
    }
    Ok(text)
}

fn box_text(alloc: Global, saved: &Saved) -> Result<Blob, Memory> {
    let mut text = Blob::new(alloc);
    for i in 0..saved.ledger.box_count() {
        text.extend(saved.ledger.box_name(i))?;
        text.push(b'=')?;
        text.extend(saved.ledger.box_bytes(i))?;
        text.push(b'|')?;
    }
    Ok(text)
}

#[test]
fn the_ledger_is_read_whole(rt: HostRuntime) -> Result<(), Fail> {
    let alloc = rt.alloc();
    let saved = whole(alloc, true)?;
    let text = global_text(alloc, &saved)?;
    assert_eq!(rt; text.as_slice(), b"=\x00\xff|k=7|kk=|".as_slice());
    let text = local_text(alloc, &saved)?;
    assert_eq!(rt; text.as_slice(), b"\x11=0|\x11k=7|\x22k=\xff|".as_slice());
    let text = box_text(alloc, &saved)?;
    assert_eq!(rt; text.as_slice(), b"b=|\xff=\x01\x02|".as_slice());
    assert_eq!(rt; saved.ledger.log_count(), 0);
    Ok(())
}

#[test]
fn each_field_is_needed(rt: HostRuntime) -> Result<(), Fail> {
    let alloc = rt.alloc();
    let mut count = 0u64;
    for line in FIELDS.lines() {
        if let Some((name, _)) = line.split_once(' ') {
            let text = said_with(alloc, &[(name, "")], true)?;
            let want = format!(in alloc; "missing {name}")?;
            assert_eq!(rt; text.as_str(), want.as_str());
            count = count.saturating_add(1);
        }
    }
    assert_eq!(rt; count, 18);
    Ok(())
}

#[test]
fn bad_fields_are_named(rt: HostRuntime) -> Result<(), Fail> {
    let alloc = rt.alloc();
    let mut count = 0u64;
    for line in BAD.lines() {
        if let Some((name, value)) = line.split_once(' ') {
            let text = said_with(alloc, &[(name, value)], true)?;
            let want = format!(in alloc; "bad {name}")?;
            assert_eq!(rt; text.as_str(), want.as_str(), "{value}");
            count = count.saturating_add(1);
        }
    }
    assert_eq!(rt; count, 93);
    Ok(())
}

#[test]
fn corner_cases_are_read(rt: HostRuntime) -> Result<(), Fail> {
    let alloc = rt.alloc();
    let mut count = 0u64;
    for line in GOOD.lines() {
        if let Some((name, value)) = line.split_once(' ') {
            let text = said_with(alloc, &[(name, value)], true)?;
            assert_eq!(rt; text.as_str(), "read", "{line}");
            count = count.saturating_add(1);
        }
    }
    assert_eq!(rt; count, 22);
    Ok(())
}

/// A text of so many bytes in hexadecimal digits.
fn zeros(alloc: Global, count: usize) -> Result<String, Fail> {
    let mut text = Blob::new(alloc);
    text.push(b'"')?;
    for _ in 0..count {
        text.extend(b"00")?;
    }
    text.push(b'"')?;
    Ok(String::from_utf8(text.as_slice().to_vec(alloc)?)?)
}

#[test]
fn sizes_are_judged(rt: HostRuntime) -> Result<(), Fail> {
    let alloc = rt.alloc();
    let rows = [
        ("note", "", 1024, "", "read"),
        ("note", "", 1025, "", "bad note"),
        ("args", "[\"00\", ", 2047, "]", "read"),
        ("args", "[\"00\", ", 2048, "]", "bad args"),
        ("args", "[", 2048, "]", "read"),
        ("args", "[", 2049, "]", "bad args"),
        ("box", "[[\"62\", ", 32768, "]]", "read"),
        ("box", "[[\"62\", ", 32769, "]]", "bad box"),
    ];
    for (name, front, count, back, want) in rows {
        let bytes = zeros(alloc, count)?;
        let value = format!(in alloc; "{front}{bytes}{back}")?;
        let text = said_with(alloc, &[(name, value.as_str())], true)?;
        assert_eq!(rt; text.as_str(), want, "{name} {count}");
    }
    Ok(())
}

const HEX: [&str; 16] = [
    "0", "1", "2", "3", "4", "5", "6", "7", "8", "9", "a", "b", "c", "d", "e", "f",
];

/// So many items, each between these texts and with a byte of its own.
fn counted(alloc: Global, count: usize, front: &str, back: &str) -> Result<String, Fail> {
    let mut text = Blob::new(alloc);
    text.push(b'[')?;
    for i in 0..count {
        if i > 0 {
            text.push(b',')?;
        }
        text.extend(front.as_bytes())?;
        text.extend(HEX[i / 16 % 16].as_bytes())?;
        text.extend(HEX[i % 16].as_bytes())?;
        text.extend(back.as_bytes())?;
    }
    text.push(b']')?;
    Ok(String::from_utf8(text.as_slice().to_vec(alloc)?)?)
}

const FRONT: &str = "\"00000000000000000000000000000000000000000000000000000000000000";

#[test]
fn counts_are_judged(rt: HostRuntime) -> Result<(), Fail> {
    let alloc = rt.alloc();
    let local = format!(in alloc; "[{SOME},\"")?;
    let rows = [
        ("global", 64, "[\"", "\",1]", "read"),
        ("global", 65, "[\"", "\",1]", "bad global"),
        ("opted", 16, FRONT, "\"", "bad local"),
        ("opted", 17, FRONT, "\"", "bad opted"),
        ("local", 256, local.as_str(), "\",1]", "read"),
        ("local", 257, local.as_str(), "\",1]", "bad local"),
        ("box", 64, "[\"", "\",\"\"]", "read"),
        ("box", 65, "[\"", "\",\"\"]", "bad box"),
    ];
    for (name, count, front, back, want) in rows {
        let value = counted(alloc, count, front, back)?;
        let text = said_with(alloc, &[(name, value.as_str())], true)?;
        assert_eq!(rt; text.as_str(), want, "{name} {count}");
    }
    Ok(())
}

#[test]
fn the_first_fault_is_the_answer(rt: HostRuntime) -> Result<(), Fail> {
    let alloc = rt.alloc();
    let rows = [
        ("application", "", "fee", "null", "missing application"),
        ("application", "0", "fee", "", "bad application"),
        ("fee", "null", "creator", "", "bad fee"),
        ("fee", "", "creator", "null", "missing fee"),
        ("round", "null", "timestamp", "", "bad round"),
        ("opted", "[]", "box", "", "bad local"),
        (
            "creating",
            "true",
            "on_completion",
            "3",
            "bad on_completion",
        ),
        ("creating", "null", "on_completion", "3", "bad creating"),
        ("contract", "null", "application", "", "bad contract"),
        ("local", "", "opted", "[7]", "bad opted"),
        ("box", "7", "global", "", "missing global"),
    ];
    for (first, value, second, other, want) in rows {
        let text = said_with(alloc, &[(first, value), (second, other)], true)?;
        assert_eq!(rt; text.as_str(), want);
    }
    Ok(())
}

#[test]
fn what_is_no_object_is_no_call(rt: HostRuntime) -> Result<(), Fail> {
    let alloc = rt.alloc();
    let mut nested = Blob::new(alloc);
    for _ in 0..200 {
        nested.push(b'[')?;
    }
    let rows: [&[u8]; 12] = [
        b"",
        b"[",
        b"{",
        b"[]",
        b"null",
        b"7",
        b"\"{}\"",
        b"{}{}",
        b"{} 1",
        b"{\"fee\": }",
        b"{\"\xff\": 1}",
        nested.as_slice(),
    ];
    for text in rows {
        let answer = said(alloc, text, false)?;
        assert_eq!(rt; answer.as_str(), "json");
    }
    let empty = said(alloc, b" {} ", false)?;
    assert_eq!(rt; empty.as_str(), "missing application");
    Ok(())
}

#[test]
fn the_last_of_two_fields_of_one_name_stays(rt: HostRuntime) -> Result<(), Fail> {
    let alloc = rt.alloc();
    let bad = said_with(alloc, &[("fee", "1, \"fee\": null")], true)?;
    assert_eq!(rt; bad.as_str(), "bad fee");
    let good = said_with(alloc, &[("fee", "null, \"fee\": 1")], true)?;
    assert_eq!(rt; good.as_str(), "read");
    Ok(())
}

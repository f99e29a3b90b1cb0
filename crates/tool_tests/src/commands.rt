use puya_base::{MemoryFiles, MemorySink, Name, Sink, SinkFault};
use puya_tool::{Status, Words, run_words};
use std::alloc::Global;
use std::test::Fail;

const FRONT: &str =
    "from algopy import Contract, UInt64\nclass T(Contract):\n    def approval_program(self) -> UInt64:\n        return ";

const IMPORTS: &str =
    "from algopy import BoxRef, Bytes, Contract, GlobalState, Txn, UInt64, log, op, subroutine, urange
class T(Contract):
    def approval_program(self) -> UInt64:
        ";

const BACK: &str = "\n    def clear_state_program(self) -> UInt64:\n        return UInt64(1)\n";

const ADDRESS: &str = "0000000000000000000000000000000000000000000000000000000000000000";

fn words(alloc: Global, texts: &[&str]) -> Result<Words, Fail> {
    let mut words = Words::new(alloc);
    for text in texts {
        words.push(Name::new(alloc, text)?)?;
    }
    Ok(words)
}

/// A call file with nothing in it, but for the contract, the on-completion number and the budget.
fn call_file(
    alloc: Global,
    contract: &str,
    completion: &str,
    budget: &str,
) -> Result<String, Fail> {
    let act = format!(in alloc;
        "\"contract\":{contract},\"application\":1,\"creating\":false,\"on_completion\":{completion},\"args\":[]"
    )?;
    let origin = format!(in alloc;
        "\"sender\":\"{ADDRESS}\",\"fee\":0,\"note\":\"\",\"accounts\":[],\"boxes\":[]"
    )?;
    let setting = format!(in alloc;
        "\"round\":0,\"timestamp\":0,\"creator\":\"{ADDRESS}\",\"budget\":{budget}"
    )?;
    let ledger = "\"global\":[],\"opted\":[],\"local\":[],\"box\":[]";
    Ok(format!(in alloc; "{{{act},{origin},{setting},{ledger}}}")?)
}

/// The status and the text that the words end with.
fn outcome(
    alloc: Global,
    texts: &[&str],
    files: &mut MemoryFiles,
) -> Result<(Status, String), Fail> {
    let mut out = MemorySink::new(alloc);
    let status = run_words(alloc, &words(alloc, texts)?, files, &mut out);
    let text = String::from_utf8(out.bytes().to_vec(alloc)?)?;
    Ok((status, text))
}

/// A source with that body, and a call file.
fn files_of(alloc: Global, body: &str, call: &str) -> Result<MemoryFiles, Fail> {
    let mut files = MemoryFiles::new(alloc);
    let source = format!(in alloc; "{FRONT}{body}{BACK}")?;
    files.add("t.py", source.as_bytes())?;
    files.add("c.json", call.as_bytes())?;
    Ok(files)
}

const CALL: [&str; 3] = ["call", "t.py", "c.json"];

const BODIES: [(&str, Status, &str); 16] = [
    ("UInt64(6) * UInt64(7)", Status::Done, "approved\ncost 4\n"),
    (
        "UInt64(0) + UInt64(0)",
        Status::Rejected,
        "rejected at 6\ncost 4\n",
    ),
    (
        "UInt64(0) * UInt64(9)",
        Status::Rejected,
        "rejected at 6\ncost 4\n",
    ),
    ("UInt64(1) + UInt64(0)", Status::Done, "approved\ncost 4\n"),
    (
        "UInt64(18446744073709551615) + UInt64(1)",
        Status::Rejected,
        "rejected at 14\ncost 3\n",
    ),
    (
        "UInt64(18446744073709551615) * UInt64(2)",
        Status::Rejected,
        "rejected at 14\ncost 3\n",
    ),
    ("UInt64(6) - UInt64(7)", Status::Source, "t.py: not built\n"),
    (
        "UInt64(06) * UInt64(7)",
        Status::Source,
        "t.py:4:23: P05 number\n",
    ),
    (
        "UInt64(18446744073709551616) * UInt64(7)",
        Status::Source,
        "t.py:4:23: P05 number\n",
    ),
    (
        "UInt64(0x6)*UInt64( 0_7 ) # product",
        Status::Source,
        "t.py:4:36: P05 number\n",
    ),
    (
        "UInt64(0x6)*UInt64( 7 ) # product",
        Status::Done,
        "approved\ncost 4\n",
    ),
    ("UInt64() * UInt64(7)", Status::Source, "t.py: not built\n"),
    ("(1 +)", Status::Source, "t.py:4:20: P07 syntax\n"),
    ("1 < 2 < 3", Status::Source, "t.py:4:22: P07 syntax\n"),
    ("'a", Status::Source, "t.py:4:16: P04 token\n"),
    (
        "UInt64(6) * UInt64(7,)",
        Status::Source,
        "t.py: not built\n",
    ),
];

#[test]
fn one_operation_is_compiled_and_run(rt: HostRuntime) -> Result<(), Fail> {
    let alloc = rt.alloc();
    let call = call_file(alloc, "\"T\"", "0", "11200")?;
    for (body, status, text) in BODIES {
        let mut files = files_of(alloc, body, call.as_str())?;
        let (got_status, got_text) = outcome(alloc, &CALL, &mut files)?;
        assert_eq!(rt; got_status, status, "{body}");
        assert_eq!(rt; got_text.as_str(), text, "{body}");
    }
    Ok(())
}

/// Sources without a contract of the form.
const SOURCES: [(&str, &str); 7] = [
    ("x = y", "s.py:1:5: P07 syntax\n"),
    ("  x = 1", "s.py:1:3: P03 indentation\n"),
    ("\tx = 1", "s.py:1:1: P02 tab\n"),
    ("x = 1", "s.py:1:1: P12 contract\n"),
    ("", "s.py:1:1: P12 contract\n"),
    (
        "from algopy import Contract as C\nx = arc4",
        "s.py:2:5: P07 syntax\n",
    ),
    ("from algopy.arc4 import String", "s.py: not built\n"),
];

#[test]
fn a_source_is_refused_before_its_call_file_is_read(rt: HostRuntime) -> Result<(), Fail> {
    let alloc = rt.alloc();
    for (source, text) in SOURCES {
        let mut files = MemoryFiles::new(alloc);
        files.add("s.py", source.as_bytes())?;
        let (got_status, got_text) = outcome(alloc, &["call", "s.py", "absent"], &mut files)?;
        assert_eq!(rt; got_status, Status::Source, "{source}");
        assert_eq!(rt; got_text.as_str(), text, "{source}");
    }
    Ok(())
}

/// Bodies of `approval_program`, and what is answered.
const RULES: [(&str, &str); 8] = [
    ("return y", "t.py:4:16: P09 unknown name\n"),
    ("x = 5\n        return UInt64(1)", "t.py:4:13: P14 type\n"),
    (
        "if Txn.fee > 0: x = UInt64(1)\n        return x",
        "t.py:5:16: P17 unassigned\n",
    ),
    (
        "break\n        return UInt64(1)",
        "t.py:4:9: P19 loop word\n",
    ),
    ("return BoxRef()", "t.py: not built\n"),
    ("return UInt64(1)", "t.py: not built\n"),
    (
        "return op.keccak256(Bytes(b\"\"))",
        "t.py:4:19: P08 left out\n",
    ),
    ("5 = y\n        return UInt64(1)", "t.py:4:9: P16 target\n"),
];

#[test]
fn the_first_rule_is_named(rt: HostRuntime) -> Result<(), Fail> {
    let alloc = rt.alloc();
    for (body, text) in RULES {
        let mut files = MemoryFiles::new(alloc);
        let source = format!(in alloc; "{IMPORTS}{body}{BACK}")?;
        files.add("t.py", source.as_bytes())?;
        let (got_status, got_text) = outcome(alloc, &CALL, &mut files)?;
        assert_eq!(rt; got_status, Status::Source, "{body}");
        assert_eq!(rt; got_text.as_str(), text, "{body}");
    }
    Ok(())
}

/// Contract, on-completion number and budget.
const CALLS: [(&str, &str, &str, Status, &str); 10] = [
    ("\"T\"", "0", "0", Status::CallFile, "c.json: bad budget\n"),
    (
        "\"T\"",
        "0",
        "11201",
        Status::CallFile,
        "c.json: bad budget\n",
    ),
    (
        "\"T\"",
        "0",
        "4.0",
        Status::CallFile,
        "c.json: bad budget\n",
    ),
    (
        "\"T\"",
        "6",
        "4",
        Status::CallFile,
        "c.json: bad on_completion\n",
    ),
    (
        "\"U\"",
        "0",
        "4",
        Status::CallFile,
        "c.json: bad contract\n",
    ),
    ("7", "0", "4", Status::CallFile, "c.json: bad contract\n"),
    (
        "\"T\"",
        "0",
        "1",
        Status::Stopped,
        "over budget at 3\ncost 1\n",
    ),
    (
        "\"T\"",
        "0",
        "3",
        Status::Stopped,
        "over budget at 6\ncost 3\n",
    ),
    ("\"T\"", "0", "4", Status::Done, "approved\ncost 4\n"),
    ("\"T\"", "3", "4", Status::Done, "approved\ncost 2\n"),
];

#[test]
fn the_call_file_is_judged_and_kept_to(rt: HostRuntime) -> Result<(), Fail> {
    let alloc = rt.alloc();
    for (contract, completion, budget, status, text) in CALLS {
        let call = call_file(alloc, contract, completion, budget)?;
        let mut files = files_of(alloc, "UInt64(6) * UInt64(7)", call.as_str())?;
        let (got_status, got_text) = outcome(alloc, &CALL, &mut files)?;
        assert_eq!(rt; got_status, status, "{call}");
        assert_eq!(rt; got_text.as_str(), text, "{call}");
    }
    Ok(())
}

const CALL_TEXTS: [(&str, &str); 3] = [
    ("[", "c.json: json\n"),
    ("[4]", "c.json: json\n"),
    ("{\"contract\":\"T\"}", "c.json: missing application\n"),
];

#[test]
fn a_call_file_of_another_form_is_refused(rt: HostRuntime) -> Result<(), Fail> {
    let alloc = rt.alloc();
    for (call, text) in CALL_TEXTS {
        let mut files = files_of(alloc, "UInt64(6) * UInt64(7)", call)?;
        let (got_status, got_text) = outcome(alloc, &CALL, &mut files)?;
        assert_eq!(rt; got_status, Status::CallFile, "{call}");
        assert_eq!(rt; got_text.as_str(), text, "{call}");
    }
    Ok(())
}

/// A call file without a budget, and one without a contract, of which `run` takes no notice.
#[test]
fn a_field_that_is_not_there_is_named(rt: HostRuntime) -> Result<(), Fail> {
    let alloc = rt.alloc();
    let whole = call_file(alloc, "\"T\"", "0", "4")?;
    let no_budget = whole.as_str().replace(alloc, ",\"budget\":4", "")?;
    let mut files = files_of(alloc, "UInt64(6) * UInt64(7)", no_budget.as_str())?;
    let (status, text) = outcome(alloc, &CALL, &mut files)?;
    assert_eq!(rt; status, Status::CallFile);
    assert_eq!(rt; text.as_str(), "c.json: missing budget\n");

    let no_contract = whole.as_str().replace(alloc, "\"contract\":\"T\",", "")?;
    let mut files = files_of(alloc, "UInt64(6) * UInt64(7)", no_contract.as_str())?;
    files.add("p.bin", &[0x0a, 0x81, 0x01, 0x43])?;
    let (status, text) = outcome(alloc, &CALL, &mut files)?;
    assert_eq!(rt; status, Status::CallFile);
    assert_eq!(rt; text.as_str(), "c.json: missing contract\n");
    let (status, text) = outcome(alloc, &["run", "p.bin", "c.json"], &mut files)?;
    assert_eq!(rt; status, Status::Done);
    assert_eq!(rt; text.as_str(), "approved\ncost 2\n");
    Ok(())
}

/// A program, a budget, and how its run ends.
const RUNS: [(&[u8], &str, Status, &str); 8] = [
    (
        &[0x0a, 0x81, 0x01, 0x43],
        "11200",
        Status::Done,
        "approved\ncost 2\n",
    ),
    (
        &[0x0a, 0x42, 0x00, 0x00, 0x81, 0x01],
        "11200",
        Status::Done,
        "approved\ncost 2\n",
    ),
    (
        &[0x0a, 0x81, 0x02, 0x81, 0x03, 0x0b, 0x43],
        "11200",
        Status::Done,
        "approved\ncost 4\n",
    ),
    (
        &[0x0a, 0x81, 0x02, 0x81, 0x03, 0x0b, 0x43],
        "3",
        Status::Stopped,
        "over budget at 6\ncost 3\n",
    ),
    (
        &[0x0a, 0x08, 0x43],
        "11200",
        Status::Rejected,
        "rejected at 1\ncost 1\n",
    ),
    (
        &[0x0a],
        "11200",
        Status::Rejected,
        "rejected at 1\ncost 0\n",
    ),
    (
        &[
            0x0a, 0x81, 0x01, 0x47, 0xff, 0x47, 0xff, 0x47, 0xff, 0x47, 0xff,
        ],
        "11200",
        Status::Stopped,
        "over depth at 9\ncost 5\n",
    ),
    (
        &[
            0x0a, 0x81, 0x07, 0x81, 0x07, 0x8e, 0x01, 0x00, 0x01, 0x00, 0x81, 0x01,
        ],
        "11200",
        Status::Done,
        "approved\ncost 4\n",
    ),
];

#[test]
fn a_program_is_run_on_a_saved_call(rt: HostRuntime) -> Result<(), Fail> {
    let alloc = rt.alloc();
    for (code, budget, status, text) in RUNS {
        let mut files = MemoryFiles::new(alloc);
        files.add("p.bin", code)?;
        files.add("c.json", call_file(alloc, "7", "0", budget)?.as_bytes())?;
        let (got_status, got_text) = outcome(alloc, &["run", "p.bin", "c.json"], &mut files)?;
        assert_eq!(rt; got_status, status);
        assert_eq!(rt; got_text.as_str(), text);
    }
    Ok(())
}

/// Bytes that are no program.
const NO_PROGRAMS: [(&[u8], &str); 7] = [
    (&[], "p.bin: cut at 0\n"),
    (&[0x0a, 0x81], "p.bin: cut at 1\n"),
    (&[0x0a, 0x81, 0x81, 0x00, 0x43], "p.bin: overlong at 1\n"),
    (&[0x0b, 0x81, 0x01], "p.bin: version 11\n"),
    (&[0x0a, 0x02], "p.bin: outside at 1: 2\n"),
    (&[0x0a, 0x42, 0x00, 0x05], "p.bin: target at 1: 9\n"),
    (&[0x0a, 0x42, 0xff, 0x00], "p.bin: target at 1: -252\n"),
];

#[test]
fn bytes_that_are_no_program_are_refused(rt: HostRuntime) -> Result<(), Fail> {
    let alloc = rt.alloc();
    let commands: [&[&str]; 2] = [&["run", "p.bin", "absent"], &["dis", "p.bin"]];
    for (code, text) in NO_PROGRAMS {
        let mut files = MemoryFiles::new(alloc);
        files.add("p.bin", code)?;
        for texts in commands {
            let (got_status, got_text) = outcome(alloc, texts, &mut files)?;
            assert_eq!(rt; got_status, Status::Program);
            assert_eq!(rt; got_text.as_str(), text);
        }
    }
    Ok(())
}

/// Programs and their texts.
const LISTINGS: [(&[u8], &str); 3] = [
    (
        &[0x0a, 0x81, 0x01, 0x43],
        "#pragma version 10\npushint 1\nreturn\n",
    ),
    (
        &[0x0a, 0x42, 0x00, 0x00, 0x81, 0x01],
        "#pragma version 10\nb at4\nat4:\npushint 1\n",
    ),
    (
        &[0x0a, 0x41, 0x00, 0x00],
        "#pragma version 10\nbz at4\nat4:\n",
    ),
];

#[test]
fn a_program_is_listed_and_assembled_again(rt: HostRuntime) -> Result<(), Fail> {
    let alloc = rt.alloc();
    for (code, text) in LISTINGS {
        let mut files = MemoryFiles::new(alloc);
        files.add("p.bin", code)?;
        files.add("q", text.as_bytes())?;
        let (status, listed) = outcome(alloc, &["dis", "p.bin"], &mut files)?;
        assert_eq!(rt; status, Status::Done);
        assert_eq!(rt; listed.as_str(), text);
        let (status, line) = outcome(alloc, &["asm", "q"], &mut files)?;
        assert_eq!(rt; status, Status::Done);
        let size = code.len();
        assert_eq!(rt; line, format!(in alloc; "q.bin {size} bytes\n")?);
        assert_eq!(rt; files.get("q.bin"), Some(code));
    }
    Ok(())
}

/// Texts that have no code.
const NO_TEXTS: [(&str, &str); 9] = [
    ("", "q:1: pragma\n"),
    ("pushint 1\n", "q:1: pragma\n"),
    ("#pragma version 10\nb x\n", "q: label 0 missing\n"),
    ("#pragma version 10\nx:\nb x\nx:\n", "q: label 0 twice\n"),
    ("#pragma version 10\npushint\n", "q:2: count\n"),
    ("#pragma version 10\n\npushint x\n", "q:3: number\n"),
    ("#pragma version 10\npushbytes 0x0\n", "q:2: bytes\n"),
    ("#pragma version 10\npushword 1\n", "q:2: word\n"),
    ("#pragma version 10\nreturn // \u{e9}\n", "q:2: not ascii\n"),
];

#[test]
fn a_text_without_code_is_refused_and_nothing_written(rt: HostRuntime) -> Result<(), Fail> {
    let alloc = rt.alloc();
    for (source, text) in NO_TEXTS {
        let mut files = MemoryFiles::new(alloc);
        files.add("q", source.as_bytes())?;
        let (got_status, got_text) = outcome(alloc, &["asm", "q"], &mut files)?;
        assert_eq!(rt; got_status, Status::Program, "{source}");
        assert_eq!(rt; got_text.as_str(), text, "{source}");
        assert!(rt; files.get("q.bin").is_none(), "{source}");
    }
    Ok(())
}

/// A branch over so many pushes of two bytes.
fn branch_over(alloc: Global, pushes: u32) -> Result<String, Fail> {
    let mut text = String::from_str(alloc, "#pragma version 10\nb x\n")?;
    for _ in 0..pushes {
        text.push_str("pushint 1\n")?;
    }
    text.push_str("x:\n")?;
    Ok(text)
}

#[test]
fn a_branch_reaches_16_signed_bits(rt: HostRuntime) -> Result<(), Fail> {
    let alloc = rt.alloc();
    let mut files = MemoryFiles::new(alloc);
    files.add("far", branch_over(alloc, 16384)?.as_bytes())?;
    files.add("near", branch_over(alloc, 16383)?.as_bytes())?;
    let (status, text) = outcome(alloc, &["asm", "far"], &mut files)?;
    assert_eq!(rt; status, Status::Program);
    assert_eq!(rt; text.as_str(), "far: label 0 far\n");
    let (status, text) = outcome(alloc, &["asm", "near"], &mut files)?;
    assert_eq!(rt; status, Status::Done);
    assert_eq!(rt; text.as_str(), "near.bin 32770 bytes\n");
    Ok(())
}

/// A program that changes global, local and box state, and logs.
const STORES: &str = "#pragma version 10
pushbytes \"count\"
pushint 7
app_global_put
pushint 0
pushbytes \"seen\"
pushbytes 0x01ff
app_local_put
pushbytes \"b\"
pushbytes \"1234\"
box_put
pushbytes \"\"
log
pushint 1
return
";

#[test]
fn the_state_of_an_approved_run_is_printed(rt: HostRuntime) -> Result<(), Fail> {
    let alloc = rt.alloc();
    let call = call_file(alloc, "null", "0", "700")?;
    let call = call
        .as_str()
        .replace(alloc, "\"boxes\":[]", "\"boxes\":[\"62\"]")?;
    let opted = format!(in alloc; "\"opted\":[\"{ADDRESS}\"]")?;
    let call = call
        .as_str()
        .replace(alloc, "\"opted\":[]", opted.as_str())?;
    let mut files = MemoryFiles::new(alloc);
    files.add("s", STORES.as_bytes())?;
    files.add("c.json", call.as_bytes())?;
    let (status, text) = outcome(alloc, &["asm", "s"], &mut files)?;
    assert_eq!(rt; status, Status::Done, "{text}");
    let (status, text) = outcome(alloc, &["run", "s.bin", "c.json"], &mut files)?;
    assert_eq!(rt; status, Status::Done);
    let local = format!(in alloc; "local {ADDRESS} 7365656e 0x01ff\n")?;
    let wanted = format!(in alloc;
        "approved\ncost 14\nlog \nglobal 636f756e74 7\n{local}box 62 31323334\n"
    )?;
    assert_eq!(rt; text, wanted);
    Ok(())
}

#[test]
fn a_rejected_run_prints_no_logs_and_no_state(rt: HostRuntime) -> Result<(), Fail> {
    let alloc = rt.alloc();
    let mut files = MemoryFiles::new(alloc);
    let text = "#pragma version 10\npushbytes \"a\"\nlog\npushint 0\nreturn\n";
    files.add("s", text.as_bytes())?;
    files.add("c.json", call_file(alloc, "null", "0", "700")?.as_bytes())?;
    let (status, _text) = outcome(alloc, &["asm", "s"], &mut files)?;
    assert_eq!(rt; status, Status::Done);
    let (status, text) = outcome(alloc, &["run", "s.bin", "c.json"], &mut files)?;
    assert_eq!(rt; status, Status::Rejected);
    assert_eq!(rt; text.as_str(), "rejected at 7\ncost 4\n");
    Ok(())
}

/// The statuses that the front of a text or of a call file may end with.
fn is_named(status: Status) -> bool {
    match status {
        Status::Done | Status::CallFile | Status::Program => true,
        _ => false,
    }
}

#[test]
fn each_front_of_a_text_and_of_a_call_file_ends_with_a_status(rt: HostRuntime) -> Result<(), Fail> {
    let alloc = rt.alloc();
    let call = call_file(alloc, "null", "0", "700")?;
    let mut files = MemoryFiles::new(alloc);
    files.add("p.bin", &[0x0a, 0x81, 0x01, 0x43])?;
    for end in 0..call.len() {
        files.add("c.json", &call.as_bytes()[..end])?;
        let (status, text) = outcome(alloc, &["run", "p.bin", "c.json"], &mut files)?;
        assert_eq!(rt; status, Status::CallFile, "{end}: {text}");
    }
    for end in 0..STORES.len() {
        files.add("s", &STORES.as_bytes()[..end])?;
        let (status, text) = outcome(alloc, &["asm", "s"], &mut files)?;
        assert!(rt; is_named(status), "{end}: {text}");
    }
    Ok(())
}

#[test]
fn other_words_are_not_understood(rt: HostRuntime) -> Result<(), Fail> {
    let alloc = rt.alloc();
    let rows: [&[&str]; 7] = [
        &[],
        &["call"],
        &["call", "t.py"],
        &["call", "t.py", "c.json", "more"],
        &["asm", "t.py", "c.json"],
        &["dis"],
        &["Run", "t.py", "c.json"],
    ];
    for texts in rows {
        let mut files = files_of(alloc, "UInt64(6) * UInt64(7)", "{}")?;
        let (status, text) = outcome(alloc, texts, &mut files)?;
        assert_eq!(rt; status, Status::Words);
        assert_eq!(rt; text.as_str(), "words not understood\n");
    }
    Ok(())
}

#[test]
fn a_file_that_is_not_read_is_named(rt: HostRuntime) -> Result<(), Fail> {
    let alloc = rt.alloc();
    let rows: [(&[&str], &str); 4] = [
        (&["call", "absent", "c.json"], "absent: missing\n"),
        (&["call", "t.py", "absent"], "absent: missing\n"),
        (&["asm", "long"], "long: too long\n"),
        (&["run", "long", "c.json"], "long: too long\n"),
    ];
    let long = vec![in alloc; b' '; 1048577]?;
    for (texts, text) in rows {
        let mut files = files_of(alloc, "UInt64(6) * UInt64(7)", "{}")?;
        files.add("long", long.as_slice())?;
        let (got_status, got_text) = outcome(alloc, texts, &mut files)?;
        assert_eq!(rt; got_status, Status::ReadFault);
        assert_eq!(rt; got_text.as_str(), text);
    }
    Ok(())
}

#[test]
fn a_read_that_fails_is_named(rt: HostRuntime) -> Result<(), Fail> {
    let alloc = rt.alloc();
    let mut files = files_of(alloc, "UInt64(6) * UInt64(7)", "{}")?;
    files.fail_at(2)?;
    let (status, text) = outcome(alloc, &CALL, &mut files)?;
    assert_eq!(rt; status, Status::ReadFault);
    assert_eq!(rt; text.as_str(), "c.json: read failed\n");
    Ok(())
}

#[test]
fn a_write_that_fails_keeps_a_front_and_is_named(rt: HostRuntime) -> Result<(), Fail> {
    let alloc = rt.alloc();
    let mut files = MemoryFiles::new(alloc);
    files.add("q", b"#pragma version 10\npushint 1\nreturn\n")?;
    files.fail_at(2)?;
    let (status, text) = outcome(alloc, &["asm", "q"], &mut files)?;
    assert_eq!(rt; status, Status::WriteFault);
    assert_eq!(rt; text.as_str(), "q.bin: write failed\n");
    assert_eq!(rt; files.get("q.bin"), Some([0x0a, 0x81].as_slice()));
    Ok(())
}

/// A sink that counts its calls.
#[derive(Drop)]
struct CountingSink {
    inner: MemorySink,
    puts: u64,
}

impl Sink for CountingSink {
    ghost use Rattle.std.specs.Prelude.{Some};

    ghost taken = { λ s. Some s.inner.bytes };

    ghost faults = { λ s. s.inner.calls.faults };

    fn put(&mut self, bytes: &[u8]) -> Result<(), SinkFault> {
        self.puts = self.puts.saturating_add(1);
        self.inner.put(bytes)
    }
}

#[test]
fn each_answer_goes_out_in_one_put(rt: HostRuntime) -> Result<(), Fail> {
    let alloc = rt.alloc();
    let rows: [&[&str]; 6] = [
        &CALL,
        &["call", "absent", "c.json"],
        &["run", "p.bin", "c.json"],
        &["asm", "q"],
        &["dis", "p.bin"],
        &["help"],
    ];
    let call = call_file(alloc, "\"T\"", "0", "700")?;
    for texts in rows {
        let mut files = files_of(alloc, "UInt64(6) * UInt64(7)", call.as_str())?;
        files.add("p.bin", &[0x0a, 0x81, 0x01, 0x43])?;
        files.add("q", STORES.as_bytes())?;
        let mut out = CountingSink {
            inner: MemorySink::new(alloc),
            puts: 0,
        };
        let status = run_words(alloc, &words(alloc, texts)?, &mut files, &mut out);
        assert_eq!(rt; out.puts, 1, "{status:?}");
    }
    Ok(())
}

#[test]
fn a_put_that_fails_is_the_write_fault(rt: HostRuntime) -> Result<(), Fail> {
    let alloc = rt.alloc();
    let call = call_file(alloc, "\"T\"", "0", "700")?;
    let mut files = files_of(alloc, "UInt64(6) * UInt64(7)", call.as_str())?;
    let mut out = MemorySink::new(alloc);
    out.fail_at(1)?;
    let status = run_words(alloc, &words(alloc, &CALL)?, &mut files, &mut out);
    assert_eq!(rt; status, Status::WriteFault);
    assert_eq!(rt; out.bytes(), b"approved".as_slice());
    Ok(())
}

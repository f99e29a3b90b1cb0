use avm_run::{Outcome, Ran};
use avm_state::Ledger;
use outcome_text::push_ran;
use puya_base::{Blob, Value};
use std::alloc::Global;
use std::test::Fail;

fn text_of(alloc: Global, outcome: Outcome) -> Result<Blob, Fail> {
    let ran = Ran {
        outcome,
        pc: 17,
        spent: 5,
    };
    let mut text = Blob::from_slice(alloc, b"> ")?;
    push_ran(alloc, &mut text, &ran)?;
    Ok(text)
}

#[test]
fn a_run_that_stops_names_its_place(rt: HostRuntime) -> Result<(), Fail> {
    let alloc = rt.alloc();
    let text = text_of(alloc, Outcome::Rejected)?;
    assert_eq!(rt; text.as_slice(), b"> rejected at 17\ncost 5\n".as_slice());
    let text = text_of(alloc, Outcome::OverBudget)?;
    assert_eq!(rt;
        text.as_slice(),
        b"> over budget at 17\ncost 5\n".as_slice()
    );
    let text = text_of(alloc, Outcome::OverDepth)?;
    assert_eq!(rt; text.as_slice(), b"> over depth at 17\ncost 5\n".as_slice());
    Ok(())
}

#[test]
fn an_approved_run_has_nothing_but_its_cost(rt: HostRuntime) -> Result<(), Fail> {
    let alloc = rt.alloc();
    let text = text_of(alloc, Outcome::Approved(Ledger::empty(alloc)))?;
    assert_eq!(rt; text.as_slice(), b"> approved\ncost 5\n".as_slice());
    Ok(())
}

const STATE: &[u8] = b"> approved
cost 5
log \nlog 00ff
global 61 7
global 62 0x
local 0101 6b 0x0a
box 6e 
";

/// An account of two bytes: the ledger asks no form of it.
fn ledger_of(alloc: Global) -> Result<Ledger, Fail> {
    let mut ledger = Ledger::empty(alloc);
    ledger.add_log(b"")?;
    ledger.add_log(&[0, 255])?;
    ledger.global_put(b"b", &Value::Bytes(Blob::new(alloc)))?;
    ledger.global_put(b"a", &Value::Int(7))?;
    ledger.opt_in(&[1, 1])?;
    ledger.set_local(
        &[1, 1],
        b"k",
        &Value::Bytes(Blob::from_slice(alloc, &[10])?),
    )?;
    ledger.set_box(b"n", b"")?;
    Ok(ledger)
}

#[test]
fn an_approved_run_prints_its_logs_and_its_state(rt: HostRuntime) -> Result<(), Fail> {
    let alloc = rt.alloc();
    let text = text_of(alloc, Outcome::Approved(ledger_of(alloc)?))?;
    assert_eq!(rt; text.as_slice(), STATE);
    Ok(())
}

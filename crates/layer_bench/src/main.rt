//! Runs layers on large inputs, so that a script can time them: the machine on loops that spend a whole budget, and the lexer on a long source.
#![tactic(auto)]

use avm_run::{Outcome, Ran, check_program, run};
use avm_state::{Call, Ledger};
use puya_base::{Blob, List, Memory};
use py_lexer::tokens;
use std::alloc::Global;
use std::{env, io};

/// A loop of arithmetic: `intcblock 1`, then `intc_0`, `intc_0`, `+`, `pop`, `b` back.
const ARITHMETIC: &[u8] = &[10, 0x20, 1, 1, 0x22, 0x22, 0x08, 0x48, 0x42, 0xff, 0xf9];

/// A loop on byte strings: `bytecblock 0x00..07`, then `bytec_0`, `bytec_0`, `concat`, `pop`, `b` back.
const BYTES: &[u8] = &[
    10, 0x26, 1, 8, 0, 1, 2, 3, 4, 5, 6, 7, 0x28, 0x28, 0x50, 0x48, 0x42, 0xff, 0xf9,
];

/// A loop on the global state: `bytecblock "k"`, `intcblock 5`, then `bytec_0`, `intc_0`, `app_global_put`, `b` back.
const STORAGE: &[u8] = &[
    10, 0x26, 1, 1, 0x6b, 0x20, 1, 5, 0x28, 0x22, 0x67, 0x42, 0xff, 0xfa,
];

/// The plain call with the whole budget.
fn whole_call(alloc: Global) -> Result<Call, Memory> {
    Ok(Call {
        application: 1,
        creating: false,
        on_completion: 0,
        args: List::new(alloc),
        sender: Blob::from_vec(vec![in alloc; 0; 32]?),
        fee: 0,
        note: Blob::new(alloc),
        accounts: List::new(alloc),
        boxes: List::new(alloc),
        round: 0,
        timestamp: 0,
        creator: Blob::from_vec(vec![in alloc; 0; 32]?),
        budget: 11200,
    })
}

fn outcome_word(outcome: &Outcome) -> &'static str {
    match outcome {
        Outcome::Approved(_) => "approved",
        Outcome::Rejected => "rejected",
        Outcome::OverBudget => "over budget",
        Outcome::OverDepth => "over depth",
    }
}

/// The last of so many runs, or none.
fn last_run(alloc: Global, code: &[u8], rounds: u64) -> Result<Option<Ran>, Memory> {
    let Ok(program) = check_program(alloc, code) else {
        return Ok(None);
    };
    let call = whole_call(alloc)?;
    let mut last = None;
    for _round in 0..rounds {
        last = Some(run(alloc, &program, &call, Ledger::empty(alloc))?);
    }
    Ok(last)
}

fn report(rt: &(impl Print + AllocGlobal), name: &str, code: &[u8], rounds: u64) -> io::Result<()> {
    match last_run(rt.alloc(), code, rounds) {
        Ok(Some(ran)) => {
            let word = outcome_word(&ran.outcome);
            let pc = ran.pc;
            let spent = ran.spent;
            println!(rt; "{name}: {rounds} runs, the last {word} at {pc}, cost {spent}")
        }
        Ok(None) => println!(rt; "{name}: not run"),
        Err(_) => println!(rt; "{name}: out of memory"),
    }
}

/// A line of a source, of 32 bytes.
const LINE: &[u8] = b"total = total + f(x, 'abc')[1:]\n";

/// So many KiB of lines.
fn long_source(alloc: Global, kib: u64) -> Result<Blob, Memory> {
    let mut source = Blob::new(alloc);
    for _line in 0..kib.min(1024) * 32 {
        source.extend(LINE)?;
    }
    Ok(source)
}

/// How many tokens so many KiB of lines have.
fn count_tokens(alloc: Global, kib: u64) -> Result<Option<usize>, Memory> {
    let source = long_source(alloc, kib)?;
    if source.len() > 1048576 {
        return Ok(None);
    }
    match tokens(alloc, source.as_slice()) {
        Ok(list) => Ok(Some(list.len())),
        Err(_) => Ok(None),
    }
}

fn report_tokens(rt: &(impl Print + AllocGlobal), kib: u64) -> io::Result<()> {
    match count_tokens(rt.alloc(), kib) {
        Ok(Some(count)) => println!(rt; "tokens: {kib} KiB, {count} tokens"),
        Ok(None) => println!(rt; "tokens: refused"),
        Err(_) => println!(rt; "tokens: out of memory"),
    }
}

/// The name of a layer's loop, and how often it runs or how many KiB it reads: the words after the program's name, or all once.
fn main(rt: HostRuntime) -> io::Result<()> {
    let mut words = Vec::new(rt.alloc());
    for word in env::args(&rt)? {
        words.push(word)?;
    }
    let rounds = match words.get(2) {
        Some(word) => word.as_str().parse::<u64>().unwrap_or(1),
        None => 1,
    };
    let name = match words.get(1) {
        Some(word) => word.as_str(),
        None => "all",
    };
    if name == "all" || name == "arithmetic" {
        report(&rt, "arithmetic", ARITHMETIC, rounds)?;
    }
    if name == "all" || name == "bytes" {
        report(&rt, "bytes", BYTES, rounds)?;
    }
    if name == "all" || name == "storage" {
        report(&rt, "storage", STORAGE, rounds)?;
    }
    if name == "all" || name == "tokens" {
        report_tokens(&rt, rounds)?;
    }
    Ok(())
}

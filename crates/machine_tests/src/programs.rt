use avm_run::{Outcome, ProgramFault, Ran, check_program, run};
use avm_state::{Call, Ledger};
use puya_base::{Blob, Blobs, List, Memory, Value};
use std::alloc::Global;
use std::test::Fail;

/// How a run ends, without the ledger.
#[derive(Clone, Copy, Debug, PartialEq, Eq)]
enum End {
    Approved,
    Rejected,
    OverBudget,
    OverDepth,
}

/// The end of a run: how, the place, and the cost.
type Seen = (End, usize, u64);

fn zeros(alloc: Global) -> Result<Blob, Memory> {
    Ok(Blob::from_vec(vec![in alloc; 0; 32]?))
}

fn one_name(alloc: Global, name: &[u8]) -> Result<Blobs, Memory> {
    let mut names = List::new(alloc);
    names.push(Blob::from_slice(alloc, name)?)?;
    Ok(names)
}

/// A call of application 1 without arguments from the address of 32 zero bytes, with the box name `b`.
fn plain_call(alloc: Global, on_completion: u8, budget: u64) -> Result<Call, Memory> {
    Ok(Call {
        application: 1,
        creating: false,
        on_completion,
        args: List::new(alloc),
        sender: zeros(alloc)?,
        fee: 1000,
        note: Blob::new(alloc),
        accounts: List::new(alloc),
        boxes: one_name(alloc, b"b")?,
        round: 1,
        timestamp: 1,
        creator: zeros(alloc)?,
        budget,
    })
}

fn seen(ran: &Ran) -> Seen {
    let end = match &ran.outcome {
        Outcome::Approved(_) => End::Approved,
        Outcome::Rejected => End::Rejected,
        Outcome::OverBudget => End::OverBudget,
        Outcome::OverDepth => End::OverDepth,
    };
    (end, ran.pc, ran.spent)
}

/// The run of a well-formed program from an empty ledger.
fn ran_on(alloc: Global, code: &[u8], on_completion: u8, budget: u64) -> Result<Ran, Fail> {
    let program = check_program(alloc, code)?;
    let call = plain_call(alloc, on_completion, budget)?;
    Ok(run(alloc, &program, &call, Ledger::empty(alloc))?)
}

fn outcome_of(alloc: Global, code: &[u8], budget: u64) -> Result<Seen, Fail> {
    Ok(seen(&ran_on(alloc, code, 0, budget)?))
}

/// The ledger that an approved run leaves, or an empty one.
fn ledger_after(alloc: Global, code: &[u8]) -> Result<Ledger, Fail> {
    match ran_on(alloc, code, 0, 700)?.outcome {
        Outcome::Approved(ledger) => Ok(ledger),
        _ => Ok(Ledger::empty(alloc)),
    }
}

fn fault_of(alloc: Global, code: &[u8]) -> Option<ProgramFault> {
    match check_program(alloc, code) {
        Ok(_) => None,
        Err(fault) => Some(fault),
    }
}

#[test]
fn the_first_fault_is_named(rt: HostRuntime) -> Result<(), Fail> {
    let cases = [
        ([].as_slice(), ProgramFault::Cut(0)),
        ([0x0b, 0x81, 0x01].as_slice(), ProgramFault::Version(11)),
        ([0x0a, 0x81].as_slice(), ProgramFault::Cut(1)),
        ([0x0a, 0x02].as_slice(), ProgramFault::Outside(1, 2)),
        (
            [0x0a, 0x81, 0x81, 0x00, 0x43].as_slice(),
            ProgramFault::Overlong(1),
        ),
        (
            [0x0a, 0x42, 0x00, 0x05].as_slice(),
            ProgramFault::Target(1, 9),
        ),
        (
            [0x0a, 0x42, 0xff, 0xf0].as_slice(),
            ProgramFault::Target(1, -12),
        ),
        // inside the pushint at 4
        (
            [0x0a, 0x42, 0x00, 0x01, 0x81, 0x01].as_slice(),
            ProgramFault::Target(1, 5),
        ),
        // onto the version byte
        (
            [0x0a, 0x42, 0xff, 0xfc].as_slice(),
            ProgramFault::Target(1, 0),
        ),
        // the second of two targets
        (
            [0x0a, 0x81, 0x00, 0x8d, 0x02, 0x00, 0x00, 0x00, 0x01].as_slice(),
            ProgramFault::Target(3, 10),
        ),
        // an instruction's fault is named before a target's
        (
            [0x0a, 0x42, 0x00, 0x05, 0x02].as_slice(),
            ProgramFault::Outside(4, 2),
        ),
    ];
    for (code, fault) in cases.iter() {
        assert_eq!(rt; fault_of(rt.alloc(), code), Some(*fault), "of {code:?}");
    }
    Ok(())
}

#[test]
fn a_program_has_its_bytes(rt: HostRuntime) -> Result<(), Fail> {
    let program = check_program(rt.alloc(), &[0x0a, 0x42, 0x00, 0x00])?;
    assert_eq!(rt; program.bytes(), [0x0a, 0x42, 0x00, 0x00].as_slice());
    Ok(())
}

#[test]
fn runs_end_by_their_stack_cost_and_depth(rt: HostRuntime) -> Result<(), Fail> {
    let cases = [
        (
            [0x0a, 0x81, 2, 0x81, 3, 0x0b, 0x43].as_slice(),
            700,
            (End::Approved, 6, 4),
        ),
        (
            [0x0a, 0x81, 2, 0x81, 3, 0x0b, 0x43].as_slice(),
            4,
            (End::Approved, 6, 4),
        ),
        (
            [0x0a, 0x81, 2, 0x81, 3, 0x0b, 0x43].as_slice(),
            3,
            (End::OverBudget, 6, 3),
        ),
        ([0x0a, 0x08, 0x43].as_slice(), 700, (End::Rejected, 1, 1)),
        ([0x0a].as_slice(), 700, (End::Rejected, 1, 0)),
        ([0x0a, 0x81, 1, 0x43].as_slice(), 700, (End::Approved, 3, 2)),
        ([0x0a, 0x81, 0, 0x43].as_slice(), 700, (End::Rejected, 3, 2)),
        ([0x0a, 0x80, 1, 1].as_slice(), 700, (End::Rejected, 4, 1)),
        (
            [0x0a, 0x81, 1, 0x81, 1].as_slice(),
            700,
            (End::Rejected, 5, 2),
        ),
        // 1021 values, 1000 values, 1001 values
        (
            [
                0x0a, 0x81, 1, 0x47, 0xff, 0x47, 0xff, 0x47, 0xff, 0x47, 0xff,
            ]
            .as_slice(),
            700,
            (End::OverDepth, 9, 5),
        ),
        (
            [
                0x0a, 0x81, 1, 0x47, 0xff, 0x47, 0xff, 0x47, 0xff, 0x47, 0xea,
            ]
            .as_slice(),
            700,
            (End::Rejected, 11, 5),
        ),
        (
            [
                0x0a, 0x81, 1, 0x47, 0xff, 0x47, 0xff, 0x47, 0xff, 0x47, 0xeb,
            ]
            .as_slice(),
            700,
            (End::OverDepth, 9, 5),
        ),
        // sha256 costs 35
        (
            [0x0a, 0x80, 0, 0x01, 0x15].as_slice(),
            35,
            (End::OverBudget, 3, 1),
        ),
        (
            [0x0a, 0x80, 0, 0x01, 0x15].as_slice(),
            36,
            (End::OverBudget, 4, 36),
        ),
        (
            [0x0a, 0x80, 0, 0x01, 0x15].as_slice(),
            37,
            (End::Approved, 5, 37),
        ),
    ];
    for (code, budget, ends) in cases.iter() {
        assert_eq!(rt;
            outcome_of(rt.alloc(), code, *budget)?,
            *ends,
            "of {code:?}"
        );
    }
    Ok(())
}

#[test]
fn branches_lead_to_their_targets(rt: HostRuntime) -> Result<(), Fail> {
    let cases = [
        (
            [0x0a, 0x42, 0, 0, 0x81, 1].as_slice(),
            (End::Approved, 6, 2),
        ),
        // match finds the first of its cases
        (
            [0x0a, 0x81, 7, 0x81, 7, 0x8e, 1, 0, 1, 0, 0x81, 1].as_slice(),
            (End::Approved, 12, 4),
        ),
        (
            [
                0x0a, 0x81, 7, 0x81, 7, 0x81, 7, 0x8e, 2, 0, 0, 0, 2, 0x81, 1, 0,
            ]
            .as_slice(),
            (End::Rejected, 15, 6),
        ),
        (
            [0x0a, 0x81, 6, 0x81, 7, 0x8e, 1, 0, 2, 0x81, 1, 0x43].as_slice(),
            (End::Approved, 11, 5),
        ),
        // switch 2 of one target goes on, switch 0 leads to the err
        (
            [0x0a, 0x81, 2, 0x8d, 1, 0, 3, 0x81, 1, 0x43, 0].as_slice(),
            (End::Approved, 9, 4),
        ),
        (
            [0x0a, 0x81, 0, 0x8d, 1, 0, 3, 0x81, 1, 0x43, 0].as_slice(),
            (End::Rejected, 10, 3),
        ),
        // bnz and bz over an err
        (
            [0x0a, 0x81, 5, 0x40, 0, 1, 0, 0x81, 1].as_slice(),
            (End::Approved, 9, 3),
        ),
        (
            [0x0a, 0x81, 0, 0x40, 0, 1, 0, 0x81, 1].as_slice(),
            (End::Rejected, 6, 3),
        ),
        (
            [0x0a, 0x81, 0, 0x41, 0, 1, 0, 0x81, 1].as_slice(),
            (End::Approved, 9, 3),
        ),
        ([0x0a, 0x81, 0, 0x44].as_slice(), (End::Rejected, 3, 2)),
    ];
    for (code, ends) in cases.iter() {
        assert_eq!(rt; outcome_of(rt.alloc(), code, 700)?, *ends, "of {code:?}");
    }
    Ok(())
}

#[test]
fn subroutines_have_frames(rt: HostRuntime) -> Result<(), Fail> {
    let cases = [
        // 5 * 2 by a subroutine at 10, compared with 10
        (
            [
                0x0a, 0x81, 5, 0x88, 0, 4, 0x81, 10, 0x12, 0x43, 0x8a, 1, 1, 0x8b, 0xff, 0x81, 2,
                0x0b, 0x89,
            ]
            .as_slice(),
            (End::Approved, 9, 10),
        ),
        // its argument set to 7 and read again
        (
            [
                0x0a, 0x81, 5, 0x88, 0, 4, 0x81, 7, 0x12, 0x43, 0x8a, 1, 1, 0x81, 7, 0x8c, 0xff,
                0x8b, 0xff, 0x89,
            ]
            .as_slice(),
            (End::Approved, 9, 10),
        ),
        // without a proto
        (
            [0x0a, 0x88, 0, 1, 0x43, 0x81, 1, 0x89].as_slice(),
            (End::Approved, 4, 4),
        ),
        // a return without a call, and a proto that no callsub led to
        ([0x0a, 0x89].as_slice(), (End::Rejected, 1, 1)),
        (
            [0x0a, 0x8a, 0, 0, 0x81, 1].as_slice(),
            (End::Rejected, 1, 1),
        ),
        (
            [0x0a, 0x88, 0, 0, 0x81, 1, 0x8a, 0, 0].as_slice(),
            (End::Rejected, 6, 3),
        ),
        // an argument, a result and a value in the frame that are missing
        (
            [0x0a, 0x88, 0, 0, 0x8a, 1, 0].as_slice(),
            (End::Rejected, 4, 2),
        ),
        (
            [0x0a, 0x88, 0, 0, 0x8a, 0, 1, 0x89].as_slice(),
            (End::Rejected, 7, 3),
        ),
        (
            [0x0a, 0x88, 0, 0, 0x8a, 0, 0, 0x8b, 0].as_slice(),
            (End::Rejected, 7, 3),
        ),
        // below the one declared argument
        (
            [0x0a, 0x81, 5, 0x81, 5, 0x88, 0, 0, 0x8a, 1, 1, 0x8b, 0xfe].as_slice(),
            (End::Rejected, 11, 5),
        ),
    ];
    for (code, ends) in cases.iter() {
        assert_eq!(rt; outcome_of(rt.alloc(), code, 700)?, *ends, "of {code:?}");
    }
    Ok(())
}

#[test]
fn values_are_pushed_kept_and_moved(rt: HostRuntime) -> Result<(), Fail> {
    let cases = [
        // the second constant is greater than the first; there is none
        (
            [0x0a, 0x20, 2, 5, 7, 0x21, 1, 0x22, 0x0d, 0x43].as_slice(),
            (End::Approved, 9, 5),
        ),
        ([0x0a, 0x21, 0].as_slice(), (End::Rejected, 1, 1)),
        // "BC" and "A" make "BCA"
        (
            [
                0x0a, 0x26, 2, 1, 0x41, 2, 0x42, 0x43, 0x27, 1, 0x28, 0x50, 0x80, 3, 0x42, 0x43,
                0x41, 0x12,
            ]
            .as_slice(),
            (End::Approved, 18, 6),
        ),
        (
            [0x0a, 0x81, 9, 0x35, 5, 0x34, 5, 0x81, 9, 0x12].as_slice(),
            (End::Approved, 10, 5),
        ),
        ([0x0a, 0x34, 0xff, 0x14].as_slice(), (End::Approved, 4, 2)),
        ([0x0a, 0x81, 1, 0x45, 0].as_slice(), (End::Rejected, 3, 2)),
        // 1 2 3 becomes 3 2; 3 minus 2
        (
            [0x0a, 0x81, 1, 0x81, 2, 0x81, 3, 0x45, 2, 0x09].as_slice(),
            (End::Approved, 10, 5),
        ),
        // 1 2 3 becomes 3 1 2
        (
            [
                0x0a, 0x81, 1, 0x81, 2, 0x81, 3, 0x4e, 2, 0x81, 2, 0x12, 0x44, 0x81, 1, 0x12, 0x44,
                0x81, 3, 0x12,
            ]
            .as_slice(),
            (End::Approved, 20, 12),
        ),
        // 1 2 3 becomes 2 3 1
        (
            [
                0x0a, 0x81, 1, 0x81, 2, 0x81, 3, 0x4f, 2, 0x81, 1, 0x12, 0x44, 0x81, 3, 0x12, 0x44,
                0x81, 2, 0x12,
            ]
            .as_slice(),
            (End::Approved, 20, 12),
        ),
    ];
    for (code, ends) in cases.iter() {
        assert_eq!(rt; outcome_of(rt.alloc(), code, 700)?, *ends, "of {code:?}");
    }
    Ok(())
}

#[test]
fn fields_are_those_of_the_call(rt: HostRuntime) -> Result<(), Fail> {
    let cases = [
        // the sender is 32 zero bytes, and the zero address
        (
            [0x0a, 0x31, 0, 0x81, 32, 0xaf, 0x12].as_slice(),
            (End::Approved, 7, 4),
        ),
        (
            [0x0a, 0x31, 0, 0x32, 3, 0x12].as_slice(),
            (End::Approved, 6, 3),
        ),
        // no arguments
        ([0x0a, 0x31, 27, 0x14].as_slice(), (End::Approved, 4, 2)),
        ([0x0a, 0x36, 26, 0].as_slice(), (End::Rejected, 1, 1)),
        // application 1, by the call and by the globals
        ([0x0a, 0x31, 24].as_slice(), (End::Approved, 3, 1)),
        ([0x0a, 0x32, 8].as_slice(), (End::Approved, 3, 1)),
        // the sender has not opted in
        (
            [0x0a, 0x81, 0, 0x80, 1, 0x6b, 0x62].as_slice(),
            (End::Rejected, 6, 3),
        ),
    ];
    for (code, ends) in cases.iter() {
        assert_eq!(rt; outcome_of(rt.alloc(), code, 700)?, *ends, "of {code:?}");
    }
    Ok(())
}

#[test]
fn an_approved_run_leaves_its_global_value(rt: HostRuntime) -> Result<(), Fail> {
    let puts_and_gets = [
        0x0a, 0x80, 1, 0x6b, 0x81, 5, 0x67, 0x80, 1, 0x6b, 0x64, 0x81, 5, 0x12,
    ];
    assert_eq!(rt;
        outcome_of(rt.alloc(), &puts_and_gets, 700)?,
        (End::Approved, 14, 7)
    );
    let ledger = ledger_after(rt.alloc(), &puts_and_gets)?;
    assert_eq!(rt; ledger.global_count(), 1);
    if ledger.global_count() == 1 {
        assert_eq!(rt; ledger.global_key(0), b"k".as_slice());
        assert!(rt; *ledger.global_value(0) == Value::Int(5));
    }
    Ok(())
}

#[test]
fn a_rejected_run_leaves_no_ledger(rt: HostRuntime) -> Result<(), Fail> {
    let puts_and_fails = [0x0a, 0x80, 1, 0x6b, 0x81, 5, 0x67, 0x00];
    assert_eq!(rt;
        outcome_of(rt.alloc(), &puts_and_fails, 700)?,
        (End::Rejected, 7, 4)
    );
    Ok(())
}

#[test]
fn an_approved_run_leaves_its_log(rt: HostRuntime) -> Result<(), Fail> {
    let ledger = ledger_after(rt.alloc(), &[0x0a, 0x80, 2, 0x68, 0x69, 0xb0, 0x81, 1])?;
    assert_eq!(rt; ledger.log_count(), 1);
    if ledger.log_count() == 1 {
        assert_eq!(rt; ledger.log(0), b"hi".as_slice());
    }
    Ok(())
}

#[test]
fn a_listed_box_is_made_unless_the_program_clears(rt: HostRuntime) -> Result<(), Fail> {
    let cases = [
        (
            [0x0a, 0x80, 1, 0x62, 0x81, 4, 0xb9].as_slice(),
            0,
            (End::Approved, 7, 3),
        ),
        (
            [0x0a, 0x80, 1, 0x62, 0x81, 4, 0xb9].as_slice(),
            3,
            (End::Rejected, 6, 3),
        ),
        (
            [0x0a, 0x80, 1, 0x63, 0x81, 4, 0xb9].as_slice(),
            0,
            (End::Rejected, 6, 3),
        ),
        // put, and the length of what was put
        (
            [
                0x0a, 0x80, 1, 0x62, 0x80, 2, 7, 8, 0xbf, 0x80, 1, 0x62, 0xbd, 0x44, 0x81, 2, 0x12,
            ]
            .as_slice(),
            0,
            (End::Approved, 17, 8),
        ),
        (
            [
                0x0a, 0x80, 1, 0x62, 0x80, 2, 7, 8, 0xbf, 0x80, 1, 0x62, 0xbd, 0x44, 0x81, 2, 0x12,
            ]
            .as_slice(),
            3,
            (End::Rejected, 8, 3),
        ),
    ];
    for (code, on_completion, ends) in cases.iter() {
        let ran = ran_on(rt.alloc(), code, *on_completion, 700)?;
        assert_eq!(rt; seen(&ran), *ends, "of {code:?}");
    }
    Ok(())
}

#[test]
fn an_approved_run_leaves_its_box(rt: HostRuntime) -> Result<(), Fail> {
    let ledger = ledger_after(
        rt.alloc(),
        &[0x0a, 0x80, 1, 0x62, 0x80, 2, 7, 8, 0xbf, 0x81, 1],
    )?;
    assert_eq!(rt; ledger.box_count(), 1);
    if ledger.box_count() == 1 {
        assert_eq!(rt; ledger.box_name(0), b"b".as_slice());
        assert_eq!(rt; ledger.box_bytes(0), [7, 8].as_slice());
    }
    Ok(())
}

#[test]
fn a_loop_spends_its_whole_budget(rt: HostRuntime) -> Result<(), Fail> {
    // push, pop and back: 3733 times, and one push
    let turns = [0x0a, 0x81, 1, 0x48, 0x42, 0xff, 0xfa];
    assert_eq!(rt;
        outcome_of(rt.alloc(), &turns, 11200)?,
        (End::OverBudget, 3, 11200)
    );
    assert_eq!(rt;
        outcome_of(rt.alloc(), &[0x0a, 0x42, 0xff, 0xfd], 11200)?,
        (End::OverBudget, 1, 11200)
    );
    Ok(())
}

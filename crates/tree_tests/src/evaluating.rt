use avm_state::{Call, Ledger};
use awst::{Contract, Expr, ExprKind, Exprs, Func, Primitive, Stmt, StmtKind, Stmts, Target, Ty};
use awst_eval::{Change, Ending, Mark, Moment, evaluate};
use puya_base::{Blob, List, Memory, Name, Place};
use std::alloc::Global;
use std::test::Fail;

const HERE: Place = Place { line: 4, col: 9 };

fn number(n: u64) -> Expr {
    Expr {
        place: HERE,
        ty: Ty::UInt64,
        kind: ExprKind::Int(n),
    }
}

fn local(x: u32) -> Expr {
    Expr {
        place: HERE,
        ty: Ty::UInt64,
        kind: ExprKind::Local(x),
    }
}

fn one(alloc: Global, e: Expr) -> Result<Exprs, Memory> {
    let mut parts = List::new(alloc);
    parts.push(e)?;
    Ok(parts)
}

fn two(alloc: Global, a: Expr, b: Expr) -> Result<Exprs, Memory> {
    let mut parts = one(alloc, a)?;
    parts.push(b)?;
    Ok(parts)
}

fn form(ty: Ty, prim: Primitive, parts: Exprs) -> Expr {
    Expr {
        place: HERE,
        ty,
        kind: ExprKind::Prim(prim, parts),
    }
}

fn at(line: u32, kind: StmtKind) -> Stmt {
    Stmt {
        place: Place { line, col: 9 },
        kind,
    }
}

fn set(alloc: Global, x: u32, e: Expr) -> Result<Stmt, Memory> {
    let mut targets = List::new(alloc);
    targets.push(Target::Local(x))?;
    Ok(at(4, StmtKind::Assign(targets, None, e)))
}

fn log(line: u32, parts: Exprs) -> Stmt {
    at(
        line,
        StmtKind::Drop(form(Ty::Nothing, Primitive::Log, parts)),
    )
}

/// A contract of one function, which returns the value behind the statements.
fn returning(alloc: Global, locals: usize, mut body: Stmts, e: Expr) -> Result<Contract, Memory> {
    body.push(at(9, StmtKind::Return(Some(e))))?;
    let mut types = List::new(alloc);
    for _i in 0..locals {
        types.push(Ty::UInt64)?;
    }
    let mut funcs = List::new(alloc);
    funcs.push(Func {
        name: Name::new(alloc, "approval_program")?,
        params: List::new(alloc),
        result: Ty::UInt64,
        locals: types,
        body,
    })?;
    Ok(Contract {
        name: Name::new(alloc, "T")?,
        arc4: false,
        funcs,
        approval: Some(0),
        clear: None,
        init: None,
    })
}

fn zeros(alloc: Global) -> Result<Blob, Memory> {
    Blob::from_slice(alloc, &[0; 32])
}

fn plain_call(alloc: Global) -> Result<Call, Memory> {
    Ok(Call {
        application: 1,
        creating: false,
        on_completion: 0,
        args: List::new(alloc),
        sender: zeros(alloc)?,
        fee: 0,
        note: Blob::new(alloc),
        accounts: List::new(alloc),
        boxes: List::new(alloc),
        round: 0,
        timestamp: 0,
        creator: zeros(alloc)?,
        budget: 11200,
    })
}

fn run(alloc: Global, contract: &Contract, bound: u64) -> Result<Moment, Memory> {
    let call = plain_call(alloc)?;
    evaluate(alloc, contract, &call, Ledger::empty(alloc), bound)
}

#[test]
fn a_product_is_approved_at_its_price(rt: HostRuntime) -> Result<(), Fail> {
    let alloc = rt.alloc();
    let product = form(
        Ty::UInt64,
        Primitive::Mul,
        two(alloc, number(6), number(7))?,
    );
    let contract = returning(alloc, 0, List::new(alloc), product)?;
    let ended = run(alloc, &contract, 1)?;
    assert_eq!(rt; ended.ending, Ending::Approved);
    assert_eq!(rt; ended.seen.price, 166);
    assert_eq!(rt; ended.seen.peak, 74);
    assert_eq!(rt; run(alloc, &contract, 0)?.ending, Ending::Unfinished);
    let zero = returning(alloc, 0, List::new(alloc), number(0))?;
    assert_eq!(rt; run(alloc, &zero, 1)?.ending, Ending::Rejected);
    Ok(())
}

/// Whether `x = e; return UInt64(1)` is rejected.
fn is_rejected(alloc: Global, e: Expr) -> Result<bool, Memory> {
    let mut body = List::new(alloc);
    body.push(set(alloc, 0, e)?)?;
    let contract = returning(alloc, 1, body, number(1))?;
    Ok(run(alloc, &contract, 1)?.ending == Ending::Rejected)
}

#[test]
fn failing_operations_reject(rt: HostRuntime) -> Result<(), Fail> {
    let alloc = rt.alloc();
    let sum = form(
        Ty::UInt64,
        Primitive::Add,
        two(alloc, number(u64::MAX), number(1))?,
    );
    assert!(rt; is_rejected(alloc, sum)?);
    let power = form(
        Ty::UInt64,
        Primitive::Power,
        two(alloc, number(0), number(0))?,
    );
    assert!(rt; is_rejected(alloc, power)?);
    let count = form(Ty::UInt64, Primitive::TxnNumAppArgs, List::new(alloc));
    let quotient = form(
        Ty::UInt64,
        Primitive::FloorDiv,
        two(alloc, number(7), count)?,
    );
    assert!(rt; is_rejected(alloc, quotient)?);
    Ok(())
}

#[test]
fn items_never_overflow(rt: HostRuntime) -> Result<(), Fail> {
    let alloc = rt.alloc();
    let mut logs = List::new(alloc);
    logs.push(log(5, one(alloc, local(0))?))?;
    let mut body = List::new(alloc);
    body.push(at(
        4,
        StmtKind::Range(0, Some(number(u64::MAX - 5)), number(u64::MAX), 3, logs),
    ))?;
    let contract = returning(alloc, 1, body, number(1))?;
    let ended = run(alloc, &contract, 3)?;
    assert_eq!(rt; ended.ending, Ending::Approved);
    assert_eq!(rt; ended.seen.ledger.log_count(), 2);
    assert_eq!(rt;
        ended.seen.ledger.log(0),
        (u64::MAX - 5).to_be_bytes().as_slice()
    );
    assert_eq!(rt;
        ended.seen.ledger.log(1),
        (u64::MAX - 2).to_be_bytes().as_slice()
    );
    let mark = Mark {
        change: Change::Logs,
        line: 5,
    };
    assert_eq!(rt; ended.seen.marks.as_slice(), [mark, mark].as_slice());
    assert_eq!(rt; run(alloc, &contract, 2)?.ending, Ending::Unfinished);
    Ok(())
}

#[test]
fn a_swap_takes_both_values(rt: HostRuntime) -> Result<(), Fail> {
    let alloc = rt.alloc();
    let mut types = List::new(alloc);
    types.push(Ty::UInt64)?;
    types.push(Ty::UInt64)?;
    let pair = Expr {
        place: HERE,
        ty: Ty::Tuple(types),
        kind: ExprKind::Tuple(two(alloc, local(1), local(0))?),
    };
    let mut targets = List::new(alloc);
    targets.push(Target::Local(0))?;
    targets.push(Target::Local(1))?;
    let mut swaps = List::new(alloc);
    swaps.push(at(7, StmtKind::Assign(targets, None, pair)))?;
    let mut body = List::new(alloc);
    body.push(set(alloc, 0, number(1))?)?;
    body.push(set(alloc, 1, number(2))?)?;
    body.push(at(6, StmtKind::Range(2, None, number(5), 1, swaps)))?;
    body.push(log(8, two(alloc, local(0), local(1))?))?;
    let contract = returning(alloc, 3, body, number(1))?;
    let ended = run(alloc, &contract, 6)?;
    assert_eq!(rt; ended.ending, Ending::Approved);
    assert_eq!(rt; ended.seen.ledger.log_count(), 1);
    assert_eq!(rt;
        ended.seen.ledger.log(0),
        [0, 0, 0, 0, 0, 0, 0, 2, 0, 0, 0, 0, 0, 0, 0, 1].as_slice()
    );
    Ok(())
}

#[test]
fn a_loop_without_end_pays_for_each_turn(rt: HostRuntime) -> Result<(), Fail> {
    let alloc = rt.alloc();
    let truth = Expr {
        place: HERE,
        ty: Ty::Bool,
        kind: ExprKind::Flag(true),
    };
    let mut body = List::new(alloc);
    body.push(at(4, StmtKind::While(truth, List::new(alloc))))?;
    let contract = returning(alloc, 0, body, number(1))?;
    let seen = run(alloc, &contract, 9)?;
    assert_eq!(rt; seen.ending, Ending::Unfinished);
    assert_eq!(rt; seen.seen.price, 712);
    Ok(())
}

/// `for i in urange(n): log(op.bzero(32))`.
fn logs(alloc: Global, n: u64) -> Result<Contract, Memory> {
    let zeros = form(Ty::Bytes, Primitive::OpBzero, one(alloc, number(32))?);
    let mut logged = List::new(alloc);
    logged.push(log(5, one(alloc, zeros)?))?;
    let mut body = List::new(alloc);
    body.push(at(4, StmtKind::Range(0, None, number(n), 1, logged)))?;
    returning(alloc, 1, body, number(1))
}

#[test]
fn no_log_is_the_thirty_third(rt: HostRuntime) -> Result<(), Fail> {
    let alloc = rt.alloc();
    let ended = run(alloc, &logs(alloc, 32)?, 33)?;
    assert_eq!(rt; ended.ending, Ending::Approved);
    assert_eq!(rt; ended.seen.ledger.log_count(), 32);
    assert_eq!(rt; ended.seen.marks.len(), 32);
    assert_eq!(rt; run(alloc, &logs(alloc, 33)?, 34)?.ending, Ending::Rejected);
    Ok(())
}

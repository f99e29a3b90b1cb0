use awst::{
    Contract, Expr, ExprKind, Exprs, Func, Funcs, Primitive, Stmt, StmtKind, Stmts, Ty, Tys,
    places, stack_need, weight,
};
use puya_base::{List, Memory, Name, Place};
use std::alloc::Global;
use std::test::Fail;

const HERE: Place = Place { line: 4, col: 9 };

fn number(kind: ExprKind) -> Expr {
    Expr {
        place: HERE,
        ty: Ty::UInt64,
        kind,
    }
}

/// A function of so many parameters that returns a value.
fn returning(alloc: Global, params: usize, value: Expr) -> Result<Func, Memory> {
    let mut types: Tys = List::new(alloc);
    for _i in 0..params {
        types.push(Ty::UInt64)?;
    }
    let mut body: Stmts = List::new(alloc);
    body.push(Stmt {
        place: HERE,
        kind: StmtKind::Return(Some(value)),
    })?;
    Ok(Func {
        name: Name::new(alloc, "f")?,
        params: types,
        result: Ty::UInt64,
        locals: List::new(alloc),
        body,
    })
}

/// `UInt64(6) * UInt64(7)`.
fn product(alloc: Global) -> Result<Expr, Memory> {
    let mut parts: Exprs = List::new(alloc);
    parts.push(number(ExprKind::Int(6)))?;
    parts.push(number(ExprKind::Int(7)))?;
    Ok(number(ExprKind::Prim(Primitive::Mul, parts)))
}

#[test]
fn a_function_with_99_parameters_has_100_places(rt: HostRuntime) -> Result<(), Fail> {
    let f = returning(rt.alloc(), 99, number(ExprKind::Local(0)))?;
    assert_eq!(rt; places(&f), 100);
    assert_eq!(rt; stack_need(&f), 216);
    Ok(())
}

#[test]
fn two_numbers_wait_for_their_product(rt: HostRuntime) -> Result<(), Fail> {
    let f = returning(rt.alloc(), 0, product(rt.alloc())?)?;
    assert_eq!(rt; places(&f), 4);
    assert_eq!(rt; stack_need(&f), 24);
    Ok(())
}

/// A contract of some functions, whose first is its approval program.
fn contract_of(alloc: Global, funcs: Funcs, clear: Option<u32>) -> Result<Contract, Memory> {
    Ok(Contract {
        name: Name::new(alloc, "C")?,
        arc4: false,
        funcs,
        approval: Some(0),
        clear,
        init: None,
    })
}

/// A call of a function without parameters.
fn call_of(alloc: Global, f: u32) -> Expr {
    number(ExprKind::Call(f, List::new(alloc), List::new(alloc)))
}

#[test]
fn a_product_weighs_232_bytes_and_64(rt: HostRuntime) -> Result<(), Fail> {
    let mut funcs: Funcs = List::new(rt.alloc());
    funcs.push(returning(rt.alloc(), 0, product(rt.alloc())?)?)?;
    let contract = contract_of(rt.alloc(), funcs, None)?;
    assert_eq!(rt; weight(rt.alloc(), &contract)?, 296);
    Ok(())
}

/// The first calls the second, which calls itself; the third is not reached.
#[test]
fn a_function_weighs_where_it_is_reached(rt: HostRuntime) -> Result<(), Fail> {
    let mut funcs: Funcs = List::new(rt.alloc());
    funcs.push(returning(rt.alloc(), 0, call_of(rt.alloc(), 1))?)?;
    funcs.push(returning(rt.alloc(), 0, call_of(rt.alloc(), 1))?)?;
    funcs.push(returning(rt.alloc(), 0, product(rt.alloc())?)?)?;
    let contract = contract_of(rt.alloc(), funcs, Some(1))?;
    assert_eq!(rt; weight(rt.alloc(), &contract)?, 496);
    Ok(())
}

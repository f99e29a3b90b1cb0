//! What the tables hold, asked once.

use algopy_library::{
    Admits, Member, Operation, Operator, Row, Scalar, admitted, between, built_in, has_truth,
    inverted, is_logged, member_named, package_named, typing_named, value_member,
};
use awst::Primitive;
use std::test::Fail;

/// What a form admits as its argument of a number, and how many values it gives.
fn form_at(name: &[u8], i: usize) -> Option<(Admits, u32)> {
    match member_named(Row::Op, name) {
        Some(Member::Form(form)) => Some((admitted(&form, i), form.results)),
        _ => None,
    }
}

#[test]
fn names_of_the_packages(rt: HostRuntime) -> Result<(), Fail> {
    assert_eq!(rt; package_named(b"String"), Some(Row::Text));
    assert_eq!(rt; package_named(b"BigUInt"), Some(Row::LeftOut));
    assert_eq!(rt; package_named(b"string"), None);
    assert_eq!(rt; built_in(b"tuple"), Some(Row::Tuple));
    assert_eq!(rt; built_in(b"int"), None);
    assert_eq!(rt; typing_named(b"Literal"), Some(Row::Literal));
    Ok(())
}

#[test]
fn members(rt: HostRuntime) -> Result<(), Fail> {
    assert_eq!(rt; form_at(b"replace", 2), Some((Admits::Bytes, 1)));
    assert_eq!(rt; form_at(b"replace", 3), Some((Admits::Nothing, 1)));
    assert_eq!(rt; form_at(b"divmodw", 3), Some((Admits::Number, 4)));
    assert_eq!(rt; member_named(Row::Op, b"keccak256"), Some(Member::LeftOut));
    assert_eq!(rt;
        member_named(Row::UInt64, b"from_bytes"),
        Some(Member::LeftOut)
    );
    assert_eq!(rt;
        member_named(Row::Txn, b"fee"),
        Some(Member::Value(Primitive::TxnFee, Scalar::UInt64))
    );
    assert_eq!(rt;
        member_named(Row::OnCompleteAction, b"DeleteApplication"),
        Some(Member::Number(5))
    );
    assert_eq!(rt; member_named(Row::Log, b"fee"), None);
    Ok(())
}

#[test]
fn operators(rt: HostRuntime) -> Result<(), Fail> {
    let joined = Operation {
        prim: Primitive::Join,
        result: Scalar::Text,
    };
    let inverse = Operation {
        prim: Primitive::Invert,
        result: Scalar::UInt64,
    };
    let length = Operation {
        prim: Primitive::Length,
        result: Scalar::UInt64,
    };
    assert_eq!(rt; between(Operator::Add, Scalar::Text), Some(joined));
    assert_eq!(rt; between(Operator::Div, Scalar::UInt64), None);
    assert_eq!(rt; between(Operator::Less, Scalar::Account), None);
    assert_eq!(rt; inverted(Scalar::UInt64), Some(inverse));
    assert_eq!(rt; inverted(Scalar::Bytes), None);
    assert_eq!(rt; value_member(Scalar::Bytes, b"length"), Some(length));
    assert_eq!(rt; value_member(Scalar::Text, b"length"), None);
    assert_eq!(rt;
        (has_truth(Scalar::Text), has_truth(Scalar::Account)),
        (true, false)
    );
    assert_eq!(rt;
        (is_logged(Scalar::Account), is_logged(Scalar::Bool)),
        (true, false)
    );
    Ok(())
}

ghost use Rattle.std.specs.Prelude.{◌≡◌, if◌then◌else◌, position, IfOk};
ghost use Rattle.avm_run.specs.Operands.{is_same};
ghost use Rattle.avm_run.specs.Flow.{first_match, to_if, way};

use avm_ops::FlowRow;
use puya_base::{Memory, Value};
use std::alloc::Global;

/// What a row leads to (AVM specification, "Flow Control").
#[derive(Debug, Drop)]
pub enum Way {
    Fails,
    /// On to the next instruction.
    On,
    /// To the target of that number, or on where there is none.
    To(u64),
    /// Returns from the program with a value.
    Returns(Value),
}

fn same(a: &Value, b: &Value) -> bool
    ensures { result ≡ is_same a.now b.now }
{
    match (a, b) {
        (Value::Int(a), Value::Int(b)) => a == b,
        (Value::Bytes(a), Value::Bytes(b)) => a.as_slice() == b.as_slice(),
        _ => false,
    }
}

fn place_of_same(values: &[Value], sought: &Value) -> Option<usize>
    ensures { result ≡ position (λ v. is_same v sought.now) values.now }
{
    values.iter().position(|value| same(value, sought))
}

fn matched(values: &[Value]) -> Option<usize>
    ensures { result ≡ first_match values.now }
{
    match values {
        [] => None,
        [cases @ .., sought] => place_of_same(cases, sought),
    }
}

fn zero_if(test: bool) -> Way
    ensures { result ≡ to_if test 0 }
{
    if test { Way::To(0) } else { Way::On }
}

/// The way of a row from its operands, the deepest first.
#[tactic(auto, unfolding(crate::specs::Flow::way))]
pub(crate) fn way_of(alloc: Global, row: FlowRow, operands: &[Value]) -> Result<Way, Memory>
    ensures { IfOk result (λ w. w ≡ way row operands.now) }
{
    match (row, operands) {
        (FlowRow::Assert, [Value::Int(number)]) => Ok(if *number == 0 {
            Way::Fails
        } else {
            Way::On
        }),
        (FlowRow::Return, [value]) => Ok(Way::Returns(value.copy(alloc)?)),
        (FlowRow::BranchIfNotZero, [Value::Int(number)]) => Ok(zero_if(*number != 0)),
        (FlowRow::BranchIfZero, [Value::Int(number)]) => Ok(zero_if(*number == 0)),
        (FlowRow::Branch, []) => Ok(Way::To(0)),
        (FlowRow::Switch, [Value::Int(number)]) => Ok(Way::To(*number)),
        (FlowRow::Match, values) => Ok(match matched(values) {
            Some(index) => Way::To(index as u64),
            None => Way::On,
        }),
        _ => Ok(Way::Fails),
    }
}

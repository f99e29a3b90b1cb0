//! The stack (AVM specification, "The Stack"): a list whose end is the top, and the rows that move its values.
ghost use Rattle.std.specs.Prelude.{◌≡◌, ◌-◌, ◌++◌, length, slice_get, replicate, IfOk, OnOk};
ghost use Rattle.std.specs.Option.{option_copied};
ghost use Rattle.avm_run.specs.Stack.{bury, counted_row, cover, dig, dup_times, plain_row, pop_times, stack_row, uncover};
ghost use Rattle.avm_run.specs.Answers.{Acts, Takes};

use avm_ops::{Imm, StackRow};
use puya_base::{At, Memory, Value, Values, split_off};
use std::alloc::Global;

/// Takes the top values off, where there are so many, the deepest first.
pub(crate) fn take_top(
    alloc: Global,
    stack: &mut Values,
    count: usize,
) -> Result<Option<Values>, Memory>
    ensures { IfOk result (λ taken. Takes taken stack.old stack.new count) }
{
    let len = stack.len();
    if len < count {
        return Ok(None);
    }
    Ok(Some(split_off(alloc, stack, len - count)?))
}

fn drop_times(alloc: Global, stack: &mut Values, count: usize) -> Result<bool, Memory>
    ensures { IfOk result (λ acted. Acts acted stack.new (pop_times count stack.old)) }
{
    match take_top(alloc, stack, count)? {
        Some(_) => Ok(true),
        None => Ok(false),
    }
}

fn dig_up(alloc: Global, stack: &mut Values, depth: usize) -> Result<bool, Memory>
    ensures { IfOk result (λ acted. Acts acted stack.new (dig depth stack.old)) }
{
    let len = stack.len();
    if len <= depth {
        return Ok(false);
    }
    let copy = stack.at(len - 1 - depth).copy(alloc)?;
    stack.push(copy)?;
    Ok(true)
}

#[tactic(auto, using(crate::proofs::Tops::bury_is))]
fn bury_top(stack: &mut Values, depth: usize) -> bool
    ensures { Acts result stack.new (bury depth stack.old) }
{
    let len = stack.len();
    if depth == 0 || len <= depth {
        return false;
    }
    match stack.pop() {
        Some(value) => {
            stack.set(len - 1 - depth, value);
            true
        }
        None => false,
    }
}

#[tactic(auto, using(crate::proofs::Tops::cover_is))]
fn cover_under(alloc: Global, stack: &mut Values, depth: usize) -> Result<bool, Memory>
    ensures { IfOk result (λ acted. Acts acted stack.new (cover depth stack.old)) }
{
    let len = stack.len();
    if len <= depth {
        return Ok(false);
    }
    match stack.pop() {
        Some(value) => {
            let above = split_off(alloc, stack, len - 1 - depth)?;
            stack.push(value)?;
            stack.append(above)?;
            Ok(true)
        }
        None => Ok(false),
    }
}

fn uncover_from(stack: &mut Values, depth: usize) -> Result<bool, Memory>
    ensures { IfOk result (λ acted. Acts acted stack.new (uncover depth stack.old)) }
{
    let len = stack.len();
    if len <= depth {
        return Ok(false);
    }
    let value = stack.remove(len - 1 - depth);
    stack.push(value)?;
    Ok(true)
}

/// The value on top.
fn top_of(stack: &[Value]) -> Option<&Value>
    ensures { option_copied result ≡ slice_get stack.now (length stack.now - 1) }
{
    stack.last()
}

fn push_copies(alloc: Global, stack: &mut Values, value: &Value, count: u8) -> Result<(), Memory>
    ensures { OnOk result (stack.new ≡ stack.old ++ replicate count value.now) }
{
    for _i in 0..count {
        stack.push(value.copy(alloc)?)?;
    }
    Ok(())
}

fn dup_top(alloc: Global, stack: &mut Values, count: u8) -> Result<bool, Memory>
    ensures { IfOk result (λ acted. Acts acted stack.new (dup_times count stack.old)) }
{
    let value = match top_of(stack.as_slice()) {
        Some(value) => value.copy(alloc)?,
        None => return Ok(false),
    };
    push_copies(alloc, stack, &value, count)?;
    Ok(true)
}

fn dup_two(alloc: Global, stack: &mut Values) -> Result<bool, Memory>
    ensures { IfOk result (λ acted. Acts acted stack.new (plain_row StackRow.Dup2 stack.old)) }
{
    let len = stack.len();
    if len < 2 {
        return Ok(false);
    }
    let deeper = stack.at(len - 2).copy(alloc)?;
    let upper = stack.at(len - 1).copy(alloc)?;
    stack.push(deeper)?;
    stack.push(upper)?;
    Ok(true)
}

fn swap_two(stack: &mut Values) -> Result<bool, Memory>
    ensures { IfOk result (λ acted. Acts acted stack.new (plain_row StackRow.Swap stack.old)) }
{
    uncover_from(stack, 1)
}

fn counted(alloc: Global, row: StackRow, count: u8, stack: &mut Values) -> Result<bool, Memory>
    ensures { IfOk result (λ acted. Acts acted stack.new (counted_row row count stack.old)) }
{
    let depth = usize::from(count);
    match row {
        StackRow::Bury => Ok(bury_top(stack, depth)),
        StackRow::PopN => drop_times(alloc, stack, depth),
        StackRow::DupN => dup_top(alloc, stack, count),
        StackRow::Dig => dig_up(alloc, stack, depth),
        StackRow::Cover => cover_under(alloc, stack, depth),
        StackRow::Uncover => uncover_from(stack, depth),
        _ => Ok(false),
    }
}

fn plain(alloc: Global, row: StackRow, stack: &mut Values) -> Result<bool, Memory>
    ensures { IfOk result (λ acted. Acts acted stack.new (plain_row row stack.old)) }
{
    match row {
        StackRow::Pop => drop_times(alloc, stack, 1),
        StackRow::Dup => dig_up(alloc, stack, 0),
        StackRow::Dup2 => dup_two(alloc, stack),
        StackRow::Swap => swap_two(stack),
        _ => Ok(false),
    }
}

/// Moves values as a row says, or says that it fails.
#[tactic(auto, unfolding(crate::specs::Stack::stack_row))]
pub(crate) fn move_values(
    alloc: Global,
    row: StackRow,
    imm: &Imm,
    stack: &mut Values,
) -> Result<bool, Memory>
    ensures { IfOk result (λ acted. Acts acted stack.new (stack_row row imm.now stack.old)) }
{
    match imm {
        Imm::Byte(count) => counted(alloc, row, *count, stack),
        Imm::Nothing => plain(alloc, row, stack),
        _ => Ok(false),
    }
}

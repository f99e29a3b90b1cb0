//! What each row does to the state (AVM specification, "Opcodes").
ghost use Rattle.std.specs.Prelude.{◌≡◌, ◌-◌, ◌<◌, ◌^◌, if◌then◌else◌, IfOk, map, option_map, slice_get};
ghost use Rattle.avm_ops.specs.Code.{HasForm};
ghost use Rattle.avm_ops.specs.Rows.{shape_of};
ghost use Rattle.avm_ops.specs.Table.{row_of};
ghost use Rattle.avm_run.specs.Machine.{act, act_by, declaring_act, effect, flow_act, frame_act, giving, opened, operand_act, returning, with_stack};
ghost use Rattle.avm_run.specs.Frames.{innermost};
ghost use Rattle.avm_run.specs.Stack.{stack_row};
ghost use Rattle.avm_run.specs.Bytes.{offsets_of, place, standing_of, target, targets_of};
ghost use Rattle.avm_run.specs.Answers.{Does, Effects};

use crate::constants::{constants, one_value};
use crate::fields::field_value;
use crate::flow::{Way, way_of};
use crate::frame::{Frame, Proto, bury_frame, declare, dig_frame, innermost_frame, return_from};
use crate::scratch::use_scratch;
use crate::stack::{move_values, take_top};
use crate::state::{Acted, State};
use crate::storage::use_storage;
use avm_ops::{Action, FlowRow, FrameRow, Imm, Instr, Row, StackRow, apply, row, shape};
use avm_state::Call;
use puya_base::{Memory, StepFault, Values};
use std::alloc::Global;

fn acted(went_on: bool) -> Acted
    ensures { result ≡ (if went_on then Acted.WentOn else Acted.Failed) }
{
    if went_on {
        Acted::WentOn
    } else {
        Acted::Failed
    }
}

/// The results of a row that takes operands, with what it changes beside the stack.
#[tactic(auto, unfolding(crate::specs::Machine::effect))]
fn effect_of(
    alloc: Global,
    action: Action,
    instr: &Instr,
    call: &Call,
    operands: &Values,
    state: &mut State,
) -> Result<Values, StepFault>
    ensures act { Effects result state.new (effect action instr.now call.now state.old operands.now) }
    ensures spent { state.new.spent ≡ state.old.spent }
{
    match action {
        Action::Value(_) => apply(alloc, instr, operands),
        Action::Constant(row) => constants(alloc, row, &instr.imm, &mut state.blocks),
        Action::Field(row) => Ok(one_value(
            alloc,
            field_value(alloc, row, &instr.imm, call, operands.as_slice())?,
        )?),
        Action::Scratch(row) => use_scratch(
            alloc,
            row,
            &instr.imm,
            &mut state.scratch,
            operands.as_slice(),
        ),
        Action::State(row) => use_storage(alloc, row, call, &mut state.ledger, operands.as_slice()),
        _ => Err(StepFault::Fails),
    }
}

/// Takes a row's operands, and puts its results in their place.
#[tactic(auto, unfolding(crate::specs::Machine::operand_act))]
fn act_on_operands(
    alloc: Global,
    action: Action,
    instr: &Instr,
    call: &Call,
    state: &mut State,
) -> Result<Acted, Memory>
    requires { HasForm instr.now }
    ensures act { IfOk result (λ a. Does a state.new (operand_act (shape_of instr.now).pops action instr.now call.now state.old)) }
    ensures spent { state.new.spent ≡ state.old.spent }
{
    let pops = shape(instr).pops as usize;
    let Some(operands) = take_top(alloc, &mut state.stack, pops)? else {
        return Ok(Acted::Failed);
    };
    match effect_of(alloc, action, instr, call, &operands, state) {
        Ok(results) => {
            state.stack.append(results)?;
            Ok(Acted::WentOn)
        }
        Err(StepFault::Fails) => Ok(Acted::Failed),
        Err(StepFault::Memory) => Err(Memory),
    }
}

/// Where an offset leads that is counted from the end of its instruction.
pub(crate) fn target_of(next: usize, offset: i16) -> i64
    requires { next < 2 ^ 63 - 2 ^ 15 }
    ensures { result ≡ target next offset }
{
    next as i64 + i64::from(offset)
}

/// The same as a place of the code: 0 for a target below 0, which no well-formed program has.
fn place_after(next: usize, offset: i16) -> usize
    requires { next < 2 ^ 63 - 2 ^ 15 }
    ensures { result ≡ place (target next offset) }
{
    let target = target_of(next, offset);
    if target < 0 { 0 } else { target as usize }
}

/// The branch offset of that number.
fn offset_at(imm: &Imm, number: u64) -> Option<i16>
    ensures { result ≡ slice_get (offsets_of imm.now) number }
{
    match imm {
        Imm::Jump(offset) => { if number == 0 { Some(*offset) } else { None } }
        Imm::Jumps(offsets) => offsets.get(number as usize).copied(),
        _ => None,
    }
}

/// The place to which an instruction branches by the target of that number.
fn target_place(next: usize, imm: &Imm, number: u64) -> Option<usize>
    requires { next < 2 ^ 63 - 2 ^ 15 }
    ensures { result ≡ slice_get (map place (targets_of next imm.now)) number }
{
    match offset_at(imm, number) {
        Some(offset) => Some(place_after(next, offset)),
        None => None,
    }
}

/// Takes a row's operands, and goes where they lead.
#[tactic(auto, unfolding(crate::specs::Machine::flow_act))]
fn act_on_flow(
    alloc: Global,
    row: FlowRow,
    instr: &Instr,
    state: &mut State,
) -> Result<Acted, Memory>
    requires form { HasForm instr.now }
    requires small { state.old.pc < 2 ^ 63 - 2 ^ 15 }
    ensures act { IfOk result (λ a. Does a state.new (flow_act (shape_of instr.now).pops row (standing_of instr.now state.old.pc).targets state.old)) }
    ensures spent { state.new.spent ≡ state.old.spent }
{
    let pops = shape(instr).pops as usize;
    let Some(operands) = take_top(alloc, &mut state.stack, pops)? else {
        return Ok(Acted::Failed);
    };
    match way_of(alloc, row, operands.as_slice())? {
        Way::Fails => Ok(Acted::Failed),
        Way::On => Ok(Acted::WentOn),
        Way::To(number) => {
            if let Some(place) = target_place(state.pc, &instr.imm, number) {
                state.pc = place;
            }
            Ok(Acted::WentOn)
        }
        Way::Returns(value) => Ok(Acted::Returned(value)),
    }
}

/// Opens a call that returns to the next instruction.
fn open_call(imm: &Imm, state: &mut State) -> Result<Acted, Memory>
    requires { state.old.pc < 2 ^ 63 - 2 ^ 15 }
    ensures act { IfOk result (λ a. Does a state.new (giving (option_map (opened state.old) (slice_get (map place (targets_of state.old.pc imm.now)) 0)))) }
    ensures spent { state.new.spent ≡ state.old.spent }
{
    let Some(place) = target_place(state.pc, imm, 0) else {
        return Ok(Acted::Failed);
    };
    state.frames.push(Frame {
        return_to: state.pc,
        pointer: state.stack.len(),
        proto: None,
    })?;
    state.pc = place;
    state.entering = true;
    Ok(Acted::WentOn)
}

/// Closes the innermost call.
fn close_call(alloc: Global, state: &mut State) -> Result<Acted, Memory>
    ensures act { IfOk result (λ a. Does a state.new (returning state.old (innermost state.old.frames))) }
    ensures spent { state.new.spent ≡ state.old.spent }
{
    let Some(frame) = innermost_frame(&state.frames) else {
        return Ok(Acted::Failed);
    };
    let _ = state.frames.pop();
    state.pc = frame.return_to;
    Ok(acted(return_from(alloc, frame, &mut state.stack)?))
}

/// Notes what the call that was just opened declares.
fn declare_call(args: u8, results: u8, entering: bool, state: &mut State) -> Acted
    ensures act { Does result state.new (declaring_act args results entering state.old) }
    ensures spent { state.new.spent ≡ state.old.spent }
{
    if entering && usize::from(args) <= state.stack.len() {
        declare(&mut state.frames, Proto { args, results });
        Acted::WentOn
    } else {
        Acted::Failed
    }
}

/// Rows of calls and frames.
#[tactic(auto, unfolding(crate::specs::Machine::frame_act))]
fn act_on_frames(
    alloc: Global,
    row: FrameRow,
    imm: &Imm,
    entering: bool,
    state: &mut State,
) -> Result<Acted, Memory>
    requires { state.old.pc < 2 ^ 63 - 2 ^ 15 }
    ensures act { IfOk result (λ a. Does a state.new (frame_act row imm.now (map place (targets_of state.old.pc imm.now)) entering state.old)) }
    ensures spent { state.new.spent ≡ state.old.spent }
{
    match (row, imm) {
        (FrameRow::CallSub, Imm::Jump(_)) => open_call(imm, state),
        (FrameRow::RetSub, Imm::Nothing) => close_call(alloc, state),
        (FrameRow::Proto, Imm::Two(args, results)) => Ok(declare_call(
            *args, *results, entering, state,
        )),
        (FrameRow::FrameDig, Imm::Signed(offset)) => Ok(acted(dig_frame(
            alloc,
            &state.frames,
            *offset,
            &mut state.stack,
        )?)),
        (FrameRow::FrameBury, Imm::Signed(offset)) => Ok(acted(bury_frame(
            &state.frames,
            *offset,
            &mut state.stack,
        ))),
        _ => Ok(Acted::Failed),
    }
}

fn act_on_stack(alloc: Global, row: StackRow, imm: &Imm, state: &mut State) -> Result<Acted, Memory>
    ensures act { IfOk result (λ a. Does a state.new (giving (option_map (with_stack state.old) (stack_row row imm.now state.old.stack)))) }
    ensures spent { state.new.spent ≡ state.old.spent }
{
    Ok(acted(move_values(alloc, row, imm, &mut state.stack)?))
}

#[tactic(auto, unfolding(crate::specs::Machine::act))]
fn act_as(
    alloc: Global,
    action: Action,
    instr: &Instr,
    call: &Call,
    entering: bool,
    state: &mut State,
) -> Result<Acted, Memory>
    requires form { HasForm instr.now }
    requires small { state.old.pc < 2 ^ 63 - 2 ^ 15 }
    ensures act { IfOk result (λ a. Does a state.new (act action (standing_of instr.now state.old.pc) call.now entering state.old)) }
    ensures spent { state.new.spent ≡ state.old.spent }
{
    match action {
        Action::Stack(row) => act_on_stack(alloc, row, &instr.imm, state),
        Action::Flow(row) => act_on_flow(alloc, row, instr, state),
        Action::Frame(row) => act_on_frames(alloc, row, &instr.imm, entering, state),
        Action::Value(_) => act_on_operands(alloc, action, instr, call, state),
        Action::Constant(_) => act_on_operands(alloc, action, instr, call, state),
        Action::Field(_) => act_on_operands(alloc, action, instr, call, state),
        Action::Scratch(_) => act_on_operands(alloc, action, instr, call, state),
        Action::State(_) => act_on_operands(alloc, action, instr, call, state),
    }
}

/// Does what the instruction says to the state, in which the next place stands already.
pub(crate) fn act_by_row(
    alloc: Global,
    instr: &Instr,
    call: &Call,
    entering: bool,
    state: &mut State,
) -> Result<Acted, Memory>
    requires form { HasForm instr.now }
    requires small { state.old.pc < 2 ^ 63 - 2 ^ 15 }
    ensures act { IfOk result (λ a. Does a state.new (act_by (row_of instr.now.op) (standing_of instr.now state.old.pc) call.now entering state.old)) }
    ensures spent { state.new.spent ≡ state.old.spent }
{
    match row(instr.op) {
        Some(row) => act_as(alloc, row.action, instr, call, entering, state),
        None => Ok(Acted::Failed),
    }
}

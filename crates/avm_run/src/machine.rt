ghost use Rattle.std.specs.Prelude.{◌≡◌, ℕ, ◌+◌, ◌-◌, ◌≤◌, ◌<◌, ◌^◌, List, [], ◌∷◌, length, IfNone, IfOk, IfSome};
ghost use Rattle.avm_ops.specs.Code.{HasForm};
ghost use Rattle.avm_ops.specs.Rows.{shape_of};
ghost use Rattle.avm_run.specs.Machine.{Next, decision, goes_on, perform, start, turn};
ghost use Rattle.avm_run.specs.Bytes.{code_of, run_of, standing_of};
ghost use Rattle.avm_run.specs.Answers.{Finds, Turns, outcome_of, ran_of};
ghost use Rattle.avm_state.specs.LedgerState.{LedgerState};

use crate::blocks::Blocks;
use crate::outcome::{Outcome, Ran};
use crate::program::Program;
use crate::rows::act_by_row;
use crate::scratch::empty_scratch;
use crate::state::{Acted, State};
use avm_ops::{DecodeFault, Instr, decode_at, shape};
use avm_state::{Call, Ledger};
use puya_base::{List, Memory, Value};
use std::alloc::Global;

/// The most values on the stack between instructions.
const MAX_DEPTH: usize = 1000;

/// How a run ends, without the ledger.
#[derive(Clone, Copy, Debug, PartialEq, Eq)]
pub enum Verdict {
    Approves,
    Rejects,
    PassesBudget,
    PassesDepth,
}

/// The end of a run, without the ledger.
#[derive(Clone, Copy, Debug, PartialEq, Eq)]
pub struct Halt {
    pub verdict: Verdict,
    pub pc: usize,
    pub spent: u64,
}

/// Whether the stack is one number that isn't 0.
fn verdict_on(stack: &[Value]) -> Verdict
    ensures { (ledger : LedgerState) → outcome_of result ledger ≡ decision ledger stack.now }
{
    match stack {
        [Value::Int(number)] => {
            if *number == 0 {
                Verdict::Rejects
            } else {
                Verdict::Approves
            }
        }
        _ => Verdict::Rejects,
    }
}

fn verdict_of(value: Value) -> Verdict
    ensures { (ledger : LedgerState) → outcome_of result ledger ≡ decision ledger (value ∷ []) }
{
    match value {
        Value::Int(0) => Verdict::Rejects,
        Value::Int(_) => Verdict::Approves,
        Value::Bytes(_) => Verdict::Rejects,
    }
}

/// Does an instruction whose cost the budget covers: the end of the run, or none where it goes on from the new state.
fn perform_instruction(
    alloc: Global,
    instr: &Instr,
    next: usize,
    call: &Call,
    state: &mut State,
) -> Result<Option<Halt>, Memory>
    requires form { HasForm instr.now }
    requires small { next < 2 ^ 63 - 2 ^ 15 }
    requires cost { state.old.spent + (shape_of instr.now).cost ≤ call.now.budget }
    ensures turn { IfOk result (λ h. Turns h state.new (perform (standing_of instr.now next) call.now state.old)) }
    ensures spent { IfOk result (λ h. IfNone h (state.new.spent ≡ state.old.spent + (shape_of instr.now).cost)) }
    ensures halted { IfOk result (λ h. IfSome h (λ e. e.spent ≤ call.now.budget)) }
{
    let _budget = call.budget;
    let pc = state.pc;
    let spent = state.spent + shape(instr).cost;
    let entering = state.entering;
    state.pc = next;
    state.spent = spent;
    state.entering = false;
    let verdict = match act_by_row(alloc, instr, call, entering, state)? {
        Acted::Failed => Verdict::Rejects,
        Acted::Returned(value) => verdict_of(value),
        Acted::WentOn => {
            if state.stack.len() <= MAX_DEPTH {
                return Ok(None);
            }
            Verdict::PassesDepth
        }
    };
    Ok(Some(Halt { verdict, pc, spent }))
}

/// What stands at a place, and the place after it; at the end of the program nothing does.
fn standing_at(alloc: Global, code: &[u8], pc: usize) -> Result<Option<(Instr, usize)>, Memory>
    ensures found { IfOk result (λ o. Finds o ((code_of code.now).at pc)) }
    ensures form { IfOk result (λ o. IfSome o (λ p. HasForm p.0)) }
    ensures within { IfOk result (λ o. IfSome o (λ p. p.1 ≤ length code.now)) }
{
    if code.len() <= pc {
        return Ok(None);
    }
    match decode_at(alloc, code, pc) {
        Ok(found) => Ok(Some(found)),
        Err(DecodeFault::Memory) => Err(Memory),
        Err(_) => Ok(None),
    }
}

/// One step of the run.
#[tactic(auto, unfolding(crate::specs::Machine::turn))]
fn step(alloc: Global, code: &[u8], call: &Call, state: &mut State) -> Result<Option<Halt>, Memory>
    requires length { length code.now < 2 ^ 62 }
    requires spent { state.old.spent ≤ call.now.budget }
    ensures turn { IfOk result (λ h. Turns h state.new (turn (code_of code.now) call.now state.old)) }
    ensures spent { IfOk result (λ h. IfNone h (state.new.spent ≤ call.now.budget)) }
    ensures halted { IfOk result (λ h. IfSome h (λ e. e.spent ≤ call.now.budget)) }
{
    let pc = state.pc;
    let spent = state.spent;
    let Some((instr, next)) = standing_at(alloc, code, pc)? else {
        let verdict = verdict_on(state.stack.as_slice());
        return Ok(Some(Halt { verdict, pc, spent }));
    };
    if call.budget - spent < shape(&instr).cost {
        let verdict = Verdict::PassesBudget;
        return Ok(Some(Halt { verdict, pc, spent }));
    }
    perform_instruction(alloc, &instr, next, call, state)
}

fn ended(halt: Halt, ledger: Ledger) -> Ran
    ensures { result ≡ ran_of halt ledger }
{
    let outcome = match halt.verdict {
        Verdict::Approves => Outcome::Approved(ledger),
        Verdict::Rejects => Outcome::Rejected,
        Verdict::PassesBudget => Outcome::OverBudget,
        Verdict::PassesDepth => Outcome::OverDepth,
    };
    Ran {
        outcome,
        pc: halt.pc,
        spent: halt.spent,
    }
}

/// The state in which a run starts: at place 1, with nothing but the ledger.
fn start_state(alloc: Global, ledger: Ledger) -> Result<State, Memory>
    ensures { IfOk result (λ s. (code : List ℕ) → s ≡ start (code_of code) ledger) }
{
    Ok(State {
        pc: 1,
        spent: 0,
        entering: false,
        stack: List::new(alloc),
        frames: List::new(alloc),
        scratch: empty_scratch(alloc)?,
        blocks: Blocks {
            ints: List::new(alloc),
            blobs: List::new(alloc),
        },
        ledger,
    })
}

/// Steps until the run ends, which it does within its budget and one step more.
fn halt_of(alloc: Global, code: &[u8], call: &Call, state: &mut State) -> Result<Halt, Memory>
    requires length { length code.now < 2 ^ 62 }
    requires fresh { state.old.spent ≡ 0 }
    ensures value { IfOk result (λ h. ran_of h state.new.ledger ≡ goes_on (code_of code.now) call.now (call.now.budget + 1) (Next state.old)) }
    ensures within { IfOk result (λ h. h.spent ≤ call.now.budget) }
{
    for _turn in 0..call.budget {
        let halt = step(alloc, code, call, state)?;
        match halt {
            Some(halt) => return Ok(halt),
            None => {}
        }
    }
    let halt = step(alloc, code, call, state)?;
    match halt {
        Some(halt) => Ok(halt),
        None => Ok(Halt {
            verdict: Verdict::PassesBudget,
            pc: state.pc,
            spent: state.spent,
        }),
    }
}

/// Runs a program on a call from a ledger, exactly as the machine's definition says.
///
/// The ledger is given up: only an approved run hands one back. The only error is want of memory.
pub fn run(alloc: Global, program: &Program, call: &Call, start: Ledger) -> Result<Ran, Memory>
    ensures value { IfOk result (λ ran. ran ≡ run_of program.now call.now start) }
    ensures within { IfOk result (λ ran. ran.spent ≤ call.now.budget) }
{
    let mut state = start_state(alloc, start)?;
    let halt = halt_of(alloc, program.bytes(), call, &mut state)?;
    Ok(ended(halt, state.ledger))
}

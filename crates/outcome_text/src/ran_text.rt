ghost use Rattle.std.specs.Prelude.{◌≡◌, ◌++◌, codes, OnOk};
ghost use Rattle.outcome_text.specs.Text.{cost_line, ledger_lines, outcome_lines, stop_line, text_of};

use crate::ledger_text::push_ledger;
use crate::lines::{push_cost, push_stop};
use avm_run::{Outcome, Ran};
use avm_state::Ledger;
use puya_base::{Blob, Memory};
use std::alloc::Global;

/// Appends how and where the run stopped, and what it cost.
fn push_stopped(
    alloc: Global,
    out: &mut Blob,
    how: &[u8],
    pc: usize,
    spent: u64,
) -> Result<(), Memory>
    ensures { OnOk result (out.new ≡ out.old ++ (stop_line how.now pc ++ cost_line spent)) }
{
    push_stop(alloc, out, how, pc)?;
    push_cost(alloc, out, spent)
}

/// Appends an approval with its cost, its logs and its state.
fn push_approved(alloc: Global, out: &mut Blob, ledger: &Ledger, spent: u64) -> Result<(), Memory>
    ensures { OnOk result (out.new ≡ out.old ++ (codes "approved\n" ++ (cost_line spent ++ ledger_lines ledger.now))) }
{
    out.extend(b"approved\n")?;
    push_cost(alloc, out, spent)?;
    push_ledger(alloc, out, ledger)
}

/// Appends how a run ended: how and where, what it cost, and for an approved one its logs and its whole new state.
/// The only error is want of memory; what `out` then holds is open.
#[tactic(auto, unfolding(crate::specs::Text::outcome_lines))]
pub fn push_ran(alloc: Global, out: &mut Blob, ran: &Ran) -> Result<(), Memory>
    ensures { OnOk result (out.new ≡ out.old ++ text_of ran.now) }
{
    match &ran.outcome {
        Outcome::Approved(ledger) => push_approved(alloc, out, ledger, ran.spent),
        Outcome::Rejected => push_stopped(alloc, out, b"rejected", ran.pc, ran.spent),
        Outcome::OverBudget => push_stopped(alloc, out, b"over budget", ran.pc, ran.spent),
        Outcome::OverDepth => push_stopped(alloc, out, b"over depth", ran.pc, ran.spent),
    }
}

ghost use Rattle.std.specs.Prelude.{◌≡◌, ◌++◌, ◌<◌, length, map, slice_get, option_map, OnOk, Some};
ghost use Rattle.std.specs.FinMap as finmap;
ghost use Rattle.outcome_text.specs.Text.{global_line, local_line, box_line, log_lines, global_lines, local_lines, box_lines, ledger_lines};

use crate::lines::{push_hex, push_log, push_value};
use avm_state::Ledger;
use puya_base::{Blob, Memory, Value};
use std::alloc::Global;

#[tactic(auto, unfolding(crate::specs::Text::global_line))]
fn push_global(alloc: Global, out: &mut Blob, key: &[u8], value: &Value) -> Result<(), Memory>
    ensures { OnOk result (out.new ≡ out.old ++ global_line (key.now, value.now)) }
{
    out.extend(b"global ")?;
    push_hex(alloc, out, key)?;
    out.extend(b" ")?;
    push_value(alloc, out, value)?;
    out.extend(b"\n")
}

#[tactic(auto, unfolding(crate::specs::Text::local_line))]
fn push_local(
    alloc: Global,
    out: &mut Blob,
    account: &[u8],
    key: &[u8],
    value: &Value,
) -> Result<(), Memory>
    ensures { OnOk result (out.new ≡ out.old ++ local_line ((account.now, key.now), value.now)) }
{
    out.extend(b"local ")?;
    push_hex(alloc, out, account)?;
    out.extend(b" ")?;
    push_hex(alloc, out, key)?;
    out.extend(b" ")?;
    push_value(alloc, out, value)?;
    out.extend(b"\n")
}

#[tactic(auto, unfolding(crate::specs::Text::box_line))]
fn push_box(alloc: Global, out: &mut Blob, name: &[u8], bytes: &[u8]) -> Result<(), Memory>
    ensures { OnOk result (out.new ≡ out.old ++ box_line (name.now, bytes.now)) }
{
    out.extend(b"box ")?;
    push_hex(alloc, out, name)?;
    out.extend(b" ")?;
    push_hex(alloc, out, bytes)?;
    out.extend(b"\n")
}

fn push_logs(alloc: Global, out: &mut Blob, ledger: &Ledger) -> Result<(), Memory>
    ensures { OnOk result (out.new ≡ out.old ++ log_lines ledger.now) }
{
    for i in 0..ledger.log_count() {
        push_log(alloc, out, ledger.log(i))?;
    }
    Ok(())
}

fn push_globals(alloc: Global, out: &mut Blob, ledger: &Ledger) -> Result<(), Memory>
    ensures { OnOk result (out.new ≡ out.old ++ global_lines ledger.now) }
{
    for i in 0..ledger.global_count() {
        push_global(alloc, out, ledger.global_key(i), ledger.global_value(i))?;
    }
    Ok(())
}

fn push_locals(alloc: Global, out: &mut Blob, ledger: &Ledger) -> Result<(), Memory>
    ensures { OnOk result (out.new ≡ out.old ++ local_lines ledger.now) }
{
    for i in 0..ledger.local_count() {
        push_local(
            alloc,
            out,
            ledger.local_account(i),
            ledger.local_key(i),
            ledger.local_value(i),
        )?;
    }
    Ok(())
}

fn push_boxes(alloc: Global, out: &mut Blob, ledger: &Ledger) -> Result<(), Memory>
    ensures { OnOk result (out.new ≡ out.old ++ box_lines ledger.now) }
{
    for i in 0..ledger.box_count() {
        push_box(alloc, out, ledger.box_name(i), ledger.box_bytes(i))?;
    }
    Ok(())
}

/// Appends the logs and the state.
#[tactic(auto, unfolding(crate::specs::Text::ledger_lines))]
pub(crate) fn push_ledger(alloc: Global, out: &mut Blob, ledger: &Ledger) -> Result<(), Memory>
    ensures { OnOk result (out.new ≡ out.old ++ ledger_lines ledger.now) }
{
    push_logs(alloc, out, ledger)?;
    push_globals(alloc, out, ledger)?;
    push_locals(alloc, out, ledger)?;
    push_boxes(alloc, out, ledger)
}

ghost use Rattle.serde_json.specs.View.{view};
ghost use Rattle.std.specs.Prelude.{◌≡◌};
ghost use Rattle.call_file.specs.Faults.{Puts, form_fault};
ghost use Rattle.call_file.specs.Loads.{globals, opted, locals, boxes, put_new, puts};

use crate::fault::FormFault;
use crate::load::Part;
use crate::values::{pair_of, read_bytes, read_stored, triple_of};
use avm_state::Ledger;
use puya_base::{StepFault, Value as Stored};
use serde_json::Value;
use std::alloc::Global;

/// The bytes of an address, the most of a key and of a box name, and the most of a box.
const ADDRESS: usize = 32;

const MOST_KEY: usize = 64;

const MOST_BOX: usize = 32768;

/// Why a step on a ledger did not act.
fn fault_of(fault: StepFault) -> FormFault
    ensures { result ≡ form_fault fault }
{
    match fault {
        StepFault::Fails => FormFault::Bad,
        StepFault::Memory => FormFault::Memory,
    }
}

/// Sets a global value whose key is new.
fn put_global(ledger: &mut Ledger, key: &[u8], value: &Stored) -> Result<(), FormFault>
    ensures { Puts (put_new globals ledger.old (key.now, value.now)) ledger.new result }
{
    let count = ledger.global_count();
    match ledger.global_put(key, value) {
        Ok(()) => {
            if ledger.global_count() == count {
                Err(FormFault::Bad)
            } else {
                Ok(())
            }
        }
        Err(fault) => Err(fault_of(fault)),
    }
}

/// Opts in an account that has not: an account that has would take a local value.
fn put_opted(ledger: &mut Ledger, account: &[u8]) -> Result<(), FormFault>
    ensures { Puts (put_new opted ledger.old account.now) ledger.new result }
{
    match ledger.set_local(account, &[], &Stored::Int(0)) {
        Ok(()) => Err(FormFault::Bad),
        Err(StepFault::Memory) => Err(FormFault::Memory),
        Err(StepFault::Fails) => Ok(ledger.opt_in(account)?),
    }
}

/// Sets a local value whose account and key are new.
fn put_local(
    ledger: &mut Ledger,
    account: &[u8],
    key: &[u8],
    value: &Stored,
) -> Result<(), FormFault>
    ensures { Puts (put_new locals ledger.old (account.now, (key.now, value.now))) ledger.new result }
{
    let count = ledger.local_count();
    match ledger.set_local(account, key, value) {
        Ok(()) => {
            if ledger.local_count() == count {
                Err(FormFault::Bad)
            } else {
                Ok(())
            }
        }
        Err(fault) => Err(fault_of(fault)),
    }
}

/// Makes a box whose name is new.
fn put_box(ledger: &mut Ledger, name: &[u8], bytes: &[u8]) -> Result<(), FormFault>
    ensures { Puts (put_new boxes ledger.old (name.now, bytes.now)) ledger.new result }
{
    let count = ledger.box_count();
    match ledger.set_box(name, bytes) {
        Ok(()) => {
            if ledger.box_count() == count {
                Err(FormFault::Bad)
            } else {
                Ok(())
            }
        }
        Err(fault) => Err(fault_of(fault)),
    }
}

/// The pairs of the field `global`: a key and its value.
#[derive(Drop)]
pub(crate) struct Globals;

impl Part for Globals {
    ghost puts = { λ _. puts globals };

    fn put(&self, alloc: Global, item: &Value, ledger: &mut Ledger) -> Result<(), FormFault> {
        match pair_of(item) {
            Some((key, value)) => {
                let key = read_bytes(alloc, key, 0, MOST_KEY)?;
                let value = read_stored(alloc, value)?;
                put_global(ledger, key.as_slice(), &value)
            }
            None => Err(FormFault::Bad),
        }
    }
}

/// The addresses of the field `opted`.
#[derive(Drop)]
pub(crate) struct Opted;

impl Part for Opted {
    ghost puts = { λ _. puts opted };

    fn put(&self, alloc: Global, item: &Value, ledger: &mut Ledger) -> Result<(), FormFault> {
        let account = read_bytes(alloc, item, ADDRESS, ADDRESS)?;
        put_opted(ledger, account.as_slice())
    }
}

/// The triples of the field `local`: an account, a key of its own and the value.
#[derive(Drop)]
pub(crate) struct Locals;

impl Part for Locals {
    ghost puts = { λ _. puts locals };

    fn put(&self, alloc: Global, item: &Value, ledger: &mut Ledger) -> Result<(), FormFault> {
        match triple_of(item) {
            Some((account, key, value)) => {
                let account = read_bytes(alloc, account, ADDRESS, ADDRESS)?;
                let key = read_bytes(alloc, key, 0, MOST_KEY)?;
                let value = read_stored(alloc, value)?;
                put_local(ledger, account.as_slice(), key.as_slice(), &value)
            }
            None => Err(FormFault::Bad),
        }
    }
}

/// The pairs of the field `box`: a name and the bytes.
#[derive(Drop)]
pub(crate) struct Boxes;

impl Part for Boxes {
    ghost puts = { λ _. puts boxes };

    fn put(&self, alloc: Global, item: &Value, ledger: &mut Ledger) -> Result<(), FormFault> {
        match pair_of(item) {
            Some((name, bytes)) => {
                let name = read_bytes(alloc, name, 1, MOST_KEY)?;
                let bytes = read_bytes(alloc, bytes, 0, MOST_BOX)?;
                put_box(ledger, name.as_slice(), bytes.as_slice())
            }
            None => Err(FormFault::Bad),
        }
    }
}

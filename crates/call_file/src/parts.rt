ghost use Rattle.serde_json.specs.View.{view};
ghost use Rattle.call_file.specs.Faults.{Answers};
ghost use Rattle.call_file.specs.Saved.{act_of, origin_of, reach_of, setting_of, call_of, joined};
ghost use Rattle.std.specs.Prelude.{◌≡◌};

use crate::fault::CallFault;
use crate::field::field;
use crate::forms::{Arguments, Bytes, Completion, Flag, FromOne, Number, Texts, Within};
use avm_state::Call;
use puya_base::{Blob, Blobs};
use serde_json::Value;
use std::alloc::Global;

/// The bytes of an address.
const ADDRESS: usize = 32;

/// The most bytes of the note.
const MOST_NOTE: usize = 1024;

/// The most accounts that a call may name, the most boxes, and the most bytes of a box name.
const MOST_ACCOUNTS: usize = 4;

const MOST_BOXES: usize = 8;

const MOST_NAME: usize = 64;

/// The most cost that a call may spend.
const MOST_BUDGET: u64 = 11200;

/// What is called, and with what.
#[derive(Drop)]
pub(crate) struct Act {
    pub(crate) application: u64,
    pub(crate) creating: bool,
    pub(crate) on_completion: u8,
    pub(crate) args: Blobs,
}

/// Who calls.
#[derive(Drop)]
pub(crate) struct Origin {
    pub(crate) sender: Blob,
    pub(crate) fee: u64,
    pub(crate) note: Blob,
}

/// What the call may touch.
#[derive(Drop)]
pub(crate) struct Reach {
    pub(crate) accounts: Blobs,
    pub(crate) boxes: Blobs,
}

/// When and under which limits the call runs.
#[derive(Drop)]
pub(crate) struct Setting {
    pub(crate) round: u64,
    pub(crate) timestamp: u64,
    pub(crate) creator: Blob,
    pub(crate) budget: u64,
}

fn read_act(alloc: Global, object: &Value) -> Result<Act, CallFault>
    ensures { Answers (act_of (view object.now)) result }
{
    let application = field(alloc, object, "application", FromOne)?;
    let creating = field(alloc, object, "creating", Flag)?;
    let on_completion = field(alloc, object, "on_completion", Completion { creating })?;
    let args = field(alloc, object, "args", Arguments)?;
    Ok(Act {
        application,
        creating,
        on_completion,
        args,
    })
}

fn read_origin(alloc: Global, object: &Value) -> Result<Origin, CallFault>
    ensures { Answers (origin_of (view object.now)) result }
{
    let sender = field(
        alloc,
        object,
        "sender",
        Bytes {
            low: ADDRESS,
            high: ADDRESS,
        },
    )?;
    let fee = field(alloc, object, "fee", Number)?;
    let note = field(
        alloc,
        object,
        "note",
        Bytes {
            low: 0,
            high: MOST_NOTE,
        },
    )?;
    Ok(Origin { sender, fee, note })
}

fn read_reach(alloc: Global, object: &Value) -> Result<Reach, CallFault>
    ensures { Answers (reach_of (view object.now)) result }
{
    let accounts = field(
        alloc,
        object,
        "accounts",
        Texts {
            most: MOST_ACCOUNTS,
            low: ADDRESS,
            high: ADDRESS,
        },
    )?;
    let boxes = field(
        alloc,
        object,
        "boxes",
        Texts {
            most: MOST_BOXES,
            low: 1,
            high: MOST_NAME,
        },
    )?;
    Ok(Reach { accounts, boxes })
}

fn read_setting(alloc: Global, object: &Value) -> Result<Setting, CallFault>
    ensures { Answers (setting_of (view object.now)) result }
{
    let round = field(alloc, object, "round", Number)?;
    let timestamp = field(alloc, object, "timestamp", Number)?;
    let creator = field(
        alloc,
        object,
        "creator",
        Bytes {
            low: ADDRESS,
            high: ADDRESS,
        },
    )?;
    let budget = field(
        alloc,
        object,
        "budget",
        Within {
            low: 1,
            high: MOST_BUDGET,
        },
    )?;
    Ok(Setting {
        round,
        timestamp,
        creator,
        budget,
    })
}

fn joined(act: Act, origin: Origin, reach: Reach, setting: Setting) -> Call
    ensures { result ≡ joined act origin reach setting }
{
    Call {
        application: act.application,
        creating: act.creating,
        on_completion: act.on_completion,
        args: act.args,
        sender: origin.sender,
        fee: origin.fee,
        note: origin.note,
        accounts: reach.accounts,
        boxes: reach.boxes,
        round: setting.round,
        timestamp: setting.timestamp,
        creator: setting.creator,
        budget: setting.budget,
    }
}

/// The call of the file, or its first fault.
pub(crate) fn read_parts(alloc: Global, object: &Value) -> Result<Call, CallFault>
    ensures { Answers (call_of (view object.now)) result }
{
    let act = read_act(alloc, object)?;
    let origin = read_origin(alloc, object)?;
    let reach = read_reach(alloc, object)?;
    let setting = read_setting(alloc, object)?;
    Ok(joined(act, origin, reach, setting))
}

//! Calls of subroutines and their frames (AVM specification, "Subroutines" and "Frame Pointers").
ghost use Rattle.std.specs.Prelude.{◌≡◌, IfOk};
ghost use Rattle.avm_run.specs.Frames.{declared, frame_bury, frame_dig, frame_place, frame_set, innermost, is_within, moved, moved_down, returned, within};
ghost use Rattle.avm_run.specs.Answers.{Acts};

use puya_base::{At, List, Memory, Value, Values, split_off};
use std::alloc::Global;

/// What a subroutine declares: how many arguments it takes off the stack and how many results it leaves.
#[derive(Clone, Copy, Debug, PartialEq, Eq)]
pub struct Proto {
    pub args: u8,
    pub results: u8,
}

/// An open call.
#[derive(Clone, Copy, Debug, PartialEq, Eq)]
pub struct Frame {
    /// Where `retsub` goes.
    pub return_to: usize,
    /// The frame pointer: the stack's length when the call was opened.
    pub pointer: usize,
    pub proto: Option<Proto>,
}

/// The open calls, the innermost last.
pub type Frames = List<Frame>;

pub(crate) fn innermost_frame(frames: &Frames) -> Option<Frame>
    ensures { result ≡ innermost frames.now }
{
    frames.as_slice().last().copied()
}

fn reaches(proto: Option<Proto>, offset: i8) -> bool
    ensures { result ≡ is_within proto offset }
{
    match proto {
        None => true,
        Some(proto) => offset >= 0 || offset.unsigned_abs() <= proto.args,
    }
}

/// A place so far from another, if it is below a length.
fn moved_by(pointer: usize, offset: i8, len: usize) -> Option<usize>
    ensures { result ≡ within len (moved pointer offset) }
{
    let at = if offset >= 0 {
        pointer.saturating_add(offset as usize)
    } else {
        pointer.checked_sub(usize::from(offset.unsigned_abs()))?
    };
    if at < len { Some(at) } else { None }
}

/// The place on a stack of that length that an offset from the innermost frame pointer names.
fn place_of(frames: &Frames, offset: i8, len: usize) -> Option<usize>
    ensures { result ≡ frame_place frames.now offset len }
{
    match innermost_frame(frames) {
        Some(frame) => {
            if reaches(frame.proto, offset) {
                moved_by(frame.pointer, offset, len)
            } else {
                None
            }
        }
        None => None,
    }
}

/// Copies the value at an offset to the top, or says that the row fails.
pub(crate) fn dig_frame(
    alloc: Global,
    frames: &Frames,
    offset: i8,
    stack: &mut Values,
) -> Result<bool, Memory>
    ensures { IfOk result (λ acted. Acts acted stack.new (frame_dig frames.now offset stack.old)) }
{
    let Some(at) = place_of(frames, offset, stack.len()) else {
        return Ok(false);
    };
    let copy = stack.at(at).copy(alloc)?;
    stack.push(copy)?;
    Ok(true)
}

/// Puts a value at an offset, or says that there is no such place.
fn set_in_frame(frames: &Frames, offset: i8, stack: &mut Values, value: Value) -> bool
    ensures { Acts result stack.new (frame_set frames.now offset stack.old value) }
{
    let Some(at) = place_of(frames, offset, stack.len()) else {
        return false;
    };
    stack.set(at, value);
    true
}

/// Pops the top and puts it at an offset, or says that the row fails.
#[tactic(auto, using(crate::proofs::Tops::frame_bury_is))]
pub(crate) fn bury_frame(frames: &Frames, offset: i8, stack: &mut Values) -> bool
    ensures { Acts result stack.new (frame_bury frames.now offset stack.old) }
{
    match stack.pop() {
        Some(value) => set_in_frame(frames, offset, stack, value),
        None => false,
    }
}

/// Notes what the innermost call declares.
pub(crate) fn declare(frames: &mut Frames, proto: Proto)
    ensures { frames.new ≡ declared proto.args proto.results frames.old }
{
    let len = frames.len();
    if len == 0 {
        return;
    }
    let frame = *frames.at(len - 1);
    frames.set(
        len - 1,
        Frame {
            return_to: frame.return_to,
            pointer: frame.pointer,
            proto: Some(proto),
        },
    );
}

/// Moves the results of a call down over its arguments, or says that they are missing.
fn move_results(
    alloc: Global,
    pointer: usize,
    proto: Proto,
    stack: &mut Values,
) -> Result<bool, Memory>
    ensures { IfOk result (λ acted. Acts acted stack.new (moved_down pointer proto stack.old)) }
{
    let results = usize::from(proto.results);
    let len = stack.len();
    if len < pointer || len - pointer < results {
        return Ok(false);
    }
    let mut moved = split_off(alloc, stack, pointer)?;
    let _above = split_off(alloc, &mut moved, results)?;
    let _args = split_off(
        alloc,
        stack,
        pointer.saturating_sub(usize::from(proto.args)),
    )?;
    stack.append(moved)?;
    Ok(true)
}

/// Leaves the stack as a return does, or says that it fails.
pub(crate) fn return_from(alloc: Global, frame: Frame, stack: &mut Values) -> Result<bool, Memory>
    ensures { IfOk result (λ acted. Acts acted stack.new (returned frame frame.proto stack.old)) }
{
    match frame.proto {
        None => Ok(true),
        Some(proto) => move_results(alloc, frame.pointer, proto, stack),
    }
}

ghost use Rattle.std.specs.Prelude.{◌≡◌, replicate, IfOk};
ghost use Rattle.std.specs.FinMap as map;
ghost use Rattle.avm_state.specs.Steps.{has_length_if_there, box_create_step, box_get_step, box_put_step, box_del_step, box_len_step, box_extract_step, box_replace_step, set_box_step, Steps, StepsInPlace, Reads, ReadsInPlace};
ghost use Rattle.avm_state.specs.Forms.{IsStarting};

use crate::call::{Call, may_name_box};
use crate::ledger::Ledger;
use puya_base::{Blob, Memory, StepFault};
use std::alloc::Global;

/// The most bytes of a box.
const BOX_LIMIT: usize = 32768;

/// The most bytes of a value on the stack.
const VALUE_LIMIT: usize = 4096;

/// So many zero bytes.
fn zeros(alloc: Global, size: usize) -> Result<Blob, Memory>
    ensures { IfOk result (λ bytes. bytes ≡ replicate size 0) }
{
    let bytes = vec![in alloc; 0; size]?;
    Ok(Blob::from_vec(bytes))
}

impl Ledger {
    /// True: the box is made, filled with zeros. False: it was there. Fails where the name is refused, the size is
    /// over 32,768 bytes, or the box is there with another size (AVM specification, box_create).
    pub fn box_create(&mut self, call: &Call, name: &[u8], size: u64) -> Result<bool, StepFault>
        ensures { Steps (box_create_step call.now self.old name.now size) self.old self.new result }
    {
        if call.refuses_box(name) || size > BOX_LIMIT as u64 {
            return Err(StepFault::Fails);
        }
        match self.boxes.get(name) {
            Some(bytes) => {
                if bytes.len() as u64 == size {
                    Ok(false)
                } else {
                    Err(StepFault::Fails)
                }
            }
            None => {
                let bytes = zeros(self.alloc, size as usize)?;
                self.boxes.put(self.alloc, name, bytes)?;
                Ok(true)
            }
        }
    }

    /// The bytes of a box, if it is there; fails where the name is refused or the box is over 4096 bytes
    /// (AVM specification, box_get).
    pub fn box_get(
        &self,
        alloc: Global,
        call: &Call,
        name: &[u8],
    ) -> Result<Option<Blob>, StepFault>
        ensures { Reads (box_get_step call.now self.now name.now) self.now result }
    {
        if call.refuses_box(name) {
            return Err(StepFault::Fails);
        }
        match self.boxes.get(name) {
            Some(bytes) => {
                if bytes.len() > VALUE_LIMIT {
                    return Err(StepFault::Fails);
                }
                Ok(Some(bytes.copy(alloc)?))
            }
            None => Ok(None),
        }
    }

    /// Makes a box, or sets one of the same length; fails where the name is refused or the box is there with another
    /// length (AVM specification, box_put).
    pub fn box_put(&mut self, call: &Call, name: &[u8], value: &[u8]) -> Result<(), StepFault>
        ensures { Steps (box_put_step call.now self.old name.now value.now) self.old self.new result }
    {
        if call.refuses_box(name) || !self.has_length_if_there(name, value.len()) {
            return Err(StepFault::Fails);
        }
        let bytes = Blob::from_slice(self.alloc, value)?;
        self.boxes.put(self.alloc, name, bytes)?;
        Ok(())
    }

    /// Removes a box, and says whether it was there; fails where the name is refused, and takes no memory
    /// (AVM specification, box_del).
    pub fn box_del(&mut self, call: &Call, name: &[u8]) -> Result<bool, StepFault>
        ensures { StepsInPlace (box_del_step call.now self.old name.now) self.old self.new result }
    {
        if call.refuses_box(name) {
            return Err(StepFault::Fails);
        }
        Ok(self.boxes.remove(name))
    }

    /// The length of a box in bytes, if it is there; fails where the name is refused, and takes no memory
    /// (AVM specification, box_len).
    pub fn box_len(&self, call: &Call, name: &[u8]) -> Result<Option<u64>, StepFault>
        ensures { ReadsInPlace (box_len_step call.now self.now name.now) self.now result }
    {
        if call.refuses_box(name) {
            return Err(StepFault::Fails);
        }
        match self.boxes.get(name) {
            Some(bytes) => Ok(Some(bytes.len() as u64)),
            None => Ok(None),
        }
    }

    /// The `len` bytes of a box from `start` on; fails where the name is refused, there is no box, the part is not
    /// within it, or `len` is over 4096 (AVM specification, box_extract).
    pub fn box_extract(
        &self,
        alloc: Global,
        call: &Call,
        name: &[u8],
        start: u64,
        len: u64,
    ) -> Result<Blob, StepFault>
        ensures { Reads (box_extract_step call.now self.now name.now start len) self.now result }
    {
        if call.refuses_box(name) || len > VALUE_LIMIT as u64 {
            return Err(StepFault::Fails);
        }
        let Some(bytes) = self.boxes.get(name) else {
            return Err(StepFault::Fails);
        };
        let size = bytes.len() as u64;
        if start > size || len > size - start {
            return Err(StepFault::Fails);
        }
        let from = start as usize;
        let part = Blob::from_slice(alloc, &bytes.as_slice()[from..from + len as usize])?;
        Ok(part)
    }

    /// Overwrites a part of a box from `start` on; fails where the name is refused, there is no box, or the part is not
    /// within it, and takes no memory (AVM specification, box_replace).
    pub fn box_replace(
        &mut self,
        call: &Call,
        name: &[u8],
        start: u64,
        part: &[u8],
    ) -> Result<(), StepFault>
        ensures { StepsInPlace (box_replace_step call.now self.old name.now start part.now) self.old self.new result }
    {
        if call.refuses_box(name) {
            return Err(StepFault::Fails);
        }
        if self.boxes.overwrite(name, start, part) {
            Ok(())
        } else {
            Err(StepFault::Fails)
        }
    }

    /// Makes or sets a box without a call; fails where the name is empty or over 64 bytes, or the value is over 32,768.
    pub fn set_box(&mut self, name: &[u8], value: &[u8]) -> Result<(), StepFault>
        ensures steps { Steps (set_box_step self.old name.now value.now) self.old self.new result }
        ensures starting { IsStarting self.old → IsStarting self.new }
    {
        if !may_name_box(name) || value.len() > BOX_LIMIT {
            return Err(StepFault::Fails);
        }
        let bytes = Blob::from_slice(self.alloc, value)?;
        self.boxes.put(self.alloc, name, bytes)?;
        Ok(())
    }

    /// Whether there is no box of that name, or one of that length.
    fn has_length_if_there(&self, name: &[u8], len: usize) -> bool
        ensures { result ≡ has_length_if_there (map.get self.now.boxes name.now) len }
    {
        match self.boxes.get(name) {
            Some(bytes) => bytes.len() == len,
            None => true,
        }
    }
}

ghost use Rattle.std.specs.Prelude.{◌≡◌, length};
ghost use Rattle.std.specs.Int.{w16};
ghost use Rattle.arc4_types.specs.Types.{width_of};
ghost use Rattle.arc4_types.specs.Reading.{Gives, byte_at, number_at, taken};

use crate::abi_fault::AbiFault;
use std::marker::Model;

/// Bytes that are read from the front. A contract sees those that are left.
#[derive(Drop)]
pub(crate) struct Cursor<'a> {
    rest: &'a [u8],
}

impl<'a> Model for Cursor<'a> {
    ghost use Rattle.std.specs.Prelude.{List, ℕ};

    ghost Value = { List ℕ };

    ghost view = { λ c. c.rest.now };
}

impl<'a> Cursor<'a> {
    pub(crate) fn new(bytes: &'a [u8]) -> Cursor<'a>
        ensures { result ≡ bytes.now }
    {
        Cursor { rest: bytes }
    }

    /// How many bytes are left.
    pub(crate) fn left(&self) -> usize
        ensures { result ≡ length self.now }
    {
        self.rest.len()
    }

    /// So many bytes.
    pub(crate) fn take(&mut self, count: usize) -> Result<&'a [u8], AbiFault>
        ensures { Gives (λ bytes. (bytes.now, self.new)) result (taken count self.old) }
    {
        if self.rest.len() < count {
            return Err(AbiFault::Length);
        }
        let (front, rest) = self.rest.split_at(count);
        self.rest = rest;
        Ok(front)
    }

    pub(crate) fn byte(&mut self) -> Result<u8, AbiFault>
        ensures { Gives (λ b. (b, self.new)) result (byte_at self.old) }
    {
        match self.rest {
            [] => Err(AbiFault::Length),
            [first, rest @ ..] => {
                let byte = *first;
                self.rest = rest;
                Ok(byte)
            }
        }
    }

    /// A count or an offset.
    pub(crate) fn short(&mut self) -> Result<u16, AbiFault>
        ensures { Gives (λ n. (n, self.new)) result (number_at w16 self.old) }
    {
        let bytes = self.take(2)?;
        Ok(u16::from_be_bytes([bytes[0], bytes[1]]))
    }

    /// A number of so many bits.
    pub(crate) fn number(&mut self, bits: u16) -> Result<u64, AbiFault>
        ensures { Gives (λ n. (n, self.new)) result (number_at (width_of bits) self.old) }
    {
        match bits {
            8 => {
                let bytes = self.take(1)?;
                Ok(u64::from(bytes[0]))
            }
            16 => {
                let number = self.short()?;
                Ok(u64::from(number))
            }
            32 => {
                let bytes = self.take(4)?;
                let number = u32::from_be_bytes([bytes[0], bytes[1], bytes[2], bytes[3]]);
                Ok(u64::from(number))
            }
            _ => {
                let bytes = self.take(8)?;
                Ok(u64::from_be_bytes([
                    bytes[0], bytes[1], bytes[2], bytes[3], bytes[4], bytes[5], bytes[6], bytes[7],
                ]))
            }
        }
    }
}

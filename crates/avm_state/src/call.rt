ghost use Rattle.std.specs.Prelude.{◌≡◌};
ghost use Rattle.avm_state.specs.Calls.{account_of, is_account, is_box_name, is_box_refused, is_listed};
ghost use Rattle.std.specs.Option.{option_copied};
ghost use Rattle.puya_base.specs.declared.value.Value.TheVariants.{Int};

use puya_base::{At, Blob, Blobs, Value};

/// The on-completion number of the clear state program (AVM specification, "OnCompletion").
const CLEAR_STATE: u8 = 3;

/// What a call of a smart contract hands to its program (AVM specification, "Transaction Fields").
#[derive(Drop)]
pub struct Call {
    /// The application's number, from 1.
    pub application: u64,
    /// Whether the call creates the application.
    pub creating: bool,
    /// What the call does besides: 0 to 5, and not 3 where it creates.
    pub on_completion: u8,
    /// At most 16 arguments, of at most 2048 bytes together.
    pub args: Blobs,
    /// The caller's address, 32 bytes.
    pub sender: Blob,
    /// The fee in microAlgos.
    pub fee: u64,
    /// At most 1024 bytes.
    pub note: Blob,
    /// At most 4 addresses of 32 bytes that the program may name, from 1.
    pub accounts: Blobs,
    /// At most 8 box names, of 1 to 64 bytes, that the program may touch.
    pub boxes: Blobs,
    /// The round of the call's block.
    pub round: u64,
    /// The time of the block before, in seconds.
    pub timestamp: u64,
    /// The address of the application's creator, 32 bytes.
    pub creator: Blob,
    /// The cost that the program may spend, 1 to 11,200.
    pub budget: u64,
}

fn listed(list: &[Blob], bytes: &[u8]) -> bool
    ensures { result ≡ is_listed list.now bytes.now }
{
    list.iter().any(|b| b.as_slice() == bytes)
}

impl Call {
    fn has_account(&self, bytes: &[u8]) -> bool
        ensures { result ≡ is_account self.now bytes.now }
    {
        bytes.len() == 32
            && (self.sender.as_slice() == bytes || listed(self.accounts.as_slice(), bytes))
    }

    fn account_at(&self, number: u64) -> Option<&Blob>
        ensures { option_copied result ≡ account_of self.now (Int number) }
    {
        if number == 0 {
            return Some(&self.sender);
        }
        let at = number - 1;
        if at < self.accounts.len() as u64 {
            Some(self.accounts.at(at as usize))
        } else {
            None
        }
    }

    /// The account that a value names, or none where it names none.
    pub(crate) fn account<'a>(&'a self, who: &'a Value) -> Option<&'a Blob>
        ensures { option_copied result ≡ account_of self.now who.now }
    {
        match who {
            Value::Int(number) => self.account_at(*number),
            Value::Bytes(bytes) => {
                if self.has_account(bytes.as_slice()) {
                    Some(bytes)
                } else {
                    None
                }
            }
        }
    }

    /// Whether the call may not touch the box of that name.
    pub(crate) fn refuses_box(&self, name: &[u8]) -> bool
        ensures { result ≡ is_box_refused self.now name.now }
    {
        !may_name_box(name)
            || !listed(self.boxes.as_slice(), name)
            || self.on_completion == CLEAR_STATE
    }
}

/// Whether the bytes can name a box: there are 1 to 64 of them.
pub(crate) fn may_name_box(name: &[u8]) -> bool
    ensures { result ≡ is_box_name name.now }
{
    0 < name.len() && name.len() <= 64
}

use avm_state::{Call, Ledger};
use puya_base::Name;

/// What a call file says.
#[derive(Drop)]
pub struct Saved {
    /// The path of the contract, where it was asked for.
    pub contract: Option<Name>,
    /// The call, which is in form.
    pub call: Call,
    /// The ledger that the call finds: a starting one.
    pub ledger: Ledger,
}

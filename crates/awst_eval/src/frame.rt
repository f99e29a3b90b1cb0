//! What a function of a contract runs in.

use avm_state::Call;
use awst::{Contract, Func};
use std::alloc::Global;

/// What a function runs in: its contract, the application call, itself, and how deep calls and turns may go.
#[derive(Clone, Copy)]
pub(crate) struct Frame<'a> {
    pub(crate) alloc: Global,
    pub(crate) contract: &'a Contract,
    pub(crate) call: &'a Call,
    pub(crate) func: &'a Func,
    pub(crate) clock: u64,
}

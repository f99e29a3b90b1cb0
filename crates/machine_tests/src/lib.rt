//! The instructions, the ledger, programs and their runs, and the assembler, each public call asked once and more.
#![tactic(auto)]

#[cfg(test)]
mod assembling;
#[cfg(test)]
mod instructions;
#[cfg(test)]
mod ledgers;
#[cfg(test)]
mod programs;

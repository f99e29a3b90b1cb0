//! The commands over files in memory, each public call asked once and more.
#![tactic(auto)]

#[cfg(test)]
mod commands;

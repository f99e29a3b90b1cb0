//! Small modules and a table of sources, and the answers on them.
#![tactic(auto)]

#[cfg(test)]
mod modules;
#[cfg(test)]
mod sources;

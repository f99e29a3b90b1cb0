//! Typed trees: what their code weighs and needs, and what they prescribe, each public call asked once and more.
#![tactic(auto)]

#[cfg(test)]
mod amounts;
#[cfg(test)]
mod evaluating;

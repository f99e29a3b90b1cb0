//! TEAL text, call files and printed outcomes, each public call asked once and more.
#![tactic(auto)]

#[cfg(test)]
mod call_files;
#[cfg(test)]
mod lines;
#[cfg(test)]
mod outcomes;
#[cfg(test)]
mod texts;

//! Names that are not built, operations, literals and calls, asked one by one.
#![tactic(auto)]

#[cfg(test)]
mod calls;
#[cfg(test)]
mod meanings;
#[cfg(test)]
mod unbuilt;

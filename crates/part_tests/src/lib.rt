//! Lists, bytes and files, rows of bits, parallel copies and ARC-4 coding, each public call asked once and more.
#![tactic(auto)]

#[cfg(test)]
mod base;
#[cfg(test)]
mod bits;
#[cfg(test)]
mod coding;
#[cfg(test)]
mod copies;

//! Sources: their tokens, trees, names, first lines, paths and programs, asked one by one.
#![tactic(auto)]

#[cfg(test)]
mod headers;
#[cfg(test)]
mod library;
#[cfg(test)]
mod names;
#[cfg(test)]
mod paths;
#[cfg(test)]
mod programs_of;
#[cfg(test)]
mod tokens_of;
#[cfg(test)]
mod trees_of;

//! Annotations: names, and names with arguments in brackets (Python reference 8.7, 'annotation').

use crate::word::{Literal, Word};
use puya_base::{List, Place};

/// A type as it is written. Each variant has the place of its first token.
#[cycle(type_tree)]
#[derive(Drop)]
pub enum TypeTree {
    /// `None`.
    None(Place),
    /// A name, or names with points between.
    Named(Place, List<Word>),
    /// A name with arguments in brackets, and whether a comma stands behind the last.
    Of(Place, List<Word>, List<TypeArg>, bool),
}

/// What stands in the brackets of a type.
#[cycle(type_tree)]
#[derive(Drop)]
pub enum TypeArg {
    Type(TypeTree),
    Number(Literal),
}

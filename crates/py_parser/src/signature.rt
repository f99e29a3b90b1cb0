use puya_base::List;
use py_grammar::{Param, TypeTree, Word};

/// What stands between `def` and a function's body (Python reference 8.7).
#[derive(Drop)]
pub struct Signature {
    pub name: Word,
    pub params: List<Param>,
    /// Whether a comma stands behind the last parameter.
    pub comma: bool,
    pub result: Option<TypeTree>,
}

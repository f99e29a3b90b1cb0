//! What the expressions of a function see besides its variables.

use puya_base::List;
use source_names::{Constant, Methods, ModuleNames, Signature};

/// What the expressions of a function see besides its variables.
#[derive(Drop)]
pub struct Sight {
    pub names: ModuleNames,
    pub constants: List<Constant>,
    /// The functions of the module, and then those of the class.
    pub functions: List<Signature>,
    pub methods: Methods,
    /// Whether `self` is a parameter.
    pub myself: bool,
}

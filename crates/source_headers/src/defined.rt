//! The module's table.

use puya_base::List;
use source_names::{Constant, ModuleNames, Signature};

/// What the module defines.
#[derive(Drop)]
pub struct Table {
    pub entries: ModuleNames,
    pub constants: List<Constant>,
    pub functions: List<Signature>,
}

//! What the first lines of a source define: its imports, constants, functions and classes, and the rules on these.
#![tactic(auto)]

mod classes;
mod counting;
mod decorators;
mod defined;
mod headers;
mod methods;
mod modules;

pub use classes::{Base, all_class_faults, base_of, class_faults, is_program, no_contract};
pub use defined::Table;
pub use headers::{clashes, myself, others, signature_of, signature_told};
pub use methods::methods_of;
pub use modules::table;

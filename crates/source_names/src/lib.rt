//! The names of a source: what they stand for, its types, and what its annotations write; the rules on these.
#![tactic(auto)]

mod annotations;
mod constant;
mod faults;
mod limits;
mod literals;
mod lookup;
mod methods;
mod module_names;
mod name_set;
mod named;
mod signature;
mod things;
mod trees;
mod types;

pub use annotations::{Annotation, written, written_value};
pub use constant::Constant;
pub use faults::break_rule;
pub use limits::fits_limits;
pub use literals::{is_short, joined, number_of};
pub use lookup::note;
pub use methods::{Method, Methods, member_of};
pub use module_names::ModuleNames;
pub use name_set::NameSet;
pub use named::{Entry, Thing};
pub use signature::{Parameter, Signature};
pub use things::{dotted, is_myself, module_name, plain_member};
pub use trees::place_of;
pub use types::{SourceType, same_type};

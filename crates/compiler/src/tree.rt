//! The tree of a source.

ghost use Rattle.std.specs.Prelude.{◌≤◌, length};
ghost use Rattle.compiler.specs.Source.{IsRead};

use crate::build::CompileFault;
use py_grammar::Module;
use py_lexer::tokens;
use py_parser::parse;
use std::alloc::Global;
use unbuilt_names::is_unbuilt;

/// The tree of a source of at most 1,048,576 bytes, of forms that are built. Otherwise the first of the rules P01 to P07 that it
/// breaks, or, where it breaks none, that a form is not built yet.
pub(crate) fn tree_of(alloc: Global, source: &[u8]) -> Result<Module, CompileFault>
    requires { length source.now ≤ 1048576 }
    ensures { IsRead source.now result }
{
    let tokens = tokens(alloc, source)?;
    let tree = parse(alloc, source, &tokens)?;
    if is_unbuilt(source, &tokens, &tree) {
        return Err(CompileFault::NotBuilt);
    }
    Ok(tree)
}

//! A source to its programs.

ghost use Rattle.std.specs.Prelude.{◌<◌, ◌^◌, ◌≤◌, IfOk, length};
ghost use Rattle.compiler.specs.Compiled.{IsBuilt, IsBuiltFrom, IsCompiled, IsKept};

use crate::build::{Build, Builds, CompileFault};
use crate::form::{Sum, class_in, computed};
use crate::programs::{built, clear_built};
use crate::tree::tree_of;
use puya_base::{Level, List, Memory, Name};
use py_grammar::Module;
use std::alloc::Global;
use type_check::check;

/// The programs of a contract.
fn built_of(alloc: Global, name: &str, sum: Sum) -> Result<Build, Memory>
    requires left { sum.left < 2 ^ 64 }
    requires right { sum.right < 2 ^ 64 }
    ensures { IfOk result (λ b. IsBuilt (record { name = name.now; sum = sum }) b) }
{
    Ok(Build {
        name: Name::new(alloc, name)?,
        approval: built(alloc, sum)?,
        clear: clear_built(alloc)?,
        arc56: None,
    })
}

/// The programs of the contracts of a tree, where it is of the form.
fn built_from(alloc: Global, tree: &Module) -> Result<Builds, CompileFault>
    ensures { IsBuiltFrom tree.now result }
{
    let Some(class) = class_in(tree) else {
        return Err(CompileFault::NotBuilt);
    };
    let Some(sum) = computed(class) else {
        return Err(CompileFault::NotBuilt);
    };
    let build = built_of(alloc, class.name.name.as_str(), sum)?;
    let mut builds = List::new(alloc);
    builds.push(build)?;
    Ok(builds)
}

/// Whether a tree keeps the rules on names, types and paths: the error is the first that it breaks.
fn kept(alloc: Global, tree: &Module) -> Result<(), CompileFault>
    ensures { IsKept tree.now result }
{
    check(alloc, tree)?;
    Ok(())
}

/// Compiles a source of at most 1,048,576 bytes: it is compiled whole or refused, by the first rule that it breaks. The level is
/// looked at once code is optimised.
pub fn compile(alloc: Global, source: &[u8], _level: Level) -> Result<Builds, CompileFault>
    requires { length source.now ≤ 1048576 }
    ensures { IsCompiled source.now result }
{
    let tree = tree_of(alloc, source)?;
    kept(alloc, &tree)?;
    built_from(alloc, &tree)
}

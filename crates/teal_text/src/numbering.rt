ghost use Rattle.std.specs.Prelude.{◌≡◌, ℕ, ◌<◌, ◌≤◌, ◌+◌, ◌^◌, length, IfOk, OnOk};
ghost use Rattle.avm_asm.specs.Listing.{IsLine};
ghost use Rattle.teal_line.specs.Printing.{IsStatement};
ghost use Rattle.teal_text.specs.Numbering.{line_by, names_of, numbers_of, with_names};

use crate::names::Seen;
use avm_asm::{Labels, Line};
use puya_base::{List, Memory, Name};
use std::alloc::Global;
use teal_line::Statement;

/// The numbers of names in a row, which are seen from now on.
fn numbers(alloc: Global, seen: &mut Seen, names: &[Name]) -> Result<Labels, Memory>
    requires { length seen.old + length names.now < 2 ^ 32 }
    ensures numbers { IfOk result (λ ks. ks ≡ numbers_of seen.old names.now) }
    ensures seen { OnOk result (seen.new ≡ with_names seen.old names.now) }
    ensures room { OnOk result (length seen.new ≤ length seen.old + length names.now) }
    ensures count { IfOk result (λ ks. length ks ≡ length names.now) }
{
    let mut labels = List::new(alloc);
    for name in names {
        let label = seen.number(alloc, name.as_str())?;
        labels.push(label)?;
    }
    Ok(labels)
}

/// The line of a statement, its labels by number; their names are seen from now on.
pub(crate) fn line_of(alloc: Global, seen: &mut Seen, statement: Statement) -> Result<Line, Memory>
    requires form { IsStatement statement }
    requires few { length seen.old + 255 < 2 ^ 32 }
    ensures line { IfOk result (λ l. l ≡ line_by seen.old statement) }
    ensures seen { OnOk result (seen.new ≡ with_names seen.old (names_of statement)) }
    ensures room { OnOk result (length seen.new ≤ length seen.old + 255) }
    ensures form { IfOk result IsLine }
{
    match statement {
        Statement::Op(instr) => Ok(Line::Op(instr)),
        Statement::Label(name) => Ok(Line::Label(seen.number(alloc, name.as_str())?)),
        Statement::Jump(kind, name) => Ok(Line::Jump(kind, seen.number(alloc, name.as_str())?)),
        Statement::Table(kind, names) => {
            Ok(Line::Table(kind, numbers(alloc, seen, names.as_slice())?))
        }
    }
}

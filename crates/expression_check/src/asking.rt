//! Expressions judged where they stand in a statement.

ghost use Rattle.std.specs.Prelude.{◌≡◌, ◌++◌, map, IfOk, OnOk};
ghost use Rattle.source_names.specs.Source as source;
ghost use Rattle.meaning_rules.specs.Meanings as meanings;
ghost use Rattle.expression_check.specs.Expressions as spec;
ghost use Rattle.expression_check.specs.Sights.{seen};

use crate::judging;
use crate::locals::Locals;
use crate::sight::Sight;
use crate::view::View;
use meaning_rules::{Context, Meaning, Operand};
use path_rules::Notes;
use puya_base::{Memory, Place};
use py_grammar::Tree;
use std::alloc::Global;

/// What an expression means where it stands. Notes are made of what it does, and of the rules that it breaks. On `Memory` some of them may stand.
pub fn judge(
    alloc: Global,
    into: &mut Notes,
    sight: &Sight,
    locals: &Locals,
    context: &Context,
    tree: &Tree,
) -> Result<Meaning, Memory>
    ensures told { OnOk result (into.new ≡ into.old ++ (spec.judge (seen sight.now locals.now) context.now (source.tree_of tree.now)).notes) }
    ensures meaning { IfOk result (λ m. m ≡ (spec.judge (seen sight.now locals.now) context.now (source.tree_of tree.now)).meaning) }
{
    let view = View {
        alloc,
        sight,
        locals,
    };
    judging::judge(&view, into, context, tree)
}

/// An expression that has to be a value.
pub fn judge_operand(
    alloc: Global,
    into: &mut Notes,
    sight: &Sight,
    locals: &Locals,
    context: &Context,
    tree: &Tree,
) -> Result<Operand, Memory>
    ensures told { let e = source.tree_of tree.now in OnOk result (into.new ≡ into.old ++ (meanings.operand_of (source.place_of e) (spec.judge (seen sight.now locals.now) context.now e)).notes) }
    ensures operand { let e = source.tree_of tree.now in IfOk result (λ o. o ≡ (meanings.operand_of (source.place_of e) (spec.judge (seen sight.now locals.now) context.now e)).operand) }
{
    let view = View {
        alloc,
        sight,
        locals,
    };
    judging::judge_operand(&view, into, context, tree)
}

/// Expressions with commas between them, from this place on: one alone is itself, others are a tuple.
pub fn judge_listed(
    alloc: Global,
    into: &mut Notes,
    sight: &Sight,
    locals: &Locals,
    context: &Context,
    place: Place,
    items: &[Tree],
    comma: bool,
) -> Result<Meaning, Memory>
    ensures told { OnOk result (into.new ≡ into.old ++ (spec.judge (seen sight.now locals.now) context.now (source.listed_at place (map source.tree_of items.now) comma)).notes) }
    ensures meaning { IfOk result (λ m. m ≡ (spec.judge (seen sight.now locals.now) context.now (source.listed_at place (map source.tree_of items.now) comma)).meaning) }
{
    let view = View {
        alloc,
        sight,
        locals,
    };
    judging::judge_listed(&view, into, context, place, items, comma)
}

//! Expressions of statements: what they mean, and their values.

ghost use Rattle.std.specs.Prelude.{◌≡◌, ◌++◌, true, IfOk, OnOk};
ghost use Rattle.source_names.specs.Source as source;
ghost use Rattle.meaning_rules.specs.Meanings as meanings;
ghost use Rattle.expression_check.specs.Expressions as spec;
ghost use Rattle.statement_check.specs.Lines as lines;
ghost use Rattle.expression_check.specs.Sights.{seen};

use crate::places::exprs_place;
use expression_check::{Locals, Sight, context, freely, judge, judge_listed, value_in};
use meaning_rules::{Context, Hope, Meaning, Typed, condition};
use path_rules::Notes;
use puya_base::Memory;
use py_grammar::{Exprs, Tree};
use source_names::place_of;
use std::alloc::Global;

/// What the expressions of a statement mean.
pub(crate) fn judge_exprs(
    alloc: Global,
    into: &mut Notes,
    sight: &Sight,
    locals: &Locals,
    context: &Context,
    exprs: &Exprs,
) -> Result<Meaning, Memory>
    ensures told { OnOk result (into.new ≡ into.old ++ (spec.judge (seen sight.now locals.now) context.now (lines.exprs_of exprs.now)).notes) }
    ensures meaning { IfOk result (λ m. m ≡ (spec.judge (seen sight.now locals.now) context.now (lines.exprs_of exprs.now)).meaning) }
{
    judge_listed(
        alloc,
        into,
        sight,
        locals,
        context,
        exprs_place(exprs),
        exprs.items.as_slice(),
        exprs.comma,
    )
}

/// The value of the expressions of a statement.
pub(crate) fn exprs_value(
    alloc: Global,
    into: &mut Notes,
    sight: &Sight,
    locals: &Locals,
    context: &Context,
    exprs: &Exprs,
) -> Result<Option<Typed>, Memory>
    ensures told { let e = lines.exprs_of exprs.now in OnOk result (into.new ≡ into.old ++ (meanings.value (meanings.whole_hope context.now.expect) (source.place_of e) (spec.judge (seen sight.now locals.now) context.now e)).notes) }
    ensures typed { let e = lines.exprs_of exprs.now in IfOk result (λ t. t ≡ (meanings.value (meanings.whole_hope context.now.expect) (source.place_of e) (spec.judge (seen sight.now locals.now) context.now e)).typed) }
{
    let meaning = judge_exprs(alloc, into, sight, locals, context, exprs)?;
    value_in(into, context, exprs_place(exprs), meaning)
}

/// The value of expressions of which nothing can be expected, since another rule is broken there; only its notes count.
pub(crate) fn exprs_noted(
    alloc: Global,
    into: &mut Notes,
    sight: &Sight,
    locals: &Locals,
    exprs: &Exprs,
) -> Result<(), Memory>
    ensures { let e = lines.exprs_of exprs.now in OnOk result (into.new ≡ into.old ++ (meanings.value Hope.Unknown (source.place_of e) (spec.judge (seen sight.now locals.now) (meanings.context true Hope.Unknown) e)).notes) }
{
    let context = context(true, Hope::Unknown);
    exprs_value(alloc, into, sight, locals, &context, exprs)?;
    Ok(())
}

/// The same of an expression alone.
pub(crate) fn tree_noted(
    alloc: Global,
    into: &mut Notes,
    sight: &Sight,
    locals: &Locals,
    tree: &Tree,
) -> Result<(), Memory>
    ensures { let e = source.tree_of tree.now in OnOk result (into.new ≡ into.old ++ (meanings.value Hope.Unknown (source.place_of e) (spec.judge (seen sight.now locals.now) (meanings.context true Hope.Unknown) e)).notes) }
{
    let context = context(true, Hope::Unknown);
    let meaning = judge(alloc, into, sight, locals, &context, tree)?;
    value_in(into, &context, place_of(tree), meaning)?;
    Ok(())
}

/// A condition.
pub(crate) fn judge_condition(
    alloc: Global,
    into: &mut Notes,
    sight: &Sight,
    locals: &Locals,
    tree: &Tree,
) -> Result<Option<Typed>, Memory>
    ensures told { let e = source.tree_of tree.now in OnOk result (into.new ≡ into.old ++ (meanings.condition (source.place_of e) (spec.judge (seen sight.now locals.now) meanings.freely e)).notes) }
    ensures typed { let e = source.tree_of tree.now in IfOk result (λ t. t ≡ (meanings.condition (source.place_of e) (spec.judge (seen sight.now locals.now) meanings.freely e)).typed) }
{
    let meaning = judge(alloc, into, sight, locals, &freely(), tree)?;
    condition(alloc, into, place_of(tree), meaning)
}

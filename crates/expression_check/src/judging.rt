//! Expressions (Python reference, chapter 6): what each means, from the meanings of its parts; the rules that it breaks are noted.

ghost use Rattle.std.specs.Prelude.{◌≡◌, ◌++◌, not, map, option_copied, option_map, IfOk, OnOk, if◌then◌else◌};
ghost use Rattle.source_names.specs.Literals as literals;
ghost use Rattle.source_names.specs.Source as source;
ghost use Rattle.meaning_rules.specs.Betweens.{between_of};
ghost use Rattle.call_rules.specs.Callees as callees;
ghost use Rattle.call_rules.specs.Calls as calls;
ghost use Rattle.meaning_rules.specs.Meanings as meanings;
ghost use Rattle.meaning_rules.specs.Operations as operations;
ghost use Rattle.expression_check.specs.Bindings.{complete_with, known_with, end_in_context, given_at, part_of, used_at};
ghost use Rattle.expression_check.specs.Expressions as spec;
ghost use Rattle.expression_check.specs.Sights.{seen_by, when_known};

use crate::arguments::{Bound, applied_when, bind, none_bound};
use crate::contexts::{context, freely, part_context, value_in};
use crate::named::{judge_name, member_says_of};
use crate::operators::{binary_form, compare_form};
use crate::places::listed_place;
use crate::tuples::{add_part, display_when, no_parts, tuple_when};
use crate::view::View;
use algopy_library::Operator;
use awst::Expr;
use call_rules::{Callee, called, given, slot_for, slot_hope, tell_slot};
use meaning_rules::{
    BinaryOperator, Context, End, Expect, Hope, Lit, Meaning, Operand, Typed, as_operand,
    between_operands, bytes_literal, choose_values, condition, constant_says, end_of_bytes,
    index_hope, index_when, is_bytes, other_end, settled, slice_when, text_literal, unary_operand,
};
use path_rules::Notes;
use puya_base::{Boxed, Memory, Place};
use py_grammar::{Arg, Literal, Tree, UnaryOp, Word};
use source_names::{Constant, joined, number_of, place_of};
use std::alloc::Global;

const POWER: BinaryOperator = BinaryOperator::Does(Operator::Power);

fn number_says(literal: &Literal) -> Meaning
    ensures { result ≡ Meaning.Literal literal.now.place (Lit.Number (literals.number_of literal.now)) }
{
    Meaning::Literal(literal.place, Lit::Number(number_of(literal)))
}

fn text_says(
    alloc: Global,
    into: &mut Notes,
    place: Place,
    parts: &[Literal],
) -> Result<Meaning, Memory>
    ensures told { OnOk result (into.new ≡ into.old ++ (operations.short_literal place (literals.joined parts.now) (Lit.Text (literals.joined parts.now))).notes) }
    ensures meaning { IfOk result (λ m. m ≡ (operations.short_literal place (literals.joined parts.now) (Lit.Text (literals.joined parts.now))).meaning) }
{
    let text = joined(alloc, parts)?;
    text_literal(into, place, text)
}

fn bytes_say(
    alloc: Global,
    into: &mut Notes,
    place: Place,
    parts: &[Literal],
) -> Result<Meaning, Memory>
    ensures told { OnOk result (into.new ≡ into.old ++ (operations.short_literal place (literals.joined parts.now) (Lit.Bytes (literals.joined parts.now))).notes) }
    ensures meaning { IfOk result (λ m. m ≡ (operations.short_literal place (literals.joined parts.now) (Lit.Bytes (literals.joined parts.now))).meaning) }
{
    let bytes = joined(alloc, parts)?;
    bytes_literal(into, place, bytes)
}

fn at_place(place: Place, typed: Typed) -> Typed
    ensures { result ≡ spec.at_place place typed }
{
    let Typed { ty, expr } = typed;
    let Expr {
        place: _place,
        ty: below,
        kind,
    } = expr;
    Typed {
        ty,
        expr: Expr {
            place,
            ty: below,
            kind,
        },
    }
}

/// Parentheses change nothing but where an expression begins.
fn at_meaning(place: Place, meaning: Meaning) -> Meaning
    ensures { result ≡ spec.at_meaning place meaning }
{
    match meaning {
        Meaning::Value(typed) => Meaning::Value(at_place(place, typed)),
        _ => meaning,
    }
}

/// What is hoped of a whole that stands there.
fn choose_in(
    alloc: Global,
    into: &mut Notes,
    context: &Context,
    place: Place,
    second: Place,
    test: Option<Typed>,
    a: Operand,
    b: Operand,
) -> Result<Meaning, Memory>
    ensures told { OnOk result (into.new ≡ into.old ++ (operations.choose_values place second (meanings.whole_hope context.now.expect) test a b).notes) }
    ensures meaning { IfOk result (λ m. m ≡ (operations.choose_values place second (meanings.whole_hope context.now.expect) test a b).meaning) }
{
    match &context.expect {
        Expect::One(hope) => choose_values(alloc, into, place, second, hope, test, a, b),
        Expect::Each(_) => choose_values(alloc, into, place, second, &Hope::Free, test, a, b),
    }
}

fn is_known(operand: &Operand) -> bool
    ensures { result ≡ not (operations.is_missing operand.now) }
{
    match operand {
        Operand::Value(_) => true,
        Operand::Literal(_, _) => true,
        Operand::Missing => false,
    }
}

/// An end of a slice, of Bytes or of something else.
fn end_in(into: &mut Notes, of_bytes: bool, operand: Operand) -> Result<End, Memory>
    ensures told { OnOk result (into.new ≡ into.old ++ (if of_bytes then operations.end_of_bytes operand else operations.other_end operand).notes) }
    ensures end { IfOk result (λ e. e ≡ (if of_bytes then operations.end_of_bytes operand else operations.other_end operand).end) }
{
    if of_bytes {
        end_of_bytes(into, operand)
    } else {
        Ok(other_end(&operand))
    }
}

/// What an expression means where it stands. Notes are made of what it does, and of the rules that it breaks. On `Memory` some of them may stand.
#[cycle(judge)]
pub(crate) fn judge(
    view: &View<'_>,
    into: &mut Notes,
    context: &Context,
    tree: &Tree,
) -> Result<Meaning, Memory>
    ensures told { OnOk result (into.new ≡ into.old ++ (spec.judge (seen_by view.now) context.now (source.tree_of tree.now)).notes) }
    ensures meaning { IfOk result (λ m. m ≡ (spec.judge (seen_by view.now) context.now (source.tree_of tree.now)).meaning) }
{
    let alloc = view.alloc;
    match tree {
        Tree::Name(word) => judge_name(alloc, into, view.sight, view.locals, word),
        Tree::Number(literal) => Ok(number_says(literal)),
        Tree::Text(place, parts) => text_says(alloc, into, *place, parts.as_slice()),
        Tree::Bytes(place, parts) => bytes_say(alloc, into, *place, parts.as_slice()),
        Tree::Flag(place, flag) => constant_says(alloc, *place, &Constant::Flag(*flag)),
        Tree::Paren(place, items, comma) => {
            judge_paren(view, into, context, *place, items.as_slice(), *comma)
        }
        Tree::Display(place, items, _) => judge_display(view, into, *place, items.as_slice()),
        Tree::Member(place, of, word) => judge_member(view, into, *place, of.get(), word),
        Tree::Index(place, of, items, comma) => {
            judge_index(view, into, *place, of.get(), items.as_slice(), *comma)
        }
        Tree::Slice(place, of, start, stop) => {
            judge_slice(view, into, *place, of.get(), start, stop)
        }
        Tree::Call(place, of, args, _) => {
            judge_call(view, into, *place, of.get(), args.as_slice())
        }
        Tree::Power(place, a, b) => judge_binary(view, into, *place, POWER, a.get(), b.get()),
        Tree::Unary(place, op, of) => judge_unary(view, into, *place, *op, of.get()),
        Tree::Binary(place, op, a, b) => {
            judge_binary(view, into, *place, binary_form(*op), a.get(), b.get())
        }
        Tree::Compare(place, op, a, b) => {
            judge_binary(view, into, *place, compare_form(*op), a.get(), b.get())
        }
        Tree::Choose(place, a, test, b) => {
            judge_choose(view, into, context, *place, a.get(), test.get(), b.get())
        }
    }
}

/// Parentheses.
#[cycle(judge)]
fn judge_paren(
    view: &View<'_>,
    into: &mut Notes,
    context: &Context,
    place: Place,
    items: &[Tree],
    comma: bool,
) -> Result<Meaning, Memory>
    ensures told { OnOk result (into.new ≡ into.old ++ (spec.judge (seen_by view.now) context.now (source.in_parens place (map source.tree_of items.now) comma)).notes) }
    ensures meaning { IfOk result (λ m. m ≡ (spec.judge (seen_by view.now) context.now (source.in_parens place (map source.tree_of items.now) comma)).meaning) }
{
    let meaning = judge_listed(view, into, context, place, items, comma)?;
    Ok(at_meaning(place, meaning))
}

/// A list: no value of the language.
#[cycle(judge)]
fn judge_display(
    view: &View<'_>,
    into: &mut Notes,
    place: Place,
    items: &[Tree],
) -> Result<Meaning, Memory>
    ensures told { OnOk result (into.new ≡ into.old ++ (spec.judge (seen_by view.now) meanings.freely (source.display place (source.exs_of (map source.tree_of items.now)))).notes) }
    ensures meaning { IfOk result (λ m. m ≡ (spec.judge (seen_by view.now) meanings.freely (source.display place (source.exs_of (map source.tree_of items.now)))).meaning) }
{
    let known = judge_items(view, into, items)?;
    display_when(into, place, known)
}

/// What stands behind a point.
#[cycle(judge)]
fn judge_member(
    view: &View<'_>,
    into: &mut Notes,
    place: Place,
    of: &Tree,
    word: &Word,
) -> Result<Meaning, Memory>
    ensures told { OnOk result (into.new ≡ into.old ++ (spec.judge (seen_by view.now) meanings.freely (source.member place (source.tree_of of.now) word.now)).notes) }
    ensures meaning { IfOk result (λ m. m ≡ (spec.judge (seen_by view.now) meanings.freely (source.member place (source.tree_of of.now) word.now)).meaning) }
{
    let meaning = judge(view, into, &freely(), of)?;
    member_says_of(
        view.alloc,
        into,
        view.sight,
        place,
        place_of(of),
        word,
        meaning,
    )
}

/// An operator before its operand.
#[cycle(judge)]
fn judge_unary(
    view: &View<'_>,
    into: &mut Notes,
    place: Place,
    op: UnaryOp,
    of: &Tree,
) -> Result<Meaning, Memory>
    ensures told { OnOk result (into.new ≡ into.old ++ (spec.judge (seen_by view.now) meanings.freely (source.unary place op (source.tree_of of.now))).notes) }
    ensures meaning { IfOk result (λ m. m ≡ (spec.judge (seen_by view.now) meanings.freely (source.unary place op (source.tree_of of.now))).meaning) }
{
    let operand = judge_operand(view, into, &freely(), of)?;
    unary_operand(view.alloc, into, place, op, operand)
}

/// A part that has to be a value.
#[cycle(judge)]
pub(crate) fn judge_operand(
    view: &View<'_>,
    into: &mut Notes,
    context: &Context,
    tree: &Tree,
) -> Result<Operand, Memory>
    ensures told { let e = source.tree_of tree.now in OnOk result (into.new ≡ into.old ++ (meanings.operand_of (source.place_of e) (spec.judge (seen_by view.now) context.now e)).notes) }
    ensures operand { let e = source.tree_of tree.now in IfOk result (λ o. o ≡ (meanings.operand_of (source.place_of e) (spec.judge (seen_by view.now) context.now e)).operand) }
{
    let meaning = judge(view, into, context, tree)?;
    as_operand(into, place_of(tree), meaning)
}

/// Expressions with commas between them, from this place on: one alone is itself, others are a tuple.
#[cycle(judge)]
pub(crate) fn judge_listed(
    view: &View<'_>,
    into: &mut Notes,
    context: &Context,
    place: Place,
    items: &[Tree],
    comma: bool,
) -> Result<Meaning, Memory>
    ensures told { OnOk result (into.new ≡ into.old ++ (spec.judge (seen_by view.now) context.now (source.listed_at place (map source.tree_of items.now) comma)).notes) }
    ensures meaning { IfOk result (λ m. m ≡ (spec.judge (seen_by view.now) context.now (source.listed_at place (map source.tree_of items.now) comma)).meaning) }
{
    match items {
        [] => judge_tuple(view, into, context, place, items),
        [only] => {
            if comma {
                judge_tuple(view, into, context, place, items)
            } else {
                judge(view, into, context, only)
            }
        }
        [_, _, ..] => judge_tuple(view, into, context, place, items),
    }
}

#[cycle(judge)]
fn judge_tuple(
    view: &View<'_>,
    into: &mut Notes,
    context: &Context,
    place: Place,
    items: &[Tree],
) -> Result<Meaning, Memory>
    ensures told { OnOk result (into.new ≡ into.old ++ (spec.judge (seen_by view.now) context.now (source.tuple place (source.exs_of (map source.tree_of items.now)))).notes) }
    ensures meaning { IfOk result (λ m. m ≡ (spec.judge (seen_by view.now) context.now (source.tuple place (source.exs_of (map source.tree_of items.now)))).meaning) }
{
    let mut parts = no_parts(view.alloc);
    let mut i = 0;
    for item in items {
        let typed = judge_part(view, into, context, i, item)?;
        add_part(&mut parts, typed)?;
        i += 1;
    }
    tuple_when(view.alloc, into, place, parts)
}

#[cycle(judge)]
fn judge_part(
    view: &View<'_>,
    into: &mut Notes,
    whole: &Context,
    i: usize,
    tree: &Tree,
) -> Result<Option<Typed>, Memory>
    ensures told { OnOk result (into.new ≡ into.old ++ (part_of (seen_by view.now) whole.now i (source.tree_of tree.now)).notes) }
    ensures typed { IfOk result (λ t. t ≡ (part_of (seen_by view.now) whole.now i (source.tree_of tree.now)).typed) }
{
    let context = part_context(view.alloc, whole, i)?;
    let meaning = judge(view, into, &context, tree)?;
    value_in(into, &context, place_of(tree), meaning)
}

/// Whether each of what stands in brackets is known.
#[cycle(judge)]
fn judge_items(view: &View<'_>, into: &mut Notes, items: &[Tree]) -> Result<bool, Memory>
    ensures told { OnOk result (into.new ≡ into.old ++ (spec.items (seen_by view.now) (source.exs_of (map source.tree_of items.now))).notes) }
    ensures known { IfOk result (λ b. b ≡ (spec.items (seen_by view.now) (source.exs_of (map source.tree_of items.now))).known) }
{
    let mut known = true;
    for item in items {
        let operand = judge_operand(view, into, &freely(), item)?;
        if !is_known(&operand) {
            known = false;
        }
    }
    Ok(known)
}

#[cycle(judge)]
fn judge_index(
    view: &View<'_>,
    into: &mut Notes,
    place: Place,
    of: &Tree,
    items: &[Tree],
    comma: bool,
) -> Result<Meaning, Memory>
    ensures told { OnOk result (into.new ≡ into.old ++ (spec.judge (seen_by view.now) meanings.freely (source.index place (source.tree_of of.now) (source.listed place (map source.tree_of items.now) comma))).notes) }
    ensures meaning { IfOk result (λ m. m ≡ (spec.judge (seen_by view.now) meanings.freely (source.index place (source.tree_of of.now) (source.listed place (map source.tree_of items.now) comma))).meaning) }
{
    let operand = judge_operand(view, into, &freely(), of)?;
    let context = context(false, index_hope(&operand));
    let base = settled(into, &Hope::Free, operand)?;
    let at = listed_place(place, items);
    let meaning = judge_listed(view, into, &context, at, items, comma)?;
    let index = as_operand(into, at, meaning)?;
    index_when(view.alloc, into, place, at, base, index)
}

#[cycle(judge)]
fn judge_slice(
    view: &View<'_>,
    into: &mut Notes,
    place: Place,
    of: &Tree,
    start: &Option<Boxed<Tree>>,
    stop: &Option<Boxed<Tree>>,
) -> Result<Meaning, Memory>
    ensures told { OnOk result (into.new ≡ into.old ++ (spec.judge (seen_by view.now) meanings.freely (source.slice place (source.tree_of of.now) (source.maybe_of (option_map source.tree_of start.now)) (source.maybe_of (option_map source.tree_of stop.now)))).notes) }
    ensures meaning { IfOk result (λ m. m ≡ (spec.judge (seen_by view.now) meanings.freely (source.slice place (source.tree_of of.now) (source.maybe_of (option_map source.tree_of start.now)) (source.maybe_of (option_map source.tree_of stop.now)))).meaning) }
{
    let operand = judge_operand(view, into, &freely(), of)?;
    let context = context(false, index_hope(&operand));
    let base = settled(into, &Hope::Free, operand)?;
    let of_bytes = is_bytes(&base);
    let start = judge_end(view, into, of_bytes, &context, start)?;
    let stop = judge_end(view, into, of_bytes, &context, stop)?;
    slice_when(view.alloc, into, place, base, start, stop)
}

#[cycle(judge)]
fn judge_end(
    view: &View<'_>,
    into: &mut Notes,
    of_bytes: bool,
    context: &Context,
    end: &Option<Boxed<Tree>>,
) -> Result<End, Memory>
    ensures told { OnOk result (into.new ≡ into.old ++ (end_in_context (seen_by view.now) of_bytes context.now (source.maybe_of (option_map source.tree_of end.now))).notes) }
    ensures end { IfOk result (λ e. e ≡ (end_in_context (seen_by view.now) of_bytes context.now (source.maybe_of (option_map source.tree_of end.now))).end) }
{
    match end {
        Some(tree) => {
            let operand = judge_operand(view, into, context, tree.get())?;
            end_in(into, of_bytes, operand)
        }
        None => Ok(End::Absent),
    }
}

#[cycle(judge)]
fn judge_call(
    view: &View<'_>,
    into: &mut Notes,
    place: Place,
    of: &Tree,
    args: &[Arg],
) -> Result<Meaning, Memory>
    ensures told { OnOk result (into.new ≡ into.old ++ (spec.judge (seen_by view.now) meanings.freely (source.call place (source.tree_of of.now) (source.args_of (map source.arg_of args.now)))).notes) }
    ensures meaning { IfOk result (λ m. m ≡ (spec.judge (seen_by view.now) meanings.freely (source.call place (source.tree_of of.now) (source.args_of (map source.arg_of args.now)))).meaning) }
{
    let meaning = judge(view, into, &freely(), of)?;
    let callee = called(&meaning);
    let bound = judge_arguments(view, into, callee, args)?;
    applied_when(
        view.alloc,
        into,
        &view.sight.functions,
        place,
        callee,
        bound,
    )
}

#[cycle(judge)]
fn judge_arguments(
    view: &View<'_>,
    into: &mut Notes,
    callee: Callee,
    args: &[Arg],
) -> Result<Bound, Memory>
    ensures told { OnOk result (into.new ≡ into.old ++ (spec.arguments (seen_by view.now) (callees.meant view.now.sight.now.functions callee) 0 calls.nothing_used (source.args_of (map source.arg_of args.now))).notes) }
    ensures known { IfOk result (λ b. when_known b.complete b.known.items ≡ (spec.arguments (seen_by view.now) (callees.meant view.now.sight.now.functions callee) 0 calls.nothing_used (source.args_of (map source.arg_of args.now))).known) }
{
    let mut bound = none_bound(view.alloc);
    let mut i = 0;
    for arg in args {
        bound = judge_argument(view, into, callee, i, bound, arg)?;
        i += 1;
    }
    Ok(bound)
}

#[cycle(judge)]
fn judge_argument(
    view: &View<'_>,
    into: &mut Notes,
    callee: Callee,
    i: usize,
    bound: Bound,
    arg: &Arg,
) -> Result<Bound, Memory>
    ensures told { OnOk result (into.new ≡ into.old ++ (given_at (seen_by view.now) (callees.meant view.now.sight.now.functions callee) i bound.used (source.arg_of arg.now)).notes) }
    ensures complete { IfOk result (λ b. b.complete ≡ complete_with bound.complete (given_at (seen_by view.now) (callees.meant view.now.sight.now.functions callee) i bound.used (source.arg_of arg.now)).known) }
    ensures known { IfOk result (λ b. b.known.items ≡ known_with bound.known.items (given_at (seen_by view.now) (callees.meant view.now.sight.now.functions callee) i bound.used (source.arg_of arg.now)).known) }
    ensures used { IfOk result (λ b. b.used ≡ used_at (callees.meant view.now.sight.now.functions callee) i bound.used (source.arg_of arg.now)) }
{
    match arg {
        Arg::Keyed(word, tree) => judge_given(view, into, callee, i, bound, Some(word), tree),
        Arg::Plain(tree) => judge_given(view, into, callee, i, bound, None, tree),
    }
}

#[cycle(judge)]
fn judge_given(
    view: &View<'_>,
    into: &mut Notes,
    callee: Callee,
    i: usize,
    bound: Bound,
    key: Option<&Word>,
    tree: &Tree,
) -> Result<Bound, Memory>
    ensures told { let a : source.OneArg = record { key = option_copied key.entry; value = source.tree_of tree.now } in OnOk result (into.new ≡ into.old ++ (given_at (seen_by view.now) (callees.meant view.now.sight.now.functions callee) i bound.used a).notes) }
    ensures complete { let a : source.OneArg = record { key = option_copied key.entry; value = source.tree_of tree.now } in IfOk result (λ b. b.complete ≡ complete_with bound.complete (given_at (seen_by view.now) (callees.meant view.now.sight.now.functions callee) i bound.used a).known) }
    ensures known { let a : source.OneArg = record { key = option_copied key.entry; value = source.tree_of tree.now } in IfOk result (λ b. b.known.items ≡ known_with bound.known.items (given_at (seen_by view.now) (callees.meant view.now.sight.now.functions callee) i bound.used a).known) }
    ensures used { let a : source.OneArg = record { key = option_copied key.entry; value = source.tree_of tree.now } in IfOk result (λ b. b.used ≡ used_at (callees.meant view.now.sight.now.functions callee) i bound.used a) }
{
    let functions = &view.sight.functions;
    let place = place_of(tree);
    let slot = slot_for(functions, callee, i, &bound.used, key, place);
    tell_slot(into, slot)?;
    let context = context(true, slot_hope(view.alloc, functions, callee, slot)?);
    let meaning = judge(view, into, &context, tree)?;
    let argument = given(view.alloc, into, functions, callee, slot, place, meaning)?;
    bind(view.alloc, bound, slot, key, argument)
}

#[cycle(judge)]
fn judge_binary(
    view: &View<'_>,
    into: &mut Notes,
    place: Place,
    operator: BinaryOperator,
    a: &Tree,
    b: &Tree,
) -> Result<Meaning, Memory>
    ensures told { OnOk result (into.new ≡ into.old ++ (spec.judge (seen_by view.now) meanings.freely (source.binary place (between_of operator) (source.tree_of a.now) (source.tree_of b.now))).notes) }
    ensures meaning { IfOk result (λ m. m ≡ (spec.judge (seen_by view.now) meanings.freely (source.binary place (between_of operator) (source.tree_of a.now) (source.tree_of b.now))).meaning) }
{
    let left = judge_operand(view, into, &freely(), a)?;
    let right = judge_operand(view, into, &freely(), b)?;
    between_operands(view.alloc, into, place, place_of(b), operator, left, right)
}

#[cycle(judge)]
fn judge_choose(
    view: &View<'_>,
    into: &mut Notes,
    context: &Context,
    place: Place,
    a: &Tree,
    test: &Tree,
    b: &Tree,
) -> Result<Meaning, Memory>
    ensures told { OnOk result (into.new ≡ into.old ++ (spec.judge (seen_by view.now) context.now (source.choose place (source.tree_of a.now) (source.tree_of test.now) (source.tree_of b.now))).notes) }
    ensures meaning { IfOk result (λ m. m ≡ (spec.judge (seen_by view.now) context.now (source.choose place (source.tree_of a.now) (source.tree_of test.now) (source.tree_of b.now))).meaning) }
{
    let first = judge_operand(view, into, context, a)?;
    let meaning = judge(view, into, &freely(), test)?;
    let test = condition(view.alloc, into, place_of(test), meaning)?;
    let second = judge_operand(view, into, context, b)?;
    choose_in(
        view.alloc,
        into,
        context,
        place,
        place_of(b),
        test,
        first,
        second,
    )
}

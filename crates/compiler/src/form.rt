//! The one form of source that is compiled.

ghost use Rattle.std.specs.Prelude.{◌≡◌, ◌&&◌, Some, None, MatchOption};
ghost use Rattle.compiler.specs.Form as spec;

use py_grammar::{
    Arg, BinaryOp, Block, Class, Exprs, Func, Import, Item, Member, Module, Param, Simple, Stmt,
    Tree, TypeTree, Word,
};
use py_lexer::number_value;

#[derive(Clone, Copy, Debug, PartialEq, Eq)]
pub enum Operator {
    Plus,
    Times,
}

/// Two numbers and what is done with them.
#[derive(Clone, Copy, Debug, PartialEq, Eq)]
pub struct Sum {
    pub left: u64,
    pub operator: Operator,
    pub right: u64,
}

fn is_word(word: &Word, text: &str) -> bool
    ensures { result ≡ spec.is_word word.now text.now }
{
    word.name.as_str() == text
}

fn is_path(words: &[Word], text: &str) -> bool
    ensures { result ≡ spec.is_path words.now text.now }
{
    match words {
        [word] => is_word(word, text),
        _ => false,
    }
}

#[tactic(auto, unfolding(crate::specs::Form::is_name))]
fn is_name(tree: &Tree, text: &str) -> bool
    ensures { result ≡ spec.is_name tree.now text.now }
{
    match tree {
        Tree::Name(word) => is_word(word, text),
        _ => false,
    }
}

#[tactic(auto, unfolding(crate::specs::Form::number_of))]
fn number_of(tree: &Tree) -> Option<u64>
    ensures { result ≡ spec.number_of tree.now }
{
    match tree {
        Tree::Number(literal) => number_value(literal.text.as_slice()),
        _ => None,
    }
}

#[tactic(auto, unfolding(crate::specs::Form::plain_of))]
fn plain_of(arg: &Arg) -> Option<&Tree>
    ensures { MatchOption result (spec.plain_of arg.now ≡ None) (λ t. spec.plain_of arg.now ≡ Some t.now) }
{
    match arg {
        Arg::Plain(tree) => Some(tree),
        Arg::Keyed(_, _) => None,
    }
}

/// The number in the arguments of a call, where it stands alone.
fn only_number(args: &[Arg], comma: bool) -> Option<u64>
    ensures { result ≡ spec.only_number args.now comma }
{
    match (args, comma) {
        ([arg], false) => match plain_of(arg) {
            Some(tree) => number_of(tree),
            None => None,
        },
        _ => None,
    }
}

/// The number in `UInt64(number)`.
#[tactic(auto, unfolding(crate::specs::Form::constant_of))]
fn constant_of(tree: &Tree) -> Option<u64>
    ensures { result ≡ spec.constant_of tree.now }
{
    match tree {
        Tree::Call(_, callee, args, comma) => {
            if is_name(callee.get(), "UInt64") {
                only_number(args.as_slice(), *comma)
            } else {
                None
            }
        }
        _ => None,
    }
}

fn operator_of(operator: BinaryOp) -> Option<Operator>
    ensures { result ≡ spec.operator_of operator }
{
    match operator {
        BinaryOp::Add => Some(Operator::Plus),
        BinaryOp::Mul => Some(Operator::Times),
        _ => None,
    }
}

fn joined(operator: BinaryOp, left: &Tree, right: &Tree) -> Option<Sum>
    ensures { result ≡ spec.joined (spec.operator_of operator) (spec.constant_of left.now) (spec.constant_of right.now) }
{
    match (operator_of(operator), constant_of(left), constant_of(right)) {
        (Some(operator), Some(left), Some(right)) => Some(Sum {
            left,
            operator,
            right,
        }),
        _ => None,
    }
}

/// A sum or a product of two numbers.
#[tactic(auto, unfolding(crate::specs::Form::sum_of))]
fn sum_of(tree: &Tree) -> Option<Sum>
    ensures { result ≡ spec.sum_of tree.now }
{
    match tree {
        Tree::Binary(_, operator, left, right) => joined(*operator, left.get(), right.get()),
        _ => None,
    }
}

#[tactic(auto, unfolding(crate::specs::Form::is_text))]
fn is_text(tree: &Tree) -> bool
    ensures { result ≡ spec.is_text tree.now }
{
    matches!(tree, Tree::Text(_, _))
}

/// The one expression, with no comma behind it.
fn only_of(values: &Exprs) -> Option<&Tree>
    ensures { MatchOption result (spec.only_of values.now ≡ None) (λ t. spec.only_of values.now ≡ Some t.now) }
{
    match (values.items.as_slice(), values.comma) {
        ([tree], false) => Some(tree),
        _ => None,
    }
}

fn is_docstring_line(line: &Simple) -> bool
    ensures { result ≡ spec.is_docstring_line line.now }
{
    match line {
        Simple::Value(values) => match only_of(values) {
            Some(tree) => is_text(tree),
            None => false,
        },
        _ => false,
    }
}

/// What a line returns.
fn returned_line(line: &Simple) -> Option<&Tree>
    ensures { MatchOption result (spec.returned_line line.now ≡ None) (λ t. spec.returned_line line.now ≡ Some t.now) }
{
    match line {
        Simple::Return(_, Some(values)) => only_of(values),
        _ => None,
    }
}

#[tactic(auto, unfolding(crate::specs::Form::line_of))]
fn line_of(stmt: &Stmt) -> Option<&Simple>
    ensures { MatchOption result (spec.line_of stmt.now ≡ None) (λ s. spec.line_of stmt.now ≡ Some s.now) }
{
    match stmt {
        Stmt::Simple(line) => Some(line),
        _ => None,
    }
}

fn is_docstring(stmt: &Stmt) -> bool
    ensures { result ≡ spec.is_docstring stmt.now }
{
    match line_of(stmt) {
        Some(line) => is_docstring_line(line),
        None => false,
    }
}

/// What stands behind docstrings.
#[tactic(auto, unfolding(crate::specs::Form::behind_docstrings))]
fn behind_docstrings(stmts: &[Stmt]) -> &[Stmt]
    ensures { result.now ≡ spec.behind_docstrings stmts.now }
{
    let mut rest = stmts;
    while let [first, behind @ ..] = rest {
        if !is_docstring(first) {
            break;
        }
        rest = behind;
    }
    rest
}

/// What the first statement returns, where only docstrings stand behind it.
fn returned_first(stmts: &[Stmt]) -> Option<&Tree>
    ensures { MatchOption result (spec.returned_first stmts.now ≡ None) (λ t. spec.returned_first stmts.now ≡ Some t.now) }
{
    match stmts {
        [first, behind @ ..] if behind_docstrings(behind).is_empty() => match line_of(first) {
            Some(line) => returned_line(line),
            None => None,
        },
        _ => None,
    }
}

/// What a block returns that does nothing else.
#[tactic(auto, unfolding(crate::specs::Form::returned_of))]
fn returned_of(block: &Block) -> Option<&Tree>
    ensures { MatchOption result (spec.returned_of block.now ≡ None) (λ t. spec.returned_of block.now ≡ Some t.now) }
{
    match block {
        Block::Line(line) => returned_line(line),
        Block::Lines(stmts) => returned_first(behind_docstrings(stmts.as_slice())),
    }
}

/// `self` alone, with no annotation and no comma behind it.
fn is_self(params: &[Param], comma: bool) -> bool
    ensures { result ≡ spec.is_self params.now comma }
{
    match (params, comma) {
        ([param], false) => is_word(&param.name, "self") && param.annotation.is_none(),
        _ => false,
    }
}

#[tactic(auto, unfolding(crate::specs::Form::is_type))]
fn is_type(tree: &TypeTree, text: &str) -> bool
    ensures { result ≡ spec.is_type tree.now text.now }
{
    match tree {
        TypeTree::Named(_, words) => is_path(words.as_slice(), text),
        _ => false,
    }
}

fn is_some_type(tree: &Option<TypeTree>, text: &str) -> bool
    ensures { result ≡ spec.is_some_type tree.now text.now }
{
    match tree {
        Some(tree) => is_type(tree, text),
        None => false,
    }
}

/// Whether a function is a program of a contract: of this name, with no decorators, `self`, and a number as its result.
#[tactic(auto, unfolding(crate::specs::Form::is_program))]
fn is_program(func: &Func, text: &str) -> bool
    ensures { result ≡ spec.is_program func.now text.now }
{
    is_word(&func.name, text)
        && func.decorators.as_slice().is_empty()
        && is_self(func.params.as_slice(), func.comma)
        && is_some_type(&func.result, "UInt64")
}

/// What stands behind docstrings of a class.
#[tactic(auto, unfolding(crate::specs::Form::behind_texts))]
fn behind_texts(members: &[Member]) -> &[Member]
    ensures { result.now ≡ spec.behind_texts members.now }
{
    let mut rest = members;
    while let [Member::Text(_, _), behind @ ..] = rest {
        rest = behind;
    }
    rest
}

/// What the first member returns, where it is a program of this name, and the members behind it.
fn program_first<'a>(members: &'a [Member], text: &str) -> Option<(&'a Tree, &'a [Member])>
    ensures { MatchOption result (spec.program_first members.now text.now ≡ None) (λ p. spec.program_first members.now text.now ≡ Some (p.0.now, p.1.now)) }
{
    match members {
        [Member::Func(func), behind @ ..] if is_program(func, text) => {
            match returned_of(&func.body) {
                Some(tree) => Some((tree, behind_texts(behind))),
                None => None,
            }
        }
        _ => None,
    }
}

/// Whether an expression is `UInt64(1)`.
fn is_one(tree: &Tree) -> bool
    ensures { result ≡ spec.is_one (spec.constant_of tree.now) }
{
    match constant_of(tree) {
        Some(number) => number == 1,
        None => false,
    }
}

/// Whether the clear state program returns 1 and nothing stands behind it.
fn is_last_one(tree: &Tree, behind: &[Member]) -> bool
    ensures { result ≡ (spec.is_end behind.now && spec.is_one (spec.constant_of tree.now)) }
{
    behind.is_empty() && is_one(tree)
}

/// What a class computes.
#[tactic(auto, unfolding(crate::specs::Form::computed))]
pub(crate) fn computed(class: &Class) -> Option<Sum>
    ensures { result ≡ spec.computed class.now }
{
    if !is_path(class.base.as_slice(), "Contract") {
        return None;
    }
    let members = behind_texts(class.members.as_slice());
    let (approval, behind) = program_first(members, "approval_program")?;
    let (clear, behind) = program_first(behind, "clear_state_program")?;
    if is_last_one(clear, behind) {
        sum_of(approval)
    } else {
        None
    }
}

fn is_import(import: &Import, text: &str) -> bool
    ensures { result ≡ spec.is_import import.now text.now }
{
    is_word(&import.name, text) && import.known_as.is_none()
}

fn are_imports(imports: &[Import]) -> bool
    ensures { result ≡ spec.are_imports imports.now }
{
    match imports {
        [first, second] => is_import(first, "Contract") && is_import(second, "UInt64"),
        _ => false,
    }
}

/// `from algopy import Contract, UInt64`
fn is_import_item(item: &Item) -> bool
    ensures { result ≡ spec.is_import_item item.now }
{
    match item {
        Item::From(_, path, imports) => {
            is_path(path.as_slice(), "algopy") && are_imports(imports.as_slice())
        }
        _ => false,
    }
}

/// What stands behind docstrings of a module.
#[tactic(auto, unfolding(crate::specs::Form::behind_items))]
fn behind_items(items: &[Item]) -> &[Item]
    ensures { result.now ≡ spec.behind_items items.now }
{
    let mut rest = items;
    while let [Item::Text(_, _), behind @ ..] = rest {
        rest = behind;
    }
    rest
}

/// The class that stands first, where nothing stands behind it.
fn only_class(items: &[Item]) -> Option<&Class>
    ensures { MatchOption result (spec.only_class items.now ≡ None) (λ c. spec.only_class items.now ≡ Some c.now) }
{
    match items {
        [Item::Class(class), behind @ ..] if behind_items(behind).is_empty() => Some(class),
        _ => None,
    }
}

/// The class of a module that is one import and one class.
#[tactic(auto, unfolding(crate::specs::Form::class_in))]
pub(crate) fn class_in(tree: &Module) -> Option<&Class>
    ensures { MatchOption result (spec.class_in tree.now ≡ None) (λ c. spec.class_in tree.now ≡ Some c.now) }
{
    match behind_items(tree.items.as_slice()) {
        [import, behind @ ..] if is_import_item(import) => only_class(behind_items(behind)),
        _ => None,
    }
}

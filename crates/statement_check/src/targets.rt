//! The variables of a function (Python reference 4.2.1): the names that are targets, in reading order, each once; P10 on those that are named as
//! a module name.

ghost use Rattle.std.specs.Prelude.{◌≡◌, [], ◌∷◌, ◌++◌, map, None, Some, MatchOption, OnOk, option_copied};
ghost use Rattle.puya_base.specs.declared.source.Place.{Place};
ghost use Rattle.source_headers.specs.Headers as headers;
ghost use Rattle.source_names.specs.Source as source;
ghost use Rattle.statement_check.specs.Lines as lines;
ghost use Rattle.statement_check.specs.Noting.{arm_targets, noted, optional_block, target_local};
ghost use Rattle.statement_check.specs.Targets as spec;

use meaning_rules::{Local, Status};
use puya_base::{List, Memory, Name, Refusal};
use py_grammar::{Block, Branch, Exprs, Simple, Stmt, Tree, Word};
use source_headers::clashes;
use source_names::{ModuleNames, NameSet, is_myself};
use std::alloc::Global;

/// The name that a target is, if it is one; parentheses change nothing.
#[cycle(target_name)]
pub(crate) fn target_name(tree: &Tree) -> Option<&Word>
    ensures { MatchOption result (spec.target_name (source.tree_of tree.now) ≡ None) (λ w. spec.target_name (source.tree_of tree.now) ≡ Some w.now) }
{
    match tree {
        Tree::Name(word) => Some(word),
        Tree::Paren(_, items, comma) => name_in(items.as_slice(), *comma),
        _ => None,
    }
}

/// The name that expressions with commas between them are, if it is one.
#[cycle(target_name)]
fn name_in(items: &[Tree], comma: bool) -> Option<&Word>
    ensures { (p : Place) → MatchOption result (spec.target_name (source.listed_at p (map source.tree_of items.now) comma) ≡ None) (λ w. spec.target_name (source.listed_at p (map source.tree_of items.now) comma) ≡ Some w.now) }
{
    if comma {
        return None;
    }
    match items {
        [only] => target_name(only),
        _ => None,
    }
}

/// The name that a target of a statement is, if it is one.
pub(crate) fn exprs_name(exprs: &Exprs) -> Option<&Word>
    ensures { MatchOption result (spec.target_name (lines.exprs_of exprs.now) ≡ None) (λ w. spec.target_name (lines.exprs_of exprs.now) ≡ Some w.now) }
{
    name_in(exprs.items.as_slice(), exprs.comma)
}

/// The targets of an unpacking, if it is one.
#[cycle(unpacked)]
fn unpacked(tree: &Tree) -> Option<&[Tree]>
    ensures { MatchOption result (spec.unpacked (source.tree_of tree.now) ≡ None) (λ ts. spec.unpacked (source.tree_of tree.now) ≡ Some (source.exs_of (map source.tree_of ts.now))) }
{
    match tree {
        Tree::Paren(_, items, comma) => unpacked_in(items.as_slice(), *comma),
        _ => None,
    }
}

#[cycle(unpacked)]
fn unpacked_in(items: &[Tree], comma: bool) -> Option<&[Tree]>
    ensures { (p : Place) → MatchOption result (spec.unpacked (source.listed_at p (map source.tree_of items.now) comma) ≡ None) (λ ts. spec.unpacked (source.listed_at p (map source.tree_of items.now) comma) ≡ Some (source.exs_of (map source.tree_of ts.now))) }
{
    if comma {
        return Some(items);
    }
    match items {
        [only] => unpacked(only),
        _ => Some(items),
    }
}

/// The targets of a statement, if it is an unpacking.
pub(crate) fn exprs_unpacked(exprs: &Exprs) -> Option<&[Tree]>
    ensures { MatchOption result (spec.unpacked (lines.exprs_of exprs.now) ≡ None) (λ ts. spec.unpacked (lines.exprs_of exprs.now) ≡ Some (source.exs_of (map source.tree_of ts.now))) }
{
    unpacked_in(exprs.items.as_slice(), exprs.comma)
}

/// Adds a variable that is first a target; P10 where it is named as a module name.
fn add_first(
    alloc: Global,
    told: &mut List<Refusal>,
    names: &ModuleNames,
    locals: &mut Vec<Local>,
    word: &Word,
) -> Result<(), Memory>
    ensures told { OnOk result (told.new ≡ told.old ++ headers.clashes names.now word.now) }
    ensures locals { OnOk result (locals.new.items ≡ locals.old.items ++ target_local word.now ∷ []) }
{
    clashes(told, names, word)?;
    let name = Name::new(alloc, word.name.as_str())?;
    locals.push(Local {
        name,
        status: Status::Unseen,
    })?;
    Ok(())
}

/// A name that is a target: a variable where it wasn't seen before; `self` is none in a member.
fn add_target(
    alloc: Global,
    told: &mut List<Refusal>,
    names: &ModuleNames,
    inside: bool,
    seen: &mut NameSet,
    locals: &mut Vec<Local>,
    word: &Word,
) -> Result<(), Memory>
    ensures told { OnOk result (told.new ≡ told.old ++ headers.all_clashes names.now (spec.first_ones inside seen.old (word.now ∷ []))) }
    ensures seen { OnOk result (seen.new ≡ noted inside seen.old (word.now ∷ [])) }
    ensures locals { OnOk result (locals.new.items ≡ locals.old.items ++ map target_local (spec.first_ones inside seen.old (word.now ∷ []))) }
{
    if inside && is_myself(word.name.as_str()) {
        return Ok(());
    }
    if seen.note(alloc, word.name.as_str())? {
        return Ok(());
    }
    add_first(alloc, told, names, locals, word)
}

fn add_optional(
    alloc: Global,
    told: &mut List<Refusal>,
    names: &ModuleNames,
    inside: bool,
    seen: &mut NameSet,
    locals: &mut Vec<Local>,
    word: Option<&Word>,
) -> Result<(), Memory>
    ensures told { OnOk result (told.new ≡ told.old ++ headers.all_clashes names.now (spec.first_ones inside seen.old (spec.one_name (option_copied word.entry)))) }
    ensures seen { OnOk result (seen.new ≡ noted inside seen.old (spec.one_name (option_copied word.entry))) }
    ensures locals { OnOk result (locals.new.items ≡ locals.old.items ++ map target_local (spec.first_ones inside seen.old (spec.one_name (option_copied word.entry)))) }
{
    match word {
        Some(word) => add_target(alloc, told, names, inside, seen, locals, word),
        None => Ok(()),
    }
}

/// The targets of an unpacking.
fn add_names(
    alloc: Global,
    told: &mut List<Refusal>,
    names: &ModuleNames,
    inside: bool,
    seen: &mut NameSet,
    locals: &mut Vec<Local>,
    targets: &[Tree],
) -> Result<(), Memory>
    ensures told { OnOk result (told.new ≡ told.old ++ headers.all_clashes names.now (spec.first_ones inside seen.old (spec.names_in (source.exs_of (map source.tree_of targets.now))))) }
    ensures seen { OnOk result (seen.new ≡ noted inside seen.old (spec.names_in (source.exs_of (map source.tree_of targets.now)))) }
    ensures locals { OnOk result (locals.new.items ≡ locals.old.items ++ map target_local (spec.first_ones inside seen.old (spec.names_in (source.exs_of (map source.tree_of targets.now))))) }
{
    let mut rest = targets;
    while let [first, behind @ ..] = rest {
        add_optional(alloc, told, names, inside, seen, locals, target_name(first))?;
        rest = behind;
    }
    Ok(())
}

/// The targets of an assignment.
fn add_targets(
    alloc: Global,
    told: &mut List<Refusal>,
    names: &ModuleNames,
    inside: bool,
    seen: &mut NameSet,
    locals: &mut Vec<Local>,
    targets: &Exprs,
) -> Result<(), Memory>
    ensures told { let t = lines.exprs_of targets.now in OnOk result (told.new ≡ told.old ++ headers.all_clashes names.now (spec.first_ones inside seen.old (spec.unpacked_names t (spec.unpacked t)))) }
    ensures seen { let t = lines.exprs_of targets.now in OnOk result (seen.new ≡ noted inside seen.old (spec.unpacked_names t (spec.unpacked t))) }
    ensures locals { let t = lines.exprs_of targets.now in OnOk result (locals.new.items ≡ locals.old.items ++ map target_local (spec.first_ones inside seen.old (spec.unpacked_names t (spec.unpacked t)))) }
{
    match exprs_unpacked(targets) {
        Some(targets) => add_names(alloc, told, names, inside, seen, locals, targets),
        None => add_optional(
            alloc,
            told,
            names,
            inside,
            seen,
            locals,
            exprs_name(targets),
        ),
    }
}

fn add_line(
    alloc: Global,
    told: &mut List<Refusal>,
    names: &ModuleNames,
    inside: bool,
    seen: &mut NameSet,
    locals: &mut Vec<Local>,
    line: &Simple,
) -> Result<(), Memory>
    ensures told { OnOk result (told.new ≡ told.old ++ headers.all_clashes names.now (spec.first_ones inside seen.old (spec.line_targets (lines.line_of line.now)))) }
    ensures seen { OnOk result (seen.new ≡ noted inside seen.old (spec.line_targets (lines.line_of line.now))) }
    ensures locals { OnOk result (locals.new.items ≡ locals.old.items ++ map target_local (spec.first_ones inside seen.old (spec.line_targets (lines.line_of line.now)))) }
{
    match line {
        Simple::Assign(targets, _) => add_targets(
            alloc, told, names, inside, seen, locals, targets,
        ),
        Simple::Update(target, _, _) => add_optional(
            alloc,
            told,
            names,
            inside,
            seen,
            locals,
            exprs_name(target),
        ),
        Simple::Annotate(target, _, _) => add_optional(
            alloc,
            told,
            names,
            inside,
            seen,
            locals,
            exprs_name(target),
        ),
        _ => Ok(()),
    }
}

/// Adds the variables of a block, where they are first targets.
#[cycle(targets)]
pub fn add_block(
    alloc: Global,
    told: &mut List<Refusal>,
    names: &ModuleNames,
    inside: bool,
    seen: &mut NameSet,
    locals: &mut Vec<Local>,
    block: &Block,
) -> Result<(), Memory>
    ensures told { OnOk result (told.new ≡ told.old ++ headers.all_clashes names.now (spec.first_ones inside seen.old (spec.all_targets (lines.block_of block.now)))) }
    ensures seen { OnOk result (seen.new ≡ noted inside seen.old (spec.all_targets (lines.block_of block.now))) }
    ensures locals { OnOk result (locals.new.items ≡ locals.old.items ++ map target_local (spec.first_ones inside seen.old (spec.all_targets (lines.block_of block.now)))) }
{
    match block {
        Block::Line(line) => add_line(alloc, told, names, inside, seen, locals, line),
        Block::Lines(stmts) => add_all(alloc, told, names, inside, seen, locals, stmts.as_slice()),
    }
}

#[cycle(targets)]
fn add_all(
    alloc: Global,
    told: &mut List<Refusal>,
    names: &ModuleNames,
    inside: bool,
    seen: &mut NameSet,
    locals: &mut Vec<Local>,
    stmts: &[Stmt],
) -> Result<(), Memory>
    ensures told { OnOk result (told.new ≡ told.old ++ headers.all_clashes names.now (spec.first_ones inside seen.old (spec.all_targets (lines.stmts_of stmts.now)))) }
    ensures seen { OnOk result (seen.new ≡ noted inside seen.old (spec.all_targets (lines.stmts_of stmts.now))) }
    ensures locals { OnOk result (locals.new.items ≡ locals.old.items ++ map target_local (spec.first_ones inside seen.old (spec.all_targets (lines.stmts_of stmts.now)))) }
{
    for stmt in stmts {
        add_stmt(alloc, told, names, inside, seen, locals, stmt)?;
    }
    Ok(())
}

#[cycle(targets)]
fn add_stmt(
    alloc: Global,
    told: &mut List<Refusal>,
    names: &ModuleNames,
    inside: bool,
    seen: &mut NameSet,
    locals: &mut Vec<Local>,
    stmt: &Stmt,
) -> Result<(), Memory>
    ensures told { OnOk result (told.new ≡ told.old ++ headers.all_clashes names.now (spec.first_ones inside seen.old (spec.targets (lines.stmt_of stmt.now)))) }
    ensures seen { OnOk result (seen.new ≡ noted inside seen.old (spec.targets (lines.stmt_of stmt.now))) }
    ensures locals { OnOk result (locals.new.items ≡ locals.old.items ++ map target_local (spec.first_ones inside seen.old (spec.targets (lines.stmt_of stmt.now)))) }
{
    match stmt {
        Stmt::Simple(line) => add_line(alloc, told, names, inside, seen, locals, line),
        Stmt::If(_, _, block, branches, otherwise) => {
            add_block(alloc, told, names, inside, seen, locals, block)?;
            add_branches(
                alloc,
                told,
                names,
                inside,
                seen,
                locals,
                branches.as_slice(),
            )?;
            add_rest(alloc, told, names, inside, seen, locals, otherwise)
        }
        Stmt::While(_, _, block) => add_block(alloc, told, names, inside, seen, locals, block),
        Stmt::For(_, word, _, block) => {
            add_target(alloc, told, names, inside, seen, locals, word)?;
            add_block(alloc, told, names, inside, seen, locals, block)
        }
    }
}

#[cycle(targets)]
fn add_rest(
    alloc: Global,
    told: &mut List<Refusal>,
    names: &ModuleNames,
    inside: bool,
    seen: &mut NameSet,
    locals: &mut Vec<Local>,
    block: &Option<Block>,
) -> Result<(), Memory>
    ensures told { OnOk result (told.new ≡ told.old ++ headers.all_clashes names.now (spec.first_ones inside seen.old (spec.all_targets (optional_block block.now)))) }
    ensures seen { OnOk result (seen.new ≡ noted inside seen.old (spec.all_targets (optional_block block.now))) }
    ensures locals { OnOk result (locals.new.items ≡ locals.old.items ++ map target_local (spec.first_ones inside seen.old (spec.all_targets (optional_block block.now)))) }
{
    match block {
        Some(block) => add_block(alloc, told, names, inside, seen, locals, block),
        None => Ok(()),
    }
}

#[cycle(targets)]
fn add_branches(
    alloc: Global,
    told: &mut List<Refusal>,
    names: &ModuleNames,
    inside: bool,
    seen: &mut NameSet,
    locals: &mut Vec<Local>,
    branches: &[Branch],
) -> Result<(), Memory>
    ensures told { OnOk result (told.new ≡ told.old ++ headers.all_clashes names.now (spec.first_ones inside seen.old (arm_targets (map lines.branch_of branches.now)))) }
    ensures seen { OnOk result (seen.new ≡ noted inside seen.old (arm_targets (map lines.branch_of branches.now))) }
    ensures locals { OnOk result (locals.new.items ≡ locals.old.items ++ map target_local (spec.first_ones inside seen.old (arm_targets (map lines.branch_of branches.now)))) }
{
    for branch in branches {
        add_block(alloc, told, names, inside, seen, locals, &branch.block)?;
    }
    Ok(())
}

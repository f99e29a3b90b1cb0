//! Typed statements, where what they are made of is known.

ghost use Rattle.std.specs.Prelude.{◌≡◌, [], ◌∷◌, Some, IfOk};
ghost use Rattle.statement_check.specs.Statements as spec;
ghost use Rattle.statement_check.specs.Parting.{joined, known_nothing};

use awst::{Stmt, StmtKind, Stmts, Target, Targets};
use meaning_rules::{Typed, copied};
use puya_base::{List, Memory, Place};
use source_names::SourceType;
use std::alloc::Global;

/// The type alone, where it is known.
pub(crate) fn type_in(alloc: Global, typed: &Option<Typed>) -> Result<Option<SourceType>, Memory>
    ensures { IfOk result (λ t. t ≡ spec.type_in typed.now) }
{
    match typed {
        Some(typed) => Ok(Some(copied(alloc, &typed.ty)?)),
        None => Ok(None),
    }
}

/// No statement, where that is what is known.
pub(crate) fn nothing_known(alloc: Global, known: bool) -> Option<Stmts>
    ensures { result ≡ known_nothing known }
{
    if known { Some(List::new(alloc)) } else { None }
}

/// One statement.
pub(crate) fn one_stmt(alloc: Global, place: Place, kind: StmtKind) -> Result<Option<Stmts>, Memory>
    ensures { IfOk result (λ ss. ss ≡ Some (spec.stmt place kind)) }
{
    let mut stmts = List::new(alloc);
    stmts.push(Stmt { place, kind })?;
    Ok(Some(stmts))
}

/// A variable as the one target.
pub(crate) fn one_target(alloc: Global, number: u32) -> Result<Targets, Memory>
    ensures { IfOk result (λ ts. ts ≡ Target.Local number ∷ []) }
{
    let mut targets = List::new(alloc);
    targets.push(Target::Local(number))?;
    Ok(targets)
}

/// Statements behind others, where all are known.
pub(crate) fn joined(first: Option<Stmts>, behind: Option<Stmts>) -> Result<Option<Stmts>, Memory>
    ensures { IfOk result (λ ss. ss ≡ joined first behind) }
{
    match first {
        Some(first) => joined_to(first, behind),
        None => Ok(None),
    }
}

fn joined_to(first: Stmts, behind: Option<Stmts>) -> Result<Option<Stmts>, Memory>
    ensures { IfOk result (λ ss. ss ≡ joined (Some first) behind) }
{
    match behind {
        Some(behind) => {
            let mut all = first;
            all.append(behind)?;
            Ok(Some(all))
        }
        None => Ok(None),
    }
}

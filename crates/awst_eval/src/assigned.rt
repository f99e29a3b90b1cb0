//! The scalars of the variables that statements assign.

ghost use Rattle.std.specs.Prelude.{◌≡◌, map, IfOk};
ghost use Rattle.awst.specs.Plain.{assigned_in_arms, assigned_scalars, arm_of, statement_of};
ghost use Rattle.awst_eval.specs.Frames.{variables_of, inner_of};

use crate::frame::Frame;
use crate::prices::exact;
use awst::{Arm, Stmt, assigned, assigned_by_arms, sizes};
use puya_base::Memory;

/// The scalars of the variables that a statement assigns.
pub(crate) fn assigned_in(frame: &Frame<'_>, s: &Stmt) -> Result<u64, Memory>
    ensures { IfOk result (λ n. n ≡ inner_of frame.now s.now) }
{
    let sizes = sizes(frame.alloc, frame.func)?;
    Ok(exact(assigned(frame.alloc, sizes.as_slice(), s)?)?)
}

/// The same of the arms of an `if` and of the rest behind them.
pub(crate) fn arms_assign(frame: &Frame<'_>, arms: &[Arm], rest: &[Stmt]) -> Result<u64, Memory>
    ensures { IfOk result (λ n. n ≡ assigned_scalars (variables_of frame.now) (assigned_in_arms (map arm_of arms.now) (map statement_of rest.now))) }
{
    let sizes = sizes(frame.alloc, frame.func)?;
    Ok(exact(assigned_by_arms(frame.alloc, sizes.as_slice(), arms, rest)?)?)
}

//! How statements leave off.

ghost use Rattle.std.specs.Prelude.{◌≡◌, List, ℕ};
ghost use Rattle.awst.specs.Values.{Val};
ghost use Rattle.awst.specs.Meaning.{returned as returned_there};
ghost use Rattle.awst_eval.specs.Shown.{meant};
ghost use Rattle.awst_eval.specs.Flows.{flow_of, ended_by as ended_there};

use crate::datum::Datum;

/// How a statement leaves off; the variables are as they are then.
#[derive(Drop)]
pub(crate) enum Flow {
    /// It goes on.
    On,
    /// It returns a value.
    Back(Datum),
    /// It breaks its loop.
    Broke,
    /// It goes on with the next turn of its loop.
    Continued,
}

/// What a function gives: a function that returns no value gives none.
pub(crate) fn returned(flow: Flow) -> Datum
    ensures { (env : List Val) → meant result ≡ returned_there (flow_of env flow) }
{
    match flow {
        Flow::Back(value) => value,
        _ => Datum::Nothing,
    }
}

/// How a loop ends by how a turn of it left off; none where its next turn follows.
pub(crate) fn ended_by(flow: Flow) -> Option<Flow>
    ensures { result ≡ ended_there flow }
{
    match flow {
        Flow::On => None,
        Flow::Continued => None,
        Flow::Back(value) => Some(Flow::Back(value)),
        Flow::Broke => Some(Flow::On),
    }
}

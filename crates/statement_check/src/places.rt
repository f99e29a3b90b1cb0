//! Where the expressions of a statement begin.

ghost use Rattle.std.specs.Prelude.{◌≡◌};
ghost use Rattle.source_names.specs.Source as source;
ghost use Rattle.statement_check.specs.Lines as lines;

use expression_check::listed_place;
use puya_base::Place;
use py_grammar::Exprs;

/// No place; the grammar has no statement of no expressions.
const NOWHERE: Place = Place { line: 0, col: 0 };

/// The place of the first expression of a statement.
pub(crate) fn exprs_place(exprs: &Exprs) -> Place
    ensures { result ≡ source.place_of (lines.exprs_of exprs.now) }
{
    listed_place(NOWHERE, exprs.items.as_slice())
}

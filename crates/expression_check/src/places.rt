//! Where expressions with commas between them begin.

ghost use Rattle.std.specs.Prelude.{◌≡◌, map};
ghost use Rattle.source_names.specs.Source as source;

use puya_base::Place;
use py_grammar::Tree;
use source_names::place_of;

/// The place of the first of these expressions, or else this one.
pub fn listed_place(place: Place, items: &[Tree]) -> Place
    ensures { result ≡ source.first_place place (map source.tree_of items.now) }
{
    match items {
        [] => place,
        [first, ..] => place_of(first),
    }
}

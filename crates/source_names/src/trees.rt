//! Where expressions stand.

ghost use Rattle.std.specs.Prelude.{◌≡◌};
ghost use Rattle.source_names.specs.Source as source;

use puya_base::Place;
use py_grammar::Tree;

/// The place of an expression's first token.
#[tactic(auto, using(crate::proofs::Parens::parens_place))]
pub fn place_of(tree: &Tree) -> Place
    ensures { result ≡ source.place_of (source.tree_of tree.now) }
{
    match tree {
        Tree::Name(word) => word.place,
        Tree::Number(literal) => literal.place,
        Tree::Text(place, _)
        | Tree::Bytes(place, _)
        | Tree::Flag(place, _)
        | Tree::Paren(place, _, _)
        | Tree::Display(place, _, _)
        | Tree::Member(place, _, _)
        | Tree::Index(place, _, _, _)
        | Tree::Slice(place, _, _, _)
        | Tree::Call(place, _, _, _)
        | Tree::Power(place, _, _)
        | Tree::Unary(place, _, _)
        | Tree::Binary(place, _, _, _)
        | Tree::Compare(place, _, _, _)
        | Tree::Choose(place, _, _, _) => *place,
    }
}

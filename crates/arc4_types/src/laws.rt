//! Laws over the definitions.

ghost use Rattle.std.specs.Prelude.{◌≡◌, ◌<◌, List, ℕ, Ok, Some, slice_index};
ghost use Rattle.arc4_types.specs.Types.{Ty};
ghost use Rattle.arc4_types.specs.Values.{Val};
ghost use Rattle.arc4_types.specs.Encoding.{coding};
ghost use Rattle.arc4_types.specs.Reading.{decoding};

/// Reading an encoding gives its value, whatever the type.
pub fn encodings_are_read()
    ensures { (t : Ty) (v : Val) (bytes : List ℕ) → coding t v ≡ Some bytes → decoding t bytes ≡ Ok v }
{}

/// What reading takes is an encoding of what it gives.
pub fn only_encodings_are_read()
    ensures { (t : Ty) (v : Val) (bytes : List ℕ) → ((i : ℕ) → slice_index bytes i < 256) → decoding t bytes ≡ Ok v → coding t v ≡ Some bytes }
{}

/// No two values of a type have one encoding.
pub fn encoding_is_injective()
    ensures { (t : Ty) (v w : Val) (bytes : List ℕ) → coding t v ≡ Some bytes → coding t w ≡ Some bytes → v ≡ w }
{}

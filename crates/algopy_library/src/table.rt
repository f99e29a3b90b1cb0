//! Tables of names.

ghost use Rattle.std.specs.Prelude.{◌≡◌, map};
ghost use Rattle.algopy_library.specs.Tables as spec;

/// What a table has under a name.
pub(crate) fn named_in<T: Copy>(table: &[(&'static [u8], T)], name: &[u8]) -> Option<T>
    ensures { result ≡ spec.named_in (map (λ e. (e.0.now, e.1)) table.now) name.now }
{
    for (known, value) in table {
        if *known == name {
            return Some(*value);
        }
    }
    None
}

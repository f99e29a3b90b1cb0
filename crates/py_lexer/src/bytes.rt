//! Which bytes a source may have, and where they stand.

ghost use Rattle.std.specs.Prelude.{◌≡◌, ◌≤◌, ◌+◌, ◌<◌, ◌^◌, length, drop};
ghost use Rattle.py_lexer.specs.Bytes as spec;

use puya_base::Place;

/// The place of the first control byte other than tab, LF and CR before LF, or the length.
fn control_at(bytes: &[u8]) -> usize
    ensures { result ≡ spec.control_at bytes.now }
{
    for (i, b) in bytes.iter().enumerate() {
        let allowed = match *b {
            b'\t' | b'\n' => true,
            b'\r' => i + 1 < bytes.len() && bytes[i + 1] == b'\n',
            b => 32 <= b && b != 127,
        };
        if !allowed {
            return i;
        }
    }
    bytes.len()
}

/// The place of the first byte that no source has, or the length.
pub fn first_bad(bytes: &[u8]) -> usize
    ensures value { result ≡ spec.first_bad bytes.now }
    ensures within { result ≤ length bytes.now }
{
    let control = control_at(bytes);
    match std::str::from_utf8(bytes) {
        Ok(_) => control,
        Err(e) => control.min(e.valid_up_to()),
    }
}

/// The length of the byte order mark at the front.
pub fn order_mark_len(bytes: &[u8]) -> usize
    ensures value { result ≡ spec.order_mark_len bytes.now }
    ensures within { result ≤ length bytes.now }
{
    if bytes.starts_with(&[239, 187, 191]) {
        3
    } else {
        0
    }
}

/// The place behind these bytes, of which the first stands at `place`.
pub fn place_after(mut place: Place, bytes: &[u8]) -> Place
    requires line { place.line + length bytes.now < 2 ^ 32 }
    requires column { place.col + length bytes.now < 2 ^ 32 }
    ensures value { result ≡ spec.place_after place bytes.now }
    ensures line_bound { result.line ≤ place.line + length bytes.now }
    ensures column_bound { result.col ≤ place.col + length bytes.now }
{
    for b in bytes {
        if *b == b'\n' {
            place = Place {
                line: place.line + 1,
                col: 1,
            };
        } else {
            place.col += 1;
        }
    }
    place
}

/// The length of the line end at the front, or 0.
pub fn line_end_len(bytes: &[u8]) -> usize
    ensures value { result ≡ spec.line_end_len bytes.now }
    ensures within { result ≤ length bytes.now }
{
    match bytes {
        [b'\n', ..] => 1,
        [b'\r', b'\n', ..] => 2,
        _ => 0,
    }
}

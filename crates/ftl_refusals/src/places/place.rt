//! Lines and columns.

ghost use Rattle.std.specs.Prelude.{◌≡◌, ◌+◌, ◌<◌, ◌≤◌, ◌^◌, ◌++◌, ◌∷◌, [], List, ℕ, length};
ghost use Rattle.ftl_refusals.specs.places.Places.{begins_character, place_at, place_behind};

/// A line and a column of a text, both from 1. A column counts characters, and not bytes.
#[derive(Clone, Copy)]
pub struct Place {
    pub line: usize,
    pub column: usize,
}

/// The place of a byte of a text, or of its end.
pub fn place_of(text: &[u8], byte: usize) -> Place
    requires byte { byte ≤ length text.now }
    ensures place { result ≡ place_at text.now byte }
{
    let (before, _) = text.split_at(byte);
    let mut place = Place { line: 1, column: 1 };
    for b in before {
        place = next_place(place, *b);
    }
    place
}

/// The place behind one more byte.
fn next_place(place: Place, b: u8) -> Place
    requires line { place.line < 2 ^ 63 + 1 }
    requires column { place.column < 2 ^ 63 + 1 }
    ensures next { (before : List ℕ) → place ≡ place_behind before
        → result ≡ place_behind (before ++ b ∷ []) }
{
    let Place { line, column } = place;
    if b == b'\n' {
        return Place {
            line: line + 1,
            column: 1,
        };
    }
    if begins_character(b) {
        return Place {
            line,
            column: column + 1,
        };
    }
    place
}

/// Whether a character begins with the byte.
fn begins_character(b: u8) -> bool
    ensures begins { result ≡ begins_character b }
{
    b < 128 || b > 191
}

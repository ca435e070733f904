//! Laws of places.

ghost use Rattle.std.specs.Prelude.{◌≡◌, ℕ, List};
ghost use Rattle.ftl_refusals.specs.places.Places.{BeginsCharacter, byte_at, place_at};

/// A law: two bytes of a text at which characters begin have one place only where they are one
/// byte. The end of the text counts as such a byte.
pub fn bytes_differ_in_place()
    ensures differ { (text : List ℕ) (i j : ℕ) → BeginsCharacter text i → BeginsCharacter text j
        → place_at text i ≡ place_at text j → i ≡ j }
{}

/// A law: from the line and the column of a byte at which a character begins, the byte comes back.
pub fn byte_comes_back()
    ensures back { (text : List ℕ) (byte : ℕ) → BeginsCharacter text byte
        → byte_at text (place_at text byte) ≡ byte }
{}

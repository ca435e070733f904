ghost use Rattle.std.specs.Prelude.{◌≡◌, ℕ, ◌<◌, List, length, slice_index_or, Contains};
ghost use Rattle.ftl_model.specs.lists.Lists.{place_in, AreDistinct, sorted_by, NoneFalls};

/// A law: a number that a list contains stands at its place, and in a list without repetition each
/// place is that of its number.
pub fn places_in_lists()
    ensures within { (xs : List ℕ) (x : ℕ) → Contains xs x → place_in xs x < length xs }
    ensures is { (xs : List ℕ) (x d : ℕ) → Contains xs x → slice_index_or xs (place_in xs x) d ≡ x }
    ensures back { (xs : List ℕ) → AreDistinct xs → (n d : ℕ) → n < length xs
        → place_in xs (slice_index_or xs n d) ≡ n }
{}

/// A law: a list that is put in order by its own numbers has the same entries, and no entry is less
/// than one before it.
pub fn sorted_lists()
    ensures same { (xs : List ℕ) (x : ℕ) → Contains xs x → Contains (sorted_by (λ n. n) xs) x }
    ensures no_more { (xs : List ℕ) (x : ℕ) → Contains (sorted_by (λ n. n) xs) x → Contains xs x }
    ensures order { (xs : List ℕ) → NoneFalls (λ n. n) (sorted_by (λ n. n) xs) }
    ensures distinct { (xs : List ℕ) → AreDistinct xs → AreDistinct (sorted_by (λ n. n) xs) }
{}

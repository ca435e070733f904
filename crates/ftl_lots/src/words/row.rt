//! Words one after the other.
ghost use Rattle.std.specs.Prelude.{◌≡◌, ◌<◌, ℕ, List, length, slice_index, slice_set};

/// Words that are read and written by their places.
pub(crate) trait WordRow {
    ghost words: { Self → List ℕ };

    /// What it is laid out as.
    ghost layout: { Self → ℕ × ℕ };

    /// That it is laid out so.
    ghost fit: { Self → Type 0 };

    fn word(&self, place: usize) -> u64
        requires fit { Self.fit self.now }
        requires place { place < length (Self.words self.now) }
        ensures word { result ≡ slice_index (Self.words self.now) place };

    fn set_word(&mut self, place: usize, word: u64)
        requires fit { Self.fit self.old }
        requires place { place < length (Self.words self.old) }
        ensures words { Self.words self.new ≡ slice_set (Self.words self.old) place word }
        ensures fit { Self.fit self.new }
        ensures layout { Self.layout self.new ≡ Self.layout self.old };
}

impl WordRow for Vec<u64> {
    ghost words = { λ v. v.items };

    ghost layout = { λ v. (0, 0) };

    ghost fit = { λ v. Unit {0} };

    fn word(&self, place: usize) -> u64 {
        self[place]
    }

    fn set_word(&mut self, place: usize, word: u64) {
        self[place] = word;
    }
}

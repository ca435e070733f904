//! Words cut into parts.
ghost use Rattle.std.specs.Prelude.{◌≡◌, ◌<◌, ◌+◌, ◌*◌};

use crate::words::row::WordRow;

/// Words in parts of one size; the last ones may have fewer.
#[derive(Drop)]
pub(crate) struct Parts {
    pub(crate) size: u32,
    pub(crate) parts: Vec<Vec<u64>>,
}

impl WordRow for Parts {
    ghost use Rattle.std.specs.Prelude.{length};
    ghost use Rattle.ftl_lots.specs.words.Parts.{IsCut, all_words};

    ghost words = { λ p. all_words p.parts.items };

    ghost layout = { λ p. (p.size, length p.parts.items) };

    ghost fit = { λ p. IsCut p.size p.parts.items };

    fn word(&self, place: usize) -> u64 {
        let (part, offset) = split(self.size, place);
        let words = self.parts[part].as_slice();
        words[offset]
    }

    fn set_word(&mut self, place: usize, word: u64) {
        let (part, offset) = split(self.size, place);
        let words = self.parts[part].as_mut_slice();
        words[offset] = word;
    }
}

/// In which part of this size a place lies, and where in it.
fn split(size: u32, place: usize) -> (usize, usize)
    requires some { 0 < size }
    ensures place { place ≡ result.0 * size + result.1 }
    ensures offset { result.1 < size }
{
    let size = size as usize;
    (place / size, place % size)
}

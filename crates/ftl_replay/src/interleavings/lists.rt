//! The lists of a replayed state, which contracts see as lists.
ghost use Rattle.std.specs.Prelude.{◌≡◌, [], ◌∷◌, ◌++◌, OnOk, OnErr};

use crate::interleavings::place::ReplayPlace;
use std::alloc::{AllocError, Global};
use std::marker::Model;

/// Words of cells, of states or of counters.
#[derive(Debug, Drop)]
pub struct WordList {
    words: Vec<u64>,
}

impl Model for WordList {
    ghost use Rattle.std.specs.Prelude.{ℕ, List};

    ghost Value = { List ℕ };

    ghost view = { λ l. l.words.items };
}

impl WordList {
    pub fn new(alloc: Global) -> WordList
        ensures empty { result ≡ [] }
    {
        WordList {
            words: Vec::new(alloc),
        }
    }

    pub(crate) fn from_vec(words: Vec<u64>) -> WordList
        ensures entries { result ≡ words.items }
    {
        WordList { words }
    }

    /// Adds a word at the end.
    pub fn push(&mut self, entry: u64) -> Result<(), AllocError>
        ensures pushed { OnOk result (self.new ≡ self.old ++ entry ∷ []) }
        ensures stays { OnErr result (self.new ≡ self.old) }
    {
        self.words.push(entry)?;
        Ok(())
    }

    pub fn as_slice(&self) -> &[u64]
        ensures entries { result.now ≡ self.now }
    {
        self.words.as_slice()
    }
}

/// Places of hands, in the order of their numbers.
#[derive(Debug, Drop)]
pub struct PlaceList {
    places: Vec<ReplayPlace>,
}

impl Model for PlaceList {
    ghost use Rattle.std.specs.Prelude.{List};
    ghost use Rattle.ftl_replay.specs.declared.interleavings.place.ReplayPlace.{ReplayPlace};

    ghost Value = { List ReplayPlace };

    ghost view = { λ l. l.places.items };
}

impl PlaceList {
    pub fn new(alloc: Global) -> PlaceList
        ensures empty { result ≡ [] }
    {
        PlaceList {
            places: Vec::new(alloc),
        }
    }

    pub(crate) fn from_vec(places: Vec<ReplayPlace>) -> PlaceList
        ensures entries { result ≡ places.items }
    {
        PlaceList { places }
    }

    /// Adds the place of one more hand.
    pub fn push(&mut self, entry: ReplayPlace) -> Result<(), AllocError>
        ensures pushed { OnOk result (self.new ≡ self.old ++ entry ∷ []) }
        ensures stays { OnErr result (self.new ≡ self.old) }
    {
        self.places.push(entry)?;
        Ok(())
    }

    pub fn as_slice(&self) -> &[ReplayPlace]
        ensures entries { result.now ≡ self.now }
    {
        self.places.as_slice()
    }
}

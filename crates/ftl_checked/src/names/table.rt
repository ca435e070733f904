ghost use Rattle.std.specs.Prelude.{◌≡◌, ◌<◌, ℕ, List, [], ◌∷◌, ◌++◌, length, IfOk, OnOk};
ghost use Rattle.std.specs.List.{position};
ghost use Rattle.ftl_checked.specs.names.Table.{FindsAll};
ghost use Rattle.std.specs.Str.{bytes_eq};

use ftl_tokens::Name;
use sqlite_items::Items;
use std::alloc::{AllocError, Global};
use std::collections::HashMap;
use std::marker::Model;

/// Names in order. Contracts see it as the list of them.
#[derive(Drop)]
pub struct NameTable {
    names: Items<Name>,
    /// The first place of each name.
    places: HashMap<String, u32>,
}

impl Model for NameTable {
    ghost use Rattle.std.specs.Prelude.{ℕ, List};
    ghost use Rattle.ftl_checked.specs.names.Table.{FindsAll};

    ghost Value = { List (List ℕ) };

    ghost view = { λ t. t.names };

    ghost invariant = { λ t. FindsAll t.names t.places };
}

impl NameTable {
    pub fn new(alloc: Global, names: Items<Name>) -> Result<NameTable, AllocError>
        requires few { length names < 4294967296 }
        ensures names { IfOk result (λ t. t ≡ names) }
    {
        let places = places_of(alloc, names.as_slice())?;
        Ok(NameTable { names, places })
    }

    pub fn names(&self) -> &[Name]
        ensures names { result.now ≡ self.now }
    {
        self.names.as_slice()
    }

    /// The first place of the name with this text.
    pub fn place(&self, text: &str) -> Option<u32>
        ensures place { result ≡ position (bytes_eq text.now) self.now }
    {
        self.places.get(text).copied()
    }
}

fn places_of(alloc: Global, names: &[Name]) -> Result<HashMap<String, u32>, AllocError>
    requires few { length names.now < 4294967296 }
    ensures places { IfOk result (λ m. FindsAll names.now m) }
{
    let mut places = HashMap::new(alloc);
    for (place, name) in names.iter().enumerate() {
        add(alloc, &mut places, name, place as u32)?;
    }
    Ok(places)
}

/// Keeps the place of a name that is not there yet.
fn add(
    alloc: Global,
    places: &mut HashMap<String, u32>,
    name: &Name,
    place: u32,
) -> Result<(), AllocError>
    ensures added { OnOk result ((before : List (List ℕ)) → length before ≡ place
        → FindsAll before places.old → FindsAll (before ++ name.now ∷ []) places.new) }
{
    if places.get(name.text()).is_none() {
        places.insert(String::from_str(alloc, name.text())?, place)?;
    }
    Ok(())
}

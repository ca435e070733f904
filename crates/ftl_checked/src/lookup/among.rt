//! Whether a name is one of a table.
ghost use Rattle.std.specs.Prelude.{◌≡◌, ◌≤◌, false, length, nat_lt, take, IfOk};
ghost use Rattle.std.specs.Option.{option_map_or};
ghost use Rattle.ftl_meaning.specs.faults.Numbering.{is_among};

use crate::names::NameTable;
use ftl_tokens::Name;
use sqlite_items::Items;
use std::alloc::{AllocError, Global};

/// Whether the name stands among the first `place` names of the table.
pub fn stands_before(table: &NameTable, name: &Name, place: usize) -> bool
    requires within { place ≤ length table.now }
    ensures before { result ≡ is_among (take place table.now) name.now }
{
    is_below(table.place(name.text()), place)
}

fn is_below(found: Option<u32>, place: usize) -> bool
    ensures below { result ≡ option_map_or (λ n. nat_lt n place) found false }
{
    match found {
        Some(first) => (first as usize) < place,
        None => false,
    }
}

pub fn is_in(table: &NameTable, name: &Name) -> bool
    ensures among { result ≡ is_among table.now name.now }
{
    stands_before(table, name, table.names().len())
}

pub fn copies(alloc: Global, names: &[Name]) -> Result<Items<Name>, AllocError>
    ensures names { IfOk result (λ n. n ≡ names.now) }
{
    let mut found = Items::new(alloc);
    for name in names {
        found.push(name.copy()?)?;
    }
    Ok(found)
}

//! Rows of what is open, added and closed.

ghost use Rattle.std.specs.Prelude.{◌≡◌, ◌++◌, ◌∷◌, ◌+◌, ◌-◌, ◌<◌, ◌≤◌, [], length, set};
ghost use Rattle.std.specs.Prelude.{OnErr, OnOk};
ghost use Rattle.std.specs.List.{HoldsAt};
ghost use Rattle.ftl_building.specs.building.PartSizes.{most_entries};
ghost use Rattle.ftl_building.specs.building.RowChanges.{nodes_of_row, with_below};

use crate::building::places::Places;
use ftl_document::WrittenRow;
use ftl_document::syntax::NameRef;
use std::alloc::AllocError;

/// Adds a row that is open.
pub(crate) fn push_open<'a>(
    places: &mut Places,
    rows: &mut Vec<WrittenRow<'a>>,
    row: WrittenRow<'a>,
) -> Result<(), AllocError>
    ensures rows { OnOk result (rows.new.items ≡ rows.old.items ++ row.entry ∷ []) }
    ensures places { OnOk result (places.new ≡ length rows.old.items ∷ places.old) }
    ensures rows_stay { OnErr result (rows.new.items ≡ rows.old.items) }
    ensures places_stay { OnErr result (places.new ≡ places.old) }
{
    places.push(rows.len())?;
    match rows.push(row) {
        Ok(()) => Ok(()),
        Err(_) => {
            let _ = places.pop();
            Err(AllocError)
        }
    }
}

/// How many nodes the row is.
pub(crate) fn nodes_of_row(row: &WrittenRow<'_>) -> u32
    ensures count { result ≡ nodes_of_row row.now }
{
    match row {
        WrittenRow::Number { .. } | WrittenRow::List { .. } => 0,
        WrittenRow::Single { .. } | WrittenRow::Kid { .. } => 1,
    }
}

/// Closes the row: all rows behind it are below it.
pub(crate) fn close_row<'a>(rows: &mut Vec<WrittenRow<'a>>, at: usize)
    requires at { at < length rows.old.items }
    requires few { length rows.old.items ≤ most_entries }
    ensures closed { HoldsAt (λ row. rows.new.items
        ≡ set rows.old.items at (with_below (length rows.old.items - (at + 1)) row))
        rows.old.items at }
{
    let below = (rows.len() - (at + 1)) as u32;
    rows[at] = with_below(&rows[at], below);
}

/// The row with so many below it.
fn with_below<'a>(row: &WrittenRow<'a>, below: u32) -> WrittenRow<'a>
    ensures row { result ≡ with_below below row.now }
{
    match row {
        WrittenRow::Number { name, value } => WrittenRow::Number {
            name: NameRef::new(name.text()),
            value: *value,
        },
        WrittenRow::Single { name, class, .. } => WrittenRow::Single {
            name: NameRef::new(name.text()),
            class: NameRef::new(class.text()),
            below,
        },
        WrittenRow::List { name, .. } => WrittenRow::List {
            name: NameRef::new(name.text()),
            below,
        },
        WrittenRow::Kid { class, .. } => WrittenRow::Kid {
            class: NameRef::new(class.text()),
            below,
        },
    }
}

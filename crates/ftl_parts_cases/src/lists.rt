// The lists of a replayed state.
use ftl_cells::HandPlace;
use ftl_replay::{PlaceList, ReplayPlace, WordList};
use std::alloc::{AllocError, Global};
use std::fmt::Write;

/// Two words and two places, each list empty at first.
pub(crate) fn write_lists(alloc: Global, out: &mut String) -> Result<(), AllocError> {
    let mut words = WordList::new(alloc);
    write!(out, "{:?}", words.as_slice())?;
    words.push(7)?;
    words.push(u64::MAX)?;
    writeln!(out, " {:?}", words.as_slice())?;
    let mut places = PlaceList::new(alloc);
    write!(out, "{:?}", places.as_slice())?;
    places.push(ReplayPlace::Live(HandPlace::Idle))?;
    places.push(ReplayPlace::Spent)?;
    writeln!(out, " {:?}", places.as_slice())
}

//! The lots of a work: the words of a range of its cells, which one worker fills at a time. Goes
//! in: a part with its words for each lot. Comes out: the parts, filled, once each was taken by one
//! step and given back. `specs/table/Lots.antt` has the rule.

mod fill_lots;
mod lot_filler;
mod lots;
mod rule;

pub(crate) use fill_lots::FillLots;
pub(crate) use lot_filler::LotFiller;
pub(crate) use lots::Lots;

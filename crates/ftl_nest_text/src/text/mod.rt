//! The canonical text of a schedule with nests. Goes in: a schedule whose attributes and hosts are
//! names. Comes out: `specs/text/NestText.antt`, the tokens that are written and the white space
//! behind each. A law leads back: a scan of the text finds these tokens, and they spell the
//! schedule.

mod laws;
mod worked;
mod write;

pub use laws::canonical_nesting_schedules;
pub use worked::nest_texts_by_hand;
pub use write::write_nest_open;

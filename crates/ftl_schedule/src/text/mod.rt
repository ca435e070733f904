//! The canonical text of a schedule. Goes in: a schedule whose attributes are names. Comes out:
//! `specs/text/ScheduleText.antt`, the tokens that are written and the white space behind each.
//! Laws lead back: a scan of the text finds these tokens, and they spell the schedule.

mod laws;
mod worked;
mod write;

pub use laws::canonical_schedules;
pub use worked::canonical_texts_by_hand;
pub use write::{write_attribute, write_close, write_open};

//! Where the attributes of a schedule stand. Goes in: a schedule of attributes by number. Comes
//! out: `Placed`, the schedule with the place of each attribute, or the first attribute that has a
//! second entry. It tells by the table of ordered reads, in constant time, whether the schedule has
//! the writer of a read earlier. `specs/places/Placed.antt` and `specs/places/Standing.antt` have
//! the words of the contracts.

mod entries;
mod placed;
mod schedule_place;
mod standing;

pub use entries::{Entry, all_entries};
pub use placed::Placed;
pub use schedule_place::SchedulePlace;
pub use standing::{
    Standing, from_kid, from_parent, has_earlier_block, is_prev, is_same_block, is_same_rule,
};

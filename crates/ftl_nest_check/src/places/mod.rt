//! Where the attributes of a schedule with nests stand. Goes in: such a schedule of attributes by
//! number. Comes out: `PlacedNests`, the schedule with the outer place of each attribute, the host
//! of the nest that it stands in, if it stands in one, and its place there, each in constant time;
//! or the first attribute that has a second entry. It tells by the table of ordered reads with
//! nests, in constant time, whether the schedule has the writer of a read earlier.

mod between;
mod inner;
mod ordered;
mod outer;
mod placed;

pub use inner::StageEntries;
pub(crate) use outer::outer_of;
pub use placed::PlacedNests;

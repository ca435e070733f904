//! Documents while they are written. Goes in: calls that add a field or open a node or a list, and
//! such as close what is open innermost. Comes out: the document, in rows. Contracts see what is
//! open, each part with what it has so far: `specs/building/PartDocument.antt`; each call is the
//! plain change of it that `specs/building/Calls.antt` says, and `specs/building/PartSizes.antt`
//! says what may be added.

mod builder;
mod laws;
mod places;
mod rows;

pub use builder::DocumentBuilder;
pub use laws::numbers_stay_within;

//! The pair of a fault. Goes in: a grammar, what its rules read, and a schedule whose first fault
//! names two rules. Comes out: the reader's first read that is not ordered, with its part, by
//! number.

mod first_pair;
mod first_read;
mod laws;
mod part_read;
mod refused_pair;

pub(crate) use first_pair::first_pair;
pub use first_pair::writer_node;
pub use first_read::FirstRead;
pub use laws::first_pairs;
pub use part_read::{PlacedRead, placed_read};
pub use refused_pair::{RefusedPair, RulePart, WriterNode};

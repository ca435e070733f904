//! The steps of an inorder pass, one after another. Goes in: a tree, the visits of a pass, and
//! where the blocks of children stand in them. Comes out: `SequenceCursor`, which contracts see as
//! the list of steps that are left, all steps of the pass at first;
//! `specs/sequence/SequenceRest.antt` says what is left at a place. It has no stack: the way up is
//! that of the tree. `SparseSequenceCursor` has the same list, and passes over trees in which no
//! class has rules: it finds these by the classes of blocks of nodes.

mod block_places;
mod cursor;
mod place;
mod ruleless;
mod ruleless_kids;
mod sparse;
mod sparse_place;
mod worked_places;

pub use block_places::SequencePlaces;
pub use cursor::SequenceCursor;
pub(crate) use place::Tables;
pub(crate) use ruleless::SparseTables;
pub use sparse::SparseSequenceCursor;
pub use worked_places::{places_of_two_children, rest_of_two_words, rest_of_words_without_rules};

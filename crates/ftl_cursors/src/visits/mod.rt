//! The steps of the visits of some nodes, one after another. Goes in: a tree, the visits of a
//! topdown or bottomup pass, and a range of nodes in preorder or the other way round. Comes out:
//! `VisitCursor`, which contracts see as the list of steps that are left, and which gives them one
//! by one or as `Turns`, all of a rule at a node; `specs/visits/VisitSteps.antt` has that list, and
//! `specs/visits/ItemSteps.antt` says that it is what the items of a stage have.
//! `SparseVisitCursor` has the same list, and goes through it by the blocks of nodes that have a
//! class with operations.

mod cursor;
mod laws;
mod nodes;
mod parts;
mod place;
mod rule_turns;
mod sparse;
mod sparse_place;
mod worked_steps;

pub use cursor::VisitCursor;
pub use laws::{items_by_ranges, nodes_of_subtrees, visits_make_steps};
pub use nodes::NodeOrder;
pub(crate) use nodes::NodeRange;
pub(crate) use place::Tables;
pub use rule_turns::Turns;
pub use sparse::SparseVisitCursor;
pub(crate) use sparse_place::SparseTables;
pub use worked_steps::steps_of_two_words;

//! Least trees, as they are built from choices. Goes in: a checked grammar and a pair of it. Comes
//! out: a least tree that shows the pair, in rows, or that there is none or none small enough.

mod building;
mod choices;
mod fault;
mod laws;
mod put;
mod shown;
mod site;
mod tables;
mod want;

pub(crate) use building::example_tree;
pub use fault::ExampleFault;
pub use laws::{grown_trees, worked_examples};
pub use shown::least_tree;
pub use site::Site;
pub use tables::Tables;
pub use want::{Want, Wants};

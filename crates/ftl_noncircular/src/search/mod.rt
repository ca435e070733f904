//! Whether a checked grammar is noncircular. Goes in: the grammar, and the table of what its rules
//! read. Comes out: the same grammar as one that is noncircular, or its first circular vertex.
//!
//! - `shape`, with `places` and `tables`: attributes, interfaces and classes by number, and the
//!   number of each vertex of a class
//! - `read_edges`, `class_walks`: the edges that reads make in a class, and the walks along them
//! - `pairs`, with `pair_list`, `notes` and `puts`: which attribute may depend on which through a
//!   node's tree. A pair that the walks of a class show goes to the end of a list, and each pair of
//!   the list becomes an edge in each class, until none is left
//! - `circles`, with `pair_edges`: the first vertex of a class from which a walk leads to itself
//! - `searching`: all of it
//!
//! `specs/search/Circles.antt` says what is answered.

mod circles;
mod class_walks;
mod fault;
mod found;
mod notes;
mod pair_edges;
mod pair_list;
mod pairs;
mod places;
mod puts;
mod read_edges;
mod searching;
mod shape;
mod tables;

pub use fault::CircularFault;
pub use found::Noncircular;
pub use searching::noncircular;

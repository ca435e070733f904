//! Examples for refused pairs. Goes in: a grammar that `ftl_checked` accepted, what its rules read,
//! and a schedule whose first fault is a pair. Comes out: a least tree that shows the pair, with
//! every input 0, two of its instances that do, and an order of its computed instances that goes
//! wrong; or that no tree shows the pair, or none of at most 512 nodes.
//!
//! - `shows`: what it is that a tree shows a pair, and what an example is
//! - `sizes`: the least sizes of trees, of those that show a pair, and of those with a way to it
//! - `orders`: the plain order of the steps of a tree, and that with early steps first
//! - `trees`: a least tree that shows a pair, as it is built, in rows
//! - `pairs`: the pair of a fault, by number
//! - `examples`: `example`: an example of a schedule's first fault
//! - `nests`: the same of a schedule with nests: `nest_example`
#![tactic(auto)]

pub mod examples;
pub mod nests;
pub mod orders;
pub mod pairs;
pub mod shows;
pub mod sizes;
pub mod trees;

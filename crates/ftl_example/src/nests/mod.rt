//! Examples for refused pairs of schedules with nests. Goes in: a grammar that `ftl_checked`
//! accepted, what its rules read, and a schedule with nests whose first fault is a pair. Comes out
//! what `ftl_example` gives for one without: a least tree that shows the pair, two of its instances
//! that do, and an order of its computed instances that goes wrong; or that no tree shows the pair,
//! or none of at most 512 nodes.
//!
//! - `orders`: the plain order under a schedule with nests, and that with early steps first
//! - `pairs`: the pair of a fault, by number
//! - `examples`: `nest_example`: an example of a schedule's first fault

pub mod examples;
pub mod orders;
pub mod pairs;

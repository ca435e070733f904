//! Values of a tree computed anew after inputs have changed, in the time of what the change
//! touches. Goes in: a tree with its values, and edits of inputs. Comes out: the tree with the
//! edits applied, its values, and the instances that were computed anew.
//!
//! - `edits`: the numbers of edits, written into the values of a tree
//! - `queue`: cells computed anew by a queue, for any rules
//! - `keys`: keys of instances that rise along the reads
//! - `laws`: the instances of a tree as cells of the queue
//! - `readers`: the steps that read an instance come to wait
//! - `relaid`: `relayout`: a tree, its values and its runner after edits
//! - `relayouter`: `Relayouter`, tables that are made once for many edits of trees of a grammar
//! - `values`: the value of an instance by a runner, with the count of its runs
#![tactic(auto)]

pub mod edits;
pub mod keys;
pub mod laws;
pub mod queue;
mod readers;
pub mod relaid;
pub mod relayouter;
mod values;

pub use relaid::relayout;
pub use relayouter::Relayouter;

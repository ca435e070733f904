//! A tree and its values laid out anew after edits. Goes in: a grammar with its schedule, a tree
//! with its values, edits of its inputs, and a runner. Comes out: the tree with the edits, the
//! values that solve on it, and the touched instances; `specs/relayouter/Relaid.antt` has the
//! words. For the queue, a tree with its tables and a runner is a set of rules:
//! `specs/relayouter/TreeRules.antt`.

mod call;
mod due;
mod sorted;
mod touched;
mod tree_rules;

pub use call::Relayouter;

//! Documents whose text is plainly good: plain, without a fault, and with the fields of each node
//! in the order of its class. Goes in: a grammar that `ftl_checked::grammars` accepted, and a text.
//! Comes out: the rows of the document's tree with its inputs, by one pass over the bytes, or none,
//! where the other readers say what the text is. Nodes that are open stand on a stack in memory.
//! `specs/pass/Good.antt` says which tokens and nodes a pass takes, `specs/pass/Left.antt` what is
//! left of open nodes.

mod names;
mod nodes;
mod open_nodes;
mod passed;
mod read;
mod tokens;
mod turns;

pub use read::passed_nodes;

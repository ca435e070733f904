//! Examples. Goes in: a grammar, what its rules read, and a schedule with nests whose first fault
//! is a pair. Comes out: a least tree that shows the pair, two of its instances that do, and an
//! order of its computed instances that the schedule allows, in which the reader doesn't stand
//! after the writer; or that no tree shows the pair, or none of at most 512 nodes.
//! `specs/nests/examples/NestExamples.antt` has the words.

mod call;
mod early_steps;
mod host;
mod laws;
mod numbered;
mod shown_order;

pub use call::nest_example;
pub use host::HostedStep;
pub use laws::{nest_examples, nest_examples_by_size};

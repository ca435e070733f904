//! Evaluation by demand. Goes in: a tree of a noncircular grammar, and the code of its rules. Comes
//! out: the words of the values that solve the tree. A step whose reads are not all there waits on
//! a stack, and what it lacks is computed first; `specs/demand/Words.antt` says what stands in the
//! cells meanwhile, and `specs/demand/Frames.antt` what stands on the stack.

mod advance;
mod evaluate;
mod part;
mod reads;
mod ready;
mod seen;
mod solve;
mod waiting;
mod writer;

pub use solve::solve_by_demand;

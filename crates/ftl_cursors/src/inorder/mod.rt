//! The sequence of an inorder pass, node by node, as definitions and laws without code. Goes in: a
//! grammar with its names gone, a schedule, and a tree. Comes out: why the sequence at a node is
//! what the operations of its visit do, which `specs/inorder/InorderVisits.antt` says; and
//! `specs/inorder/InorderSteps.antt`, the steps of a pass, which compute its sequence.

mod laws;
mod worked_steps;

pub use laws::{
    inorder_steps_by_kids, inorder_steps_make_sequences, sequences_by_kids, visits_make_sequences,
};
pub use worked_steps::inorder_steps_of_two_words;

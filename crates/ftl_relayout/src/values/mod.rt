//! The value of an instance, by a runner. Goes in: a tree with the tables of its grammar, and the
//! values of its instances. Comes out: the step that computes an instance, and the value that its
//! rule gives by the values there are, part by part; `specs/values/PartSites.antt` has the words.

mod part;
mod reads;
mod sites;
mod step;
mod writer;

pub(crate) use sites::{Buffers, Site};
pub(crate) use step::value_of;
pub(crate) use writer::writer;

//! Keys of instances. Goes in: a tree, a schedule that was accepted, and an attribute of a node.
//! Comes out: a number, in constant time, that is greater than those of the instances that are
//! read there. `specs/keys/Keys.antt` says which.

mod instance_keys;
mod places;
mod sorts;
mod told;

pub(crate) use instance_keys::key_of;
pub(crate) use places::{KeyPlace, key_places};
pub(crate) use told::told;

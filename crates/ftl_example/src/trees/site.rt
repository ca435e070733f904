//! Where something is to be built.

use crate::trees::want::Want;
use ftl_tree::Place;

/// What is to be built of an interface, below which node, and where it stands there.
#[derive(Clone, Copy)]
pub struct Site {
    pub want: Want,
    pub interface: u32,
    pub parent: u32,
    pub place: Place,
}

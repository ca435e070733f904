//! An example.

use ftl_tree::{InstanceList, Tree};

/// An example of a refused pair: a tree, two of its instances and an order of all its computed
/// ones, by number.
#[derive(Drop)]
pub struct Example<'a> {
    pub tree: Tree<'a>,
    pub reader: u32,
    pub writer: u32,
    pub order: InstanceList,
}

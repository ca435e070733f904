//! Inputs of a tree that a case sets.

use crate::documents::greatest_number;
use ftl_checked::Field;
use ftl_tree::Tree;

/// Sets the inputs that lines name, each by a node, a field and a number; false where a line names
/// no input, or a number that is none of one.
pub(crate) fn set_inputs(tree: &mut Tree, edits: &str) -> bool {
    for line in edits.trim().lines() {
        if set_line(tree, line).is_none() {
            return false;
        }
    }
    true
}

fn set_line(tree: &mut Tree, line: &str) -> Option<()> {
    let (node, rest) = line.split_once(' ')?;
    let (name, number) = rest.split_once(' ')?;
    set(
        tree,
        node.parse::<u32>().ok()?,
        name,
        number.parse::<i64>().ok()?,
    )
}

fn set(tree: &mut Tree, node: u32, name: &str, number: i64) -> Option<()> {
    if node >= tree.node_count() {
        return None;
    }
    if number.unsigned_abs() > greatest_number(tree.checked().width()) {
        return None;
    }
    // The class is one of the grammar.
    let class = tree.row(node).class;
    match tree.checked().find_field(class, name) {
        Some(Field::Input(attr)) => {
            tree.set_input(node, attr, number);
            Some(())
        }
        _ => None,
    }
}

//! The phase of an item.
ghost use Rattle.std.specs.Prelude.{◌≡◌, ◌<◌, ◌≤◌};
ghost use Rattle.ftl_deps.specs.reads.Meant.{meant};
ghost use Rattle.ftl_model.specs.layout.Path.{node_at};
ghost use Rattle.ftl_model.specs.layout.Tree.{size as node_total};
ghost use Rattle.ftl_cursors.specs.items.RowsCut.{is_whole_in};
ghost use Rattle.ftl_cursors.specs.items.StageItems.{tree_in};
ghost use Rattle.ftl_schedule.specs.stages.Stages.{kind_of};
ghost use Rattle.ftl_plan.specs.phases.StagePhases.{cells_end, grammar_in, range_phase};
ghost use Rattle.ftl_plan.specs.phases.StagePhases.{tree_phase, item_phase};

use ftl_cells::Phase;
use ftl_cursors::ItemRows;
use ftl_schedule::PassKind;
use ftl_tree::Tree;

/// The phase of the item of a pass that begins at a node, where ranges have so many cells.
pub(crate) fn phase_of(rows: &ItemRows<'_>, kind: PassKind, node: u32, size: u32) -> Phase
    requires node { node < node_total (tree_in rows.now) }
    requires some { 0 < size }
    requires few { size ≤ 33554433 }
    ensures phase { result ≡ item_phase (grammar_in rows.now) (is_whole_in rows.now) (tree_in rows.now)
        size (kind_of kind) (node_at (tree_in rows.now) node) }
{
    match kind {
        PassKind::TopDown => tree_phase(rows, node, size, Phase::First),
        PassKind::BottomUp => tree_phase(rows, node, size, Phase::Last),
        PassKind::InOrder => Phase::Last,
    }
}

/// The phase of a tree that is one item by its cells, or that of a node alone.
fn tree_phase(rows: &ItemRows<'_>, node: u32, size: u32, alone: Phase) -> Phase
    requires node { node < node_total (tree_in rows.now) }
    requires some { 0 < size }
    requires few { size ≤ 33554433 }
    ensures phase { result ≡ tree_phase (grammar_in rows.now) (is_whole_in rows.now) (tree_in rows.now)
        size alone (node_at (tree_in rows.now) node) }
{
    if rows.is_whole(node) {
        range_phase(rows.tree, node, size)
    } else {
        alone
    }
}

/// The range that has all cells of the tree at a node, or the last phase where none has.
fn range_phase(tree: &Tree<'_>, node: u32, size: u32) -> Phase
    requires node { node < node_total tree.now.tree }
    requires some { 0 < size }
    requires few { size ≤ 33554433 }
    ensures phase { result ≡ range_phase (meant tree.now.checked) tree.now.tree size
        (node_at tree.now.tree node) }
{
    let _nodes = tree.node_count();
    let _cells = tree.instance_count();
    let range = tree.first_instance(node) / size;
    if cells_end(tree, node) <= (range + 1) * size {
        Phase::Range(range)
    } else {
        Phase::Last
    }
}

/// The first cell behind those of the tree at a node.
fn cells_end(tree: &Tree<'_>, node: u32) -> u32
    requires node { node < node_total tree.now.tree }
    ensures end { result
        ≡ cells_end (meant tree.now.checked) tree.now.tree (node_at tree.now.tree node) }
{
    let nodes = tree.node_count();
    let after = node + tree.subtree_size(node);
    if after < nodes {
        tree.first_instance(after)
    } else {
        tree.instance_count()
    }
}

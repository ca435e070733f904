//! What reads give, by the values there are.
ghost use Rattle.std.specs.Prelude.{◌≡◌, ◌<◌, ◌≤◌, length, map, take};
ghost use Rattle.ftl_deps.specs.parts.RuleParts.{read_meant};
ghost use Rattle.ftl_deps.specs.reads.Meant.{meant};
ghost use Rattle.ftl_meaning.specs.grammars.Meaning.{value_seen};
ghost use Rattle.ftl_model.specs.layout.AttributeGrammar.{occurrences};
ghost use Rattle.ftl_model.specs.layout.Table.{instance_count};
ghost use Rattle.ftl_model.specs.layout.Tree.{size};
ghost use Rattle.ftl_order.specs.orders.Lawful.{EachMay};
ghost use Rattle.ftl_step_value.specs.cells.Seen.{IsThere};
ghost use Rattle.ftl_visit.specs.step_reads.StepReads.{kids_in};
ghost use Rattle.ftl_relayout.specs.values.PartSites.{value_at};

use ftl_base::Val;
use ftl_deps::PartRead;
use ftl_step_value::cells::read_cell;
use ftl_tree::Tree;

/// Puts into a row what some reads at a node give while this kid is at hand.
pub(crate) fn load(
    tree: &Tree<'_>,
    node: u32,
    at_hand: u32,
    reads: &[PartRead],
    values: &[Val],
    row: &mut [Option<Val>],
)
    requires node { node < size tree.now.tree }
    requires there { EachMay (IsThere tree.now node at_hand) (map read_meant reads.now) }
    requires values { length values.now ≡ instance_count (meant tree.now.checked) tree.now.tree }
    requires room { length reads.now ≤ length row.old }
    ensures given { take (length reads.now) row.new
        ≡ map (λ r. value_seen (value_at tree.now values.now node)
        (occurrences (kids_in tree.now node) at_hand r)) (map read_meant reads.now) }
{
    for (place, read) in reads.iter().enumerate() {
        row[place] = given(tree, node, at_hand, *read, values);
    }
}

/// What a read at a node gives; none where there is nothing to read.
#[inline(always)]
fn given(tree: &Tree<'_>, node: u32, at_hand: u32, read: PartRead, values: &[Val]) -> Option<Val>
    requires node { node < size tree.now.tree }
    requires there { IsThere tree.now node at_hand (read_meant read) }
    requires values { length values.now ≡ instance_count (meant tree.now.checked) tree.now.tree }
    ensures given { result ≡ value_seen (value_at tree.now values.now node)
        (occurrences (kids_in tree.now node) at_hand (read_meant read)) }
{
    let _nodes = tree.node_count();
    match read_cell(tree, node, read, at_hand) {
        Some(cell) => Some(values[cell as usize]),
        None => None,
    }
}

//! Where a cursor stands: which part of a node's visit comes next.
ghost use Rattle.std.specs.Prelude.{◌≡◌, ◌≢◌, ◌+◌, ◌++◌, ◌<◌, true, false, [], ◌∷◌, length};
ghost use Rattle.std.specs.Prelude.{MatchOption};
ghost use Rattle.ftl_cursors.specs.item_cursor.ItemSteps.{steps_left};
ghost use Rattle.ftl_cursors.specs.stages.PassTables.{pass_places, pass_visits};
ghost use Rattle.ftl_model.specs.layout.Tree.{size};
ghost use Rattle.ftl_schedule.specs.declared.syntax.kind.PassKind.TheVariants.{InOrder};
ghost use Rattle.ftl_host_cursors.specs.HostPlaces.{AreHostTables, IsHostPlace, left, left_at};
ghost use Rattle.ftl_host_cursors.specs.HostPlaces.{grammar_of, parts_left, tree_of};
ghost use Rattle.ftl_host_cursors.specs.HostSteps.{inner_pass_steps, is_host, is_own_next};
ghost use Rattle.ftl_host_cursors.specs.HostSteps.{is_topdown};

use crate::nodes::{NodesLeft, node_order, take_first};
use crate::tables::HostTables;
use ftl_cursors::ItemCursor;
use ftl_cursors::sequence::{SequenceCursor, SequencePlaces};
use ftl_cursors::visits::{NodeOrder, VisitCursor, visits_make_steps};
use ftl_order::Step;
use ftl_schedule::{Pass, PassKind};
use ftl_visit::PassVisits;

/// At a node, whether the pass's own list is still to come, the inner passes that are, with their
/// visits and the places of blocks in these, and the nodes after it.
#[derive(Drop)]
pub(crate) struct HostPlace<'a> {
    pub node: u32,
    pub own: bool,
    pub passes: &'a [Pass],
    pub visits: &'a [PassVisits],
    pub places: &'a [SequencePlaces],
    pub nodes: NodesLeft,
}

/// The next step; none at the end.
pub(crate) fn next_step<'a>(
    tables: HostTables<'a>,
    at: &mut HostPlace<'a>,
    steps: &mut ItemCursor<'a>,
) -> Option<Step>
    requires tables { AreHostTables tables }
    requires place { IsHostPlace tables at.old }
    ensures place { IsHostPlace tables.entry at.new }
    ensures step { MatchOption result
        ((left tables.entry at.old steps.old ≡ []) × (left tables.entry at.new steps.new ≡ []))
        (λ step. left tables.entry at.old steps.old
        ≡ step ∷ left tables.entry at.new steps.new) }
{
    'search: loop {
        if let Some(step) = steps.next() {
            return Some(step);
        }
        if !go_on(tables, at, steps) {
            return None;
        }
    }
}

/// Begins the next part of the visit, or the visit of the next node; false at the end.
fn go_on<'a>(tables: HostTables<'a>, at: &mut HostPlace<'a>, steps: &mut ItemCursor<'a>) -> bool
    requires tables { AreHostTables tables }
    requires place { IsHostPlace tables at.old }
    requires done { steps_left steps.old ≡ [] }
    ensures place { IsHostPlace tables.entry at.new }
    ensures left { left tables.entry at.new steps.new ≡ left tables.entry at.old steps.old }
    ensures end { result ≡ false → left tables.entry at.old steps.old ≡ [] }
    ensures last { result ≡ false → steps_left steps.new ≡ [] }
    ensures less { result ≡ true
        → parts_left tables.entry at.new + 1 ≡ parts_left tables.entry at.old }
{
    if own_is_next(tables.pass.kind, at) {
        *steps = ItemCursor::Visits(begin_own(tables, at));
        return true;
    }
    if at.passes.is_empty() {
        return next_node(tables, at);
    }
    *steps = begin_inner(tables, at);
    true
}

/// The pass's own list comes next: in a topdown pass at once, else without inner passes.
fn own_is_next(kind: PassKind, at: &HostPlace<'_>) -> bool
    ensures own { result ≡ is_own_next kind at.now.own at.now.passes.now }
{
    at.own && (is_topdown(kind) || at.passes.is_empty())
}

/// A pass of this kind visits a node before its kids.
fn is_topdown(kind: PassKind) -> bool
    ensures topdown { result ≡ is_topdown kind }
{
    match kind {
        PassKind::TopDown => true,
        PassKind::BottomUp => false,
        PassKind::InOrder => false,
    }
}

/// Begins the pass's own list.
fn begin_own<'a>(tables: HostTables<'a>, at: &mut HostPlace<'a>) -> VisitCursor<'a>
    requires tables { AreHostTables tables }
    requires place { IsHostPlace tables at.old }
    requires turn { is_own_next tables.pass.now.kind at.old.own at.old.passes.now ≡ true }
    ensures place { IsHostPlace tables.entry at.new }
    ensures left { result ++ left_at tables.entry at.new ≡ left_at tables.entry at.old }
    ensures less { parts_left tables.entry at.new + 1 ≡ parts_left tables.entry at.old }
{
    visits_make_steps();
    let _nodes = tables.tree.node_count();
    at.own = false;
    let order = NodeOrder::Preorder;
    VisitCursor::new(
        tables.tree,
        tables.visits,
        tables.targets,
        order,
        at.node,
        1,
    )
}

/// Begins the next inner pass, over the tree at the node.
fn begin_inner<'a>(tables: HostTables<'a>, at: &mut HostPlace<'a>) -> ItemCursor<'a>
    requires tables { AreHostTables tables }
    requires place { IsHostPlace tables at.old }
    requires turn { is_own_next tables.pass.now.kind at.old.own at.old.passes.now ≡ false }
    requires passes { 0 < length at.old.passes.now }
    ensures place { IsHostPlace tables.entry at.new }
    ensures left { steps_left result ++ left_at tables.entry at.new ≡ left_at tables.entry at.old }
    ensures less { parts_left tables.entry at.new + 1 ≡ parts_left tables.entry at.old }
{
    let pass = &at.passes[0];
    let visits = &at.visits[0];
    let places = &at.places[0];
    at.passes = &at.passes[1..];
    at.visits = &at.visits[1..];
    at.places = &at.places[1..];
    inner_cursor(tables, at.node, pass, visits, places)
}

/// The steps of an inner pass over the tree at a node.
fn inner_cursor<'a>(
    tables: HostTables<'a>,
    node: u32,
    pass: &'a Pass,
    visits: &'a PassVisits,
    places: &'a SequencePlaces,
) -> ItemCursor<'a>
    requires tables { AreHostTables tables }
    requires node { node < size (tree_of tables) }
    requires visits { visits.now ≡ pass_visits (grammar_of tables) pass.now }
    requires places { places.now ≡ pass_places (grammar_of tables) pass.now }
    ensures steps { steps_left result
        ≡ inner_pass_steps (grammar_of tables.entry) (tree_of tables.entry) node pass.now }
{
    match pass.kind {
        PassKind::TopDown => ItemCursor::Visits(tree_visits(tables, node, pass, visits)),
        PassKind::BottomUp => ItemCursor::Visits(tree_visits(tables, node, pass, visits)),
        PassKind::InOrder => {
            let attrs = pass.attrs.as_slice();
            ItemCursor::Sequence(SequenceCursor::new(tables.tree, visits, places, attrs, node))
        }
    }
}

/// Those of one that is not inorder.
fn tree_visits<'a>(
    tables: HostTables<'a>,
    node: u32,
    pass: &'a Pass,
    visits: &'a PassVisits,
) -> VisitCursor<'a>
    requires tables { AreHostTables tables }
    requires node { node < size (tree_of tables) }
    requires kind { pass.now.kind ≢ InOrder }
    requires visits { visits.now ≡ pass_visits (grammar_of tables) pass.now }
    ensures steps { result
        ≡ inner_pass_steps (grammar_of tables.entry) (tree_of tables.entry) node pass.now }
{
    visits_make_steps();
    let _nodes = tables.tree.node_count();
    let size = tables.tree.subtree_size(node);
    let order = node_order(pass.kind);
    VisitCursor::new(tables.tree, visits, tables.targets, order, node, size)
}

/// Begins the visit of the next node; false where there is none.
fn next_node<'a>(tables: HostTables<'a>, at: &mut HostPlace<'a>) -> bool
    requires tables { AreHostTables tables }
    requires place { IsHostPlace tables at.old }
    requires turn { is_own_next tables.pass.now.kind at.old.own at.old.passes.now ≡ false }
    requires passes { at.old.passes.now ≡ [] }
    ensures place { IsHostPlace tables.entry at.new }
    ensures left { left_at tables.entry at.new ≡ left_at tables.entry at.old }
    ensures end { result ≡ false → left_at tables.entry at.old ≡ [] }
    ensures less { result ≡ true
        → parts_left tables.entry at.new + 1 ≡ parts_left tables.entry at.old }
{
    let _nodes = tables.tree.node_count();
    if at.nodes.count == 0 {
        return false;
    }
    at.node = take_first(&mut at.nodes);
    at.own = true;
    if is_host(tables, at.node) {
        at.passes = tables.inner;
        at.visits = tables.inner_visits;
        at.places = tables.inner_places;
    }
    true
}

/// The node is of the host class.
fn is_host(tables: HostTables<'_>, node: u32) -> bool
    requires node { node < size (tree_of tables) }
    ensures host { result ≡ is_host (tree_of tables.entry) tables.entry.host node }
{
    match tables.host {
        None => false,
        Some(host) => tables.tree.class(node) == host,
    }
}

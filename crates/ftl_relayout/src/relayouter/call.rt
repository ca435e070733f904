//! A tree and its values laid out anew after edits.
ghost use Rattle.std.specs.Prelude.{◌≡◌, ◌∷◌, [], IfOk, OnErr};
ghost use Rattle.ftl_deps.specs.reads.Meant.{meant};
ghost use Rattle.ftl_model.specs.layout.Table.{SolvesList};
ghost use Rattle.ftl_step_value.specs.value.StepValue.{IsCodeFor};
ghost use Rattle.ftl_relayout.specs.laws.Edits.{AreInputEdits, IsInputEdit};
ghost use Rattle.ftl_relayout.specs.relayouter.Relaid.{RelayoutGives, tree_with_edits};

use crate::keys::{KeyPlace, key_places};
use crate::readers::{Reader, ReaderSite, all_readers};
use crate::relayouter::touched::touched;
use crate::relayouter::tree_rules::TreeRules;
use crate::values::Buffers;
use ftl_base::{CodeStack, Val};
use ftl_checked::Checked;
use ftl_edits::{Edit, EditList};
use ftl_schedule::Accepted;
use ftl_step_value::limits::{ReadTables, is_sound};
use ftl_tree::{InstanceList, Tree};
use ftl_visit::Runner;
use sqlite_items::Items;
use std::alloc::{AllocError, Global};
use std::marker::Model;

/// The tables of a grammar and its schedule, by which trees are laid out anew. Contracts see the
/// grammar and the schedule.
#[derive(Drop)]
pub struct Relayouter<'a> {
    accepted: &'a Accepted<'a>,
    tables: ReadTables,
    readers: Vec<Items<Reader>>,
    places: Vec<KeyPlace>,
}

impl<'a> Model for Relayouter<'a> {
    ghost use Rattle.std.specs.Coded.{codes};
    ghost use Rattle.ftl_grammar.specs.contracts.syntax.expression.Expr as e;
    ghost use Rattle.ftl_schedule.specs.check.AcceptedSchedule.{AcceptedSchedule};
    ghost use Rattle.ftl_relayout.specs.relayouter.Relaid.{IsRelayouter};

    ghost Value = { AcceptedSchedule };

    ghost coded = { Prim.hlevel (codes, e.the_row.coded) };

    ghost view = { λ r. r.accepted.now };

    ghost invariant = { λ r. IsRelayouter r.accepted.now r.tables r.readers.items
        r.places.items };
}

impl<'a> Relayouter<'a> {
    /// Of a grammar, and a schedule that was accepted for it.
    pub fn new(
        alloc: Global,
        checked: &Checked,
        accepted: &'a Accepted<'a>,
    ) -> Result<Relayouter<'a>, AllocError>
        requires accepted { accepted.now.checked ≡ checked.now }
        ensures schedule { IfOk result (λ r. r ≡ accepted.now) }
    {
        is_sound(checked);
        let tables = ReadTables::new(alloc, checked)?;
        let readers = all_readers(alloc, checked, tables.parts.as_slice())?;
        let places = key_places(alloc, checked, accepted)?;
        Ok(Relayouter {
            accepted,
            tables,
            readers,
            places,
        })
    }

    /// Applies edits to a tree, and lays out anew what they touch. Gives the numbers of the touched
    /// instances, in rising order.
    pub fn relayout(
        &self,
        alloc: Global,
        runner: &mut Runner<'_>,
        tree: &mut Tree<'_>,
        values: &mut [Val],
        edits: &EditList,
    ) -> Result<InstanceList, AllocError>
        requires grammar { self.now.checked ≡ tree.old.checked }
        requires code { IsCodeFor tree.old.checked runner.old.programs }
        requires solved { SolvesList (meant tree.old.checked) tree.old.tree values.old }
        requires edits { AreInputEdits (meant tree.old.checked) tree.old.tree edits.now }
        ensures relaid { IfOk result (RelayoutGives tree.old tree.new edits.now
            values.old values.new runner.old runner.new) }
        ensures grammar { tree.new.checked ≡ tree.old.checked }
        ensures tree_stays { OnErr result (tree.new ≡ tree.old) }
        ensures values_stay { OnErr result (values.new ≡ values.old) }
        ensures runner_stays { OnErr result (runner.new ≡ runner.old) }
    {
        let (touched, ran) = self.recomputed(alloc, runner, tree, values, edits.as_slice())?;
        *runner = ran;
        apply(tree, edits.as_slice());
        Ok(touched)
    }

    /// Computes anew what the edits touch, by a runner of its own.
    fn recomputed<'p>(
        &self,
        alloc: Global,
        runner: &Runner<'p>,
        tree: &Tree<'_>,
        values: &mut [Val],
        edits: &[Edit],
    ) -> Result<(InstanceList, Runner<'p>), AllocError>
        requires grammar { self.now.checked ≡ tree.now.checked }
        requires code { IsCodeFor tree.now.checked runner.now.programs }
        requires solved { SolvesList (meant tree.now.checked) tree.now.tree values.old }
        requires edits { AreInputEdits (meant tree.now.checked) tree.now.tree edits.now }
        ensures relaid { IfOk result (λ x. RelayoutGives tree.now
            (tree_with_edits tree.now edits.now) edits.now
            values.old values.new runner.now x.1 x.0) }
        ensures stay { OnErr result (values.new ≡ values.old) }
    {
        let _nodes = tree.node_count();
        let _ordered = self.accepted.schedule();
        let readers = ReaderSite {
            accepted: self.accepted,
            tree,
            readers: self.readers.as_slice(),
            places: self.places.as_slice(),
        };
        let buffers = Buffers {
            reads: Vec::from_elem(alloc, None, 256)?,
            stack: CodeStack::new(alloc, runner.max_stack())?,
        };
        let mut rules = TreeRules::new(&self.tables, readers, runner.copied(), buffers);
        let touched = touched(alloc, &readers, &mut rules, values, edits)?;
        Ok((touched, rules.into_runner()))
    }
}

/// Applies edits to a tree, one after the other. It takes no memory.
fn apply(tree: &mut Tree<'_>, edits: &[Edit])
    requires edits { AreInputEdits (meant tree.old.checked) tree.old.tree edits.now }
    ensures edited { tree.new ≡ tree_with_edits tree.old edits.now }
{
    is_sound(tree.checked());
    for edit in edits {
        apply_one(tree, *edit);
    }
}

/// Applies an edit to a tree.
fn apply_one(tree: &mut Tree<'_>, edit: Edit)
    requires edit { IsInputEdit (meant tree.old.checked) tree.old.tree edit }
    ensures edited { tree.new ≡ tree_with_edits tree.old (edit ∷ []) }
{
    tree.set_input(edit.node, edit.attr, edit.value);
}

//! Inputs of pages changed, and pages laid out anew.

ghost use Rattle.std.specs.Prelude.{◌≡◌, ◌∷◌, ◌++◌, [], IfOk, OnErr, OnOk};
ghost use Rattle.std.specs.List.Sorted.{IsStrictlyIncreasing};
ghost use Rattle.ftl_deps.specs.reads.Meant.{meant};
ghost use Rattle.ftl_edits.specs.meaning.Editable.{AreEditsOf, IsEditOf};
ghost use Rattle.ftl_model.specs.layout.Table.{SolvesList};
ghost use Rattle.ftl_relayout.specs.relayouter.Relaid.{RelayoutGives};
ghost use Rattle.ftl_step_value.specs.value.StepValue.{IsCodeFor};
ghost use Rattle.maugzeris.specs.pages.PageState.{IsLaidOut, IsLaidOutAnew, edit, tree_on};

use crate::pages::page::Page;
use ftl_base::Val;
use ftl_edits::{Edit, EditList};
use ftl_relayout::Relayouter;
use ftl_tree::{InstanceList, Tree};
use ftl_visit::Runner;
use std::alloc::{AllocError, Global};

impl<'a> Page<'a> {
    /// Gives an input of a node another number. It counts from the next call of `relayout` on; of
    /// two numbers for one input the later one counts.
    pub fn set_input(&mut self, node: u32, attr: u32, value: i64) -> Result<(), AllocError>
        requires takes { IsEditOf (tree_on self.old) (edit node attr value) }
        ensures edits { OnOk result (self.new ≡ record self.old {
          edits = self.old.edits ++ edit node attr value ∷ [];
        }) }
        ensures unchanged { OnErr result (self.new ≡ self.old) }
    {
        self.edits.push(Edit { node, attr, value })?;
        Ok(())
    }

    /// Applies the numbers that `set_input` was given since the last call, and lays out anew what
    /// these touch, in the time of that. The answer has the numbers of the touched instances, which
    /// are computed and have a read whose value is another one than before, in rising order.
    pub fn relayout(&mut self, alloc: Global) -> Result<InstanceList, AllocError>
        requires laid_out { IsLaidOut self.old }
        ensures anew { IfOk result (IsLaidOutAnew self.old self.new) }
        ensures rising { IfOk result (λ touched. IsStrictlyIncreasing touched) }
        ensures unchanged { OnErr result (self.new ≡ self.old) }
    {
        let touched = relaid(
            alloc,
            &self.relayouter,
            &mut self.runner,
            &mut self.tree,
            &mut self.values,
            &self.edits,
        )?;
        self.edits = EditList::new(alloc);
        Ok(touched)
    }
}

/// Applies edits to a tree, and lays out anew what these touch.
fn relaid(
    alloc: Global,
    relayouter: &Relayouter<'_>,
    runner: &mut Runner<'_>,
    tree: &mut Tree<'_>,
    values: &mut Vec<Val>,
    edits: &EditList,
) -> Result<InstanceList, AllocError>
    requires grammar { relayouter.now.checked ≡ tree.old.checked }
    requires code { IsCodeFor tree.old.checked runner.old.programs }
    requires solved { SolvesList (meant tree.old.checked) tree.old.tree values.old.items }
    requires edits { AreEditsOf tree.old edits.now }
    ensures relaid { IfOk result (RelayoutGives tree.old tree.new edits.now values.old.items
        values.new.items runner.old runner.new) }
    ensures grammar { tree.new.checked ≡ tree.old.checked }
    ensures tree_stays { OnErr result (tree.new ≡ tree.old) }
    ensures values_stay { OnErr result (values.new.items ≡ values.old.items) }
    ensures runner_stays { OnErr result (runner.new ≡ runner.old) }
{
    let _nodes = tree.node_count();
    let cells = values.as_mut_slice();
    relayouter.relayout(alloc, runner, tree, cells, edits)
}

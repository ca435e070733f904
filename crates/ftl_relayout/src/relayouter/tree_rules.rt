//! The rules of a tree, as the queue runs them.
ghost use Rattle.ftl_relayout.specs.relayouter.TreeRules.{AreTreeRules, tree_run};
ghost use Rattle.std.specs.Prelude.{◌≡◌, ◌<◌, ◌≤◌, ◌⊎◌, ◌+◌, ℕ, Contains, length, OnOk};
ghost use Rattle.ftl_relayout.specs.queue.Nets.{IsKeyOf, IsLawfulNet, IsReaderBy, IsStep, table};

use crate::queue::{Rules, Waiting};
use crate::readers::{ReaderSite, add_readers, told_instance};
use crate::values::{Buffers, Site, value_of, writer};
use ftl_base::Val;
use ftl_step_value::limits::ReadTables;
use ftl_visit::Runner;
use std::alloc::AllocError;
use std::marker::Model;

/// The rules of a tree, with what they are run by. Contracts see the tree, its schedule, and the
/// code with the count of its runs.
#[derive(Drop)]
pub(crate) struct TreeRules<'a, 'p> {
    tables: &'a ReadTables,
    readers: ReaderSite<'a>,
    runner: Runner<'p>,
    buffers: Buffers,
}

impl<'a, 'p> Model for TreeRules<'a, 'p> {
    ghost use Rattle.std.specs.Coded.{codes};
    ghost use Rattle.ftl_model.specs.layout.ForestCode.{forest_code};
    ghost use Rattle.ftl_grammar.specs.contracts.syntax.expression.Expr as e;
    ghost use Rattle.ftl_relayout.specs.relayouter.TreeRules.{AreTreeRules, TreeRun, tree_run};

    ghost Value = { TreeRun };

    ghost coded = { Prim.hlevel (codes, e.the_row.coded, forest_code) };

    ghost view = { λ w. tree_run w.readers w.runner };

    ghost invariant = { λ w. AreTreeRules w.tables.now w.readers w.runner w.buffers };
}

impl<'a, 'p> TreeRules<'a, 'p> {
    /// The rules of a tree with these readers, run by this runner.
    pub(crate) fn new(
        tables: &'a ReadTables,
        readers: ReaderSite<'a>,
        runner: Runner<'p>,
        buffers: Buffers,
    ) -> TreeRules<'a, 'p>
        requires rules { AreTreeRules tables.now readers runner buffers }
        ensures run { result ≡ tree_run readers.entry runner.entry }
    {
        TreeRules {
            tables,
            readers,
            runner,
            buffers,
        }
    }

    /// The runner, with its count.
    pub(crate) fn into_runner(self) -> Runner<'p>
        ensures runs { result.runs ≡ self.entry.runs }
        ensures programs { result.programs ≡ self.entry.programs }
    {
        let TreeRules { runner, .. } = self;
        runner
    }
}

impl<'a, 'p> Rules for TreeRules<'a, 'p> {
    ghost use Rattle.ftl_relayout.specs.relayouter.TreeRules.{run_net};

    ghost net = { run_net };

    ghost spent = { λ w. w.runs };

    ghost code = { λ w. w.programs };

    fn cell(&self, key: u128) -> u32 {
        let (node, attr) = told_instance(&self.readers, key);
        self.readers.tree.instance(node, attr)
    }

    fn compute(&mut self, cell: u32, key: u128, values: &[Val]) -> Val {
        let (node, attr) = told_instance(&self.readers, key);
        let site = Site {
            tables: self.tables,
            tree: self.readers.tree,
        };
        let step = writer(&site, node, attr);
        value_of(&site, step, values, &mut self.runner, &mut self.buffers)
    }

    fn add_readers(&self, cell: u32, key: u128, waiting: &mut Waiting) -> Result<(), AllocError> {
        let (node, attr) = told_instance(&self.readers, key);
        add_readers(&self.readers, node, attr, waiting)
    }
}

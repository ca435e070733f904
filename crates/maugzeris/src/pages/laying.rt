//! Pages laid out.

ghost use Rattle.std.specs.Prelude.{◌≡◌, ◌↔◌, None, IfOk, IsTrue, OnErr, OnOk};
ghost use Rattle.ftl_demand.specs.demand.Solved.{IsSolvedBy};
ghost use Rattle.ftl_deps.specs.reads.Meant.{meant};
ghost use Rattle.ftl_model.specs.layout.Table.{SolvesList};
ghost use Rattle.maugzeris.specs.pages.PageState.{IsLaidOut, StaysButValues};

use crate::pages::page::Page;
use ftl_base::Val;
use ftl_edge::OpenGate;
use ftl_page::Solving;
use ftl_run::calls::{values_of, words_alone, words_by_workers};
use ftl_tree::{Tree, words_are_undone};
use std::alloc::{AllocError, Global};
use std::sync::Wait;
use std::thread::Threads;

impl<'a> Page<'a> {
    /// Whether the page was laid out.
    pub fn is_laid_out(&self) -> bool
        ensures laid_out { IsTrue result ↔ IsLaidOut self.now }
    {
        self.laid_out
    }

    /// Lays the page out on the calling thread, where that was not done yet. Edits stay: `relayout`
    /// applies them.
    pub fn lay_out(&mut self, alloc: Global) -> Result<(), AllocError>
        ensures laid_out { OnOk result (IsLaidOut self.new) }
        ensures stays { OnOk result (StaysButValues self.old self.new) }
        ensures once { IsLaidOut self.old → self.new ≡ self.old }
        ensures unchanged { OnErr result (self.new ≡ self.old) }
    {
        if self.laid_out {
            return Ok(());
        }
        let values = self.values_alone(alloc)?;
        self.take(values);
        Ok(())
    }

    /// The same by so many workers in threads of their own, each given subtrees of so many nodes at
    /// most at once: from 1 to 64 workers, and from 1 to 1048576 nodes, or the nearest of these. One
    /// worker is the calling thread, and given the whole tree.
    pub fn lay_out_by<R: Threads + Wait + Sync>(
        &mut self,
        rt: &R,
        alloc: Global,
        workers: u32,
        grain: u32,
    ) -> Result<(), AllocError>
        ensures laid_out { OnOk result (IsLaidOut self.new) }
        ensures stays { OnOk result (StaysButValues self.old self.new) }
        ensures once { IsLaidOut self.old → self.new ≡ self.old }
        ensures unchanged { OnErr result (self.new ≡ self.old) }
    {
        if self.laid_out {
            return Ok(());
        }
        let values = self.values_by_workers(rt, alloc, Solving { workers, grain })?;
        self.take(values);
        Ok(())
    }

    /// The values that solve the tree.
    fn values_alone(&self, alloc: Global) -> Result<Vec<Val>, AllocError>
        requires not_yet { self.now.values ≡ None }
        ensures solve { IfOk result
            (λ v. SolvesList (meant self.now.checked) self.now.tree v.items) }
    {
        let grammar = self.grammar();
        let checked = grammar.checked();
        let programs = grammar.programs();
        let words = words_alone(alloc, checked, self.schedule(), programs, self.tree())?;
        solving_values(alloc, self.tree(), words.as_slice())
    }

    /// The same by workers.
    fn values_by_workers<R: Threads + Wait + Sync>(
        &self,
        rt: &R,
        alloc: Global,
        how: Solving,
    ) -> Result<Vec<Val>, AllocError>
        requires not_yet { self.now.values ≡ None }
        ensures solve { IfOk result
            (λ v. SolvesList (meant self.now.checked) self.now.tree v.items) }
    {
        let grammar = self.grammar();
        let words = words_by_workers(
            rt,
            alloc,
            how,
            grammar.checked(),
            self.schedule(),
            grammar.programs(),
            self.tree(),
            &OpenGate,
        )?;
        solving_values(alloc, self.tree(), words.as_slice())
    }

    /// Takes values that solve the tree.
    fn take(&mut self, values: Vec<Val>)
        requires solve { SolvesList (meant self.old.checked) self.old.tree values.items }
        ensures laid_out { IsLaidOut self.new }
        ensures stays { StaysButValues self.old self.new }
    {
        self.values = values;
        self.laid_out = true;
    }
}

/// The values of the words of a tree that was solved.
fn solving_values(alloc: Global, tree: &Tree<'_>, words: &[u64]) -> Result<Vec<Val>, AllocError>
    requires solved { IsSolvedBy tree.now words.now }
    ensures solve { IfOk result
        (λ v. SolvesList (meant tree.now.checked) tree.now.tree v.items) }
{
    words_are_undone();
    values_of(alloc, words)
}

//! Plans.
ghost use Rattle.std.specs.Prelude.{◌≡◌, ◌<◌, length, IfOk};
ghost use Rattle.ftl_deps.specs.reads.Meant.{meant};
ghost use Rattle.ftl_items.specs.stage_items.WordLaws.{first_words};
ghost use Rattle.ftl_model.specs.layout.Outcome.{Gives};
ghost use Rattle.ftl_model.specs.layout.Table.{instance_count};
ghost use Rattle.ftl_model.specs.layout.Tree.{size};
ghost use Rattle.ftl_plan.specs.laws.StageMeanings.{CanBePlanned};
ghost use Rattle.ftl_nest_check.specs.stages.Nested.{nests_of};
ghost use Rattle.ftl_plan.specs.plans.FilledStages.{TellFilling};
ghost use Rattle.ftl_plan.specs.plans.Planned.{MayBePlanned, planned};
ghost use Rattle.ftl_plan.specs.plans.StageTables.{AreTablesOf, stage_in};
ghost use Rattle.ftl_step_value.specs.declared.limits.faults.fault.PlanFault.TheVariants.{OutOfMemory};

use crate::plans::filled::marks_for_nodes;
use crate::plans::hosts::nest_hosts;
use crate::plans::kept::PlanStage;
use crate::plans::parts::StageParts;
use crate::plans::stages::kept_stages;
use crate::plans::words::first_words;
use crate::plans::work::StageWork;
use ftl_checked::Checked;
use ftl_cursors::{ItemTables, StageItems, TreeRows};
use ftl_host_cursors::NestTables;
use ftl_nest_check::AcceptedNests;
use ftl_step_value::limits::{PlanFault, ReadTables, first_fault, is_sound};
use ftl_step_value::{NeighbourParts, RuleForm, neighbour_parts, rule_forms};
use ftl_tree::{Tree, attribute_places};
use ftl_visit::{Programs, RuleTarget, rule_targets};
use std::alloc::{AllocError, Global};
use std::marker::Model;

/// The stages of a tree. It borrows what it is made of, and keeps no list of steps: for each class
/// and pass what a visit does, for each rule what its steps read and how they compute, and for each
/// node and host class where items begin.
#[derive(Drop)]
pub struct Plan<'a> {
    checked: &'a Checked,
    accepted: &'a AcceptedNests<'a>,
    programs: &'a Programs,
    tree: &'a Tree<'a>,
    tables: ReadTables,
    items: TreeRows<'a>,
    targets: Vec<RuleTarget>,
    neighbours: Vec<NeighbourParts>,
    forms: Vec<RuleForm>,
    stages: Vec<PlanStage>,
}

impl<'a> Model for Plan<'a> {
    ghost use Rattle.std.specs.Coded.{codes};
    ghost use Rattle.ftl_model.specs.layout.ForestCode.{forest_code};
    ghost use Rattle.ftl_grammar.specs.contracts.syntax.expression.Expr as e;
    ghost use Rattle.ftl_plan.specs.plans.PlanInside.{IsPlan, plan_inside};
    ghost use Rattle.ftl_plan.specs.plans.Planned.{PlanMeaning};

    ghost Value = { PlanMeaning };

    ghost coded = { Prim.hlevel (codes, e.the_row.coded, forest_code) };

    ghost view = { plan_inside };

    ghost invariant = { IsPlan };
}

impl<'a> Plan<'a> {
    /// The plan of a tree with items of at most so many nodes, or its first fault. All must belong
    /// to one grammar.
    #[inline(never)]
    pub fn new(
        alloc: Global,
        checked: &'a Checked,
        accepted: &'a AcceptedNests<'a>,
        programs: &'a Programs,
        tree: &'a Tree<'a>,
        grain: u32,
    ) -> Result<Plan<'a>, PlanFault>
        requires accepted { accepted.now.checked ≡ checked.now }
        requires tree { tree.now.checked ≡ checked.now }
        requires may { MayBePlanned (record {
          checked = checked.now;
          schedule = accepted.now.schedule;
          programs = programs.now;
          tree = tree.now.tree;
          grain = grain;
        }) }
        ensures exact { Gives OutOfMemory (λ p. p) result (planned (record {
          checked = checked.now;
          schedule = accepted.now.schedule;
          programs = programs.now;
          tree = tree.now.tree;
          grain = grain;
        })) }
    {
        is_sound(checked);
        let tables = ReadTables::new(alloc, checked)?;
        let _limits = accepted.schedule();
        if let Some(fault) = first_fault(alloc, &tables, accepted.placed().outer_placed(), tree)? {
            return Err(fault);
        }
        let all = accepted.schedule().stages.as_slice();
        let hosts = nest_hosts(alloc, all)?;
        let items = TreeRows::new(alloc, tree, grain, hosts.as_slice())?;
        let targets = rule_targets(alloc, checked)?;
        let places = attribute_places(alloc, checked)?;
        let neighbours = neighbour_parts(alloc, &places, &tables, checked)?;
        let forms = rule_forms(alloc, programs, &places, &tables, &neighbours, checked)?;
        let stages = kept_stages(alloc, checked, &items, all)?;
        Ok(Plan {
            checked,
            accepted,
            programs,
            tree,
            tables,
            items,
            targets,
            neighbours,
            forms,
            stages,
        })
    }

    /// How many outer stages the schedule has.
    pub fn stage_count(&self) -> u32
        ensures count { result ≡ length (nests_of self.now.schedule) }
        ensures plan { CanBePlanned (meant self.now.checked) (nests_of self.now.schedule)
            self.now.tree }
    {
        let _nodes = self.tree.node_count();
        let _cells = self.tree.instance_count();
        self.accepted.schedule().stages.len() as u32
    }

    /// How many nodes the tree has.
    pub fn node_count(&self) -> u32
        ensures nodes { result ≡ size self.now.tree }
    {
        self.tree.node_count()
    }

    /// How many cells the tree has: one for each instance.
    pub fn cell_count(&self) -> u32
        ensures cells { result ≡ instance_count (meant self.now.checked) self.now.tree }
    {
        self.tree.instance_count()
    }

    /// The work of a stage. It borrows the plan, and takes no memory.
    pub fn stage(&self, stage: u32) -> StageWork<'_>
        requires stage { stage < length (nests_of self.now.schedule) }
        ensures stage { result ≡ stage_in self.now stage }
    {
        let _stages = self.stage_count();
        let neighbours = self.neighbours.as_slice();
        let forms = self.forms.as_slice();
        StageWork::new(StageParts {
            accepted: self.accepted,
            programs: self.programs,
            read_tables: &self.tables,
            item_tables: self.nest_tables(stage),
            neighbours,
            forms,
            stage,
        })
    }

    /// The items of a stage, with what their steps are told by.
    fn nest_tables(&self, stage: u32) -> NestTables<'_>
        requires stage { stage < length (nests_of self.now.schedule) }
        ensures tables { AreTablesOf self.now stage result }
    {
        let stages = self.stages.as_slice();
        let kept = &stages[stage as usize];
        NestTables {
            own: ItemTables {
                items: StageItems::new(
                    &self.items,
                    kept.passes.as_slice(),
                    kept.rows.cuts.as_slice(),
                    kept.rows.starts.as_slice(),
                ),
                visits: kept.rows.tables.visits.as_slice(),
                places: kept.rows.tables.places.as_slice(),
                targets: self.targets.as_slice(),
            },
            nests: kept.nests.as_slice(),
        }
    }

    /// The words of all cells before the first stage: those of the inputs, and 0 elsewhere.
    pub fn first_words(&self, alloc: Global) -> Result<Vec<u64>, AllocError>
        ensures words { IfOk result (λ v. v.items
            ≡ first_words (meant self.now.checked) self.now.tree) }
    {
        first_words(alloc, &self.tables, self.tree)
    }

    /// Whether each outer stage may fill a cell. One in which no attribute of a node stands, as where
    /// its lists are empty or have attributes of classes that the tree hasn't, is told not to.
    pub fn filling_stages(&self, alloc: Global) -> Result<Vec<bool>, AllocError>
        ensures told { IfOk result (λ v. TellFilling self.now v.items) }
    {
        let count = self.stage_count() as usize;
        marks_for_nodes(alloc, self.accepted, &self.tables, self.tree, count)
    }
}

//! What the instances of a page read.

ghost use Rattle.std.specs.Prelude.{◌≡◌, ◌<◌, None, Some, IfOk, MatchOption, IfSome, length};
ghost use Rattle.std.specs.List.{All};
ghost use Rattle.std.specs.Option.{option_map};
ghost use Rattle.ftl_deps.specs.reads.Meant.{meant};
ghost use Rattle.ftl_step_value.specs.limits.reads.ReadTables.{AreTables};
ghost use Rattle.ftl_meaning.specs.faults.Checked.{all_rules};
ghost use Rattle.ftl_model.specs.layout.Path.{node_at, number_of, parent_of};
ghost use Rattle.ftl_model.specs.layout.Tree.{size};
ghost use Rattle.ftl_order.specs.steps.Steps.{IsStepOf};
ghost use Rattle.ftl_step_value.specs.cells.ReadCells.{read_cells};
ghost use Rattle.ftl_visit.specs.visits.Visits.{rule_number};
ghost use Rattle.maugzeris.specs.pages.Instances.{Computes, IsInstanceOn, reads_on};
ghost use Rattle.maugzeris.specs.pages.Instances.{rule_at_node, rule_on};
ghost use Rattle.maugzeris.specs.pages.PageState.{HasAttribute, class_on};

use crate::pages::page::Page;
use ftl_order::Step;
use ftl_step_value::StepReads;
use ftl_step_value::limits::{ReadTables, is_sound};
use std::alloc::{AllocError, Global};
use std::marker::Model;

/// What the instances of a page read, and which rules compute them. Contracts see the page.
#[derive(Drop)]
pub struct Reads<'p> {
    page: &'p Page<'p>,
    tables: ReadTables,
}

impl<'p> Model for Reads<'p> {
    ghost use Rattle.std.specs.Coded.{codes};
    ghost use Rattle.ftl_deps.specs.reads.Meant.{meant};
    ghost use Rattle.ftl_step_value.specs.limits.reads.ReadTables.{AreTables};
    ghost use Rattle.ftl_model.specs.layout.ForestCode.{forest_code};
    ghost use Rattle.ftl_grammar.specs.contracts.syntax.expression.Expr as e;
    ghost use Rattle.maugzeris.specs.pages.PageState.{PageState};

    ghost Value = { PageState };

    ghost coded = { Prim.hlevel (codes, e.the_row.coded, forest_code) };

    ghost view = { λ r. r.page.now };

    ghost invariant = { λ r. AreTables (meant r.page.now.checked) r.tables };
}

impl<'a> Page<'a> {
    /// What the instances of the page read, by tables that are made once.
    pub fn reads<'p>(&'p self, alloc: Global) -> Result<Reads<'p>, AllocError>
        ensures page { IfOk result (λ r. r ≡ self.now) }
    {
        let tables = ReadTables::new(alloc, self.grammar().checked())?;
        Ok(Reads { page: self, tables })
    }
}

impl<'p> Reads<'p> {
    /// The page.
    pub fn page(&self) -> &'p Page<'p>
        ensures page { result.now ≡ self.now }
    {
        self.page
    }

    /// The number of the rule that computes an instance, in the order of the grammar; none of an
    /// input.
    pub fn rule(&self, instance: u32) -> Option<u32>
        requires instance { IsInstanceOn self.now instance }
        ensures rule { result ≡ rule_on self.now instance }
        ensures known { IfSome result (λ r. r < length (all_rules self.now.checked.grammar)) }
    {
        let _known = self.page.tree();
        let _lawful = self.page.grammar().checked().grammar();
        let node = self.page.node_of(instance);
        let attr = self.page.attribute_of(instance);
        match step_of(&self.tables, self.page, node, attr) {
            Some(step) => Some(step.rule),
            None => None,
        }
    }

    /// The numbers of the instances that an instance reads, in the order of its rule's text, each
    /// as often as it is read; an input reads nothing.
    pub fn of(&self, alloc: Global, instance: u32) -> Result<Vec<u32>, AllocError>
        requires instance { IsInstanceOn self.now instance }
        ensures reads { IfOk result (λ v. v.items ≡ reads_on self.now instance) }
        ensures known { IfOk result (λ v. All (IsInstanceOn self.now) v.items) }
    {
        let _known = self.page.tree();
        let node = self.page.node_of(instance);
        let attr = self.page.attribute_of(instance);
        match step_of(&self.tables, self.page, node, attr) {
            Some(step) => Ok(reads_of_step(alloc, &self.tables, self.page, step)?),
            None => Ok(Vec::new(alloc)),
        }
    }
}

/// What a step reads.
fn reads_of_step(
    alloc: Global,
    tables: &ReadTables,
    page: &Page<'_>,
    step: Step,
) -> Result<Vec<u32>, AllocError>
    requires tables { AreTables (meant page.now.checked) tables.now }
    requires step { IsStepOf (meant page.now.checked) page.now.tree step }
    ensures reads { IfOk result (λ v. v.items
        ≡ read_cells (meant page.now.checked) page.now.tree step) }
{
    cells_read(alloc, step_reads(tables, page, step))
}

/// A cursor before the first cell that a step reads.
fn step_reads<'p>(tables: &'p ReadTables, page: &'p Page<'p>, step: Step) -> StepReads<'p>
    requires tables { AreTables (meant page.now.checked) tables.now }
    requires step { IsStepOf (meant page.now.checked) page.now.tree step }
    ensures cells { result ≡ read_cells (meant page.now.checked) page.now.tree step }
{
    is_sound(page.grammar().checked());
    StepReads::new(tables, page.tree(), step)
}

/// The cells that a cursor has left.
fn cells_read(alloc: Global, cells: StepReads<'_>) -> Result<Vec<u32>, AllocError>
    ensures reads { IfOk result (λ v. v.items ≡ cells.entry) }
{
    let mut cells = cells;
    let mut reads = Vec::new(alloc);
    while let Some(cell) = cells.next() {
        reads.push(cell)?;
    }
    Ok(reads)
}

/// The step that computes an attribute of a node; none of an input.
fn step_of(tables: &ReadTables, page: &Page<'_>, node: u32, attr: u32) -> Option<Step>
    requires tables { AreTables (meant page.now.checked) tables.now }
    requires node { node < size page.now.tree }
    requires attribute { HasAttribute page.now node attr }
    ensures step { MatchOption result
        (rule_at_node (meant page.now.checked) page.now.tree (node_at page.now.tree node) attr
        ≡ None) (Computes page.now node attr) }
{
    let _known = page.tree();
    match own_rule(tables, page, node, attr) {
        Some(rule) => Some(Step { node, rule, kid: 0 }),
        None => step_above(tables, page, node, attr),
    }
}

/// The same of an attribute that the node's own class has no rule for.
fn step_above(tables: &ReadTables, page: &Page<'_>, node: u32, attr: u32) -> Option<Step>
    requires tables { AreTables (meant page.now.checked) tables.now }
    requires node { node < size page.now.tree }
    requires attribute { HasAttribute page.now node attr }
    requires none { None ≡ rule_number (meant page.now.checked) (class_on page.now node) None attr }
    ensures step { MatchOption result
        (rule_at_node (meant page.now.checked) page.now.tree (node_at page.now.tree node) attr
        ≡ None) (Computes page.now node attr) }
{
    let _known = page.tree();
    match page.parent(node) {
        Some(parent) => step_from(tables, page, parent, node, attr),
        None => None,
    }
}

/// The same, by the node's parent.
fn step_from(
    tables: &ReadTables,
    page: &Page<'_>,
    parent: u32,
    node: u32,
    attr: u32,
) -> Option<Step>
    requires tables { AreTables (meant page.now.checked) tables.now }
    requires node { node < size page.now.tree }
    requires attribute { HasAttribute page.now node attr }
    requires none { None ≡ rule_number (meant page.now.checked) (class_on page.now node) None attr }
    requires parent { Some parent
        ≡ option_map (number_of page.now.tree) (parent_of (node_at page.now.tree node)) }
    ensures step { MatchOption result
        (rule_at_node (meant page.now.checked) page.now.tree (node_at page.now.tree node) attr
        ≡ None) (Computes page.now node attr) }
{
    let _known = page.tree();
    let place = page.tree().place(node);
    match kid_rule(tables, page, parent, place.child, attr) {
        Some(rule) => Some(Step {
            node: parent,
            rule,
            kid: place.kid,
        }),
        None => None,
    }
}

/// The number of the rule of a node's class for an attribute of the node itself.
fn own_rule(tables: &ReadTables, page: &Page<'_>, node: u32, attr: u32) -> Option<u32>
    requires tables { AreTables (meant page.now.checked) tables.now }
    requires node { node < size page.now.tree }
    requires attribute { HasAttribute page.now node attr }
    ensures rule { result
        ≡ rule_number (meant page.now.checked) (class_on page.now node) None attr }
{
    let _known = page.tree();
    let class = page.class(node);
    let rows = tables.rules.own.as_slice();
    let row = rows[class as usize].as_slice();
    row[attr as usize]
}

/// The number of the rule of a node's class for an attribute of the kids in a child.
fn kid_rule(tables: &ReadTables, page: &Page<'_>, node: u32, child: u32, attr: u32) -> Option<u32>
    requires tables { AreTables (meant page.now.checked) tables.now }
    requires node { node < size page.now.tree }
    requires child { child < (meant page.now.checked).child_count (class_on page.now node) }
    requires attr { attr < (meant page.now.checked).attribute_count }
    ensures rule { result
        ≡ rule_number (meant page.now.checked) (class_on page.now node) (Some child) attr }
{
    let _known = page.tree();
    let class = page.class(node);
    let classes = tables.rules.kids.as_slice();
    let rows = classes[class as usize].as_slice();
    let row = rows[child as usize].as_slice();
    row[attr as usize]
}

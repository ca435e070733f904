//! The edges of reads in the matrix of a class.

ghost use Rattle.std.specs.Prelude.{◌≡◌, ◌<◌, true, length, IfOk};
ghost use Rattle.ftl_deps.specs.reads.DepRows.{dep_rows};
ghost use Rattle.ftl_deps.specs.reads.Meant.{meant};
ghost use Rattle.ftl_meaning.specs.faults.Checked.{all_rules};
ghost use Rattle.ftl_model.specs.layout.AttributeGrammar.{AttributeGrammar};
ghost use Rattle.ftl_noncircular.specs.grammars.Noncircular.{Dependence, Edge};
ghost use Rattle.ftl_noncircular.specs.search.Circles.{vertex_at};
ghost use Rattle.ftl_noncircular.specs.search.Numbers.{vertex_count};
ghost use Rattle.ftl_noncircular.specs.search.Pairs.{KeepsEntries};
ghost use Rattle.ftl_noncircular.specs.search.RuleEdges.{IsEntered, IsRuleEntered, makes_edge};
ghost use Rattle.ftl_noncircular.specs.search.RuleEdges.{read_vertex, rule_at};
ghost use Rattle.ftl_noncircular.specs.search.Searches.{AreEdges, HasReads};
ghost use Rattle.ftl_noncircular.specs.search.Shapes.{IsShapeOf};

use crate::search::shape::{Shape, Vertex};
use ftl_checked::Checked;
use ftl_deps::DepTable;
use ftl_order::{DepRead, Form};
use lane_rows::BitMatrix;
use std::alloc::{AllocError, Global};

/// The edges that the reads of a class's rules make: all, or all but those by `prev`.
pub(crate) fn read_edges(
    alloc: Global,
    checked: &Checked,
    deps: &DepTable,
    shape: &Shape,
    class: u32,
    prevs: bool,
) -> Result<BitMatrix, AllocError>
    ghost g: { AttributeGrammar }
    requires meant { g ≡ meant checked.now }
    requires table { deps.now ≡ dep_rows g }
    requires shape { IsShapeOf g shape.now }
    requires class { class < g.class_count }
    ensures reads { IfOk result (HasReads g shape.now.places prevs class) }
{
    let _lawful = checked.grammar();
    let mut edges = BitMatrix::new(alloc, shape.size(class))?;
    for rule in 0..checked.rule_count() {
        add_rule(checked, deps, shape, class, rule, prevs, &mut edges);
    }
    Ok(edges)
}

/// Adds the edges that the reads of a rule make, if it is one of the class.
fn add_rule(
    checked: &Checked,
    deps: &DepTable,
    shape: &Shape,
    class: u32,
    rule: u32,
    prevs: bool,
    edges: &mut BitMatrix,
)
    ghost g: { AttributeGrammar }
    requires meant { g ≡ meant checked.now }
    requires table { deps.now ≡ dep_rows g }
    requires shape { IsShapeOf g shape.now }
    requires class { class < g.class_count }
    requires rule { rule < length (all_rules checked.now.grammar) }
    requires size { length edges.old ≡ vertex_count g class }
    requires edges { AreEdges g shape.now.places prevs class edges.old }
    ensures size { length edges.new ≡ length edges.old }
    ensures kept { KeepsEntries edges.old edges.new }
    ensures edges { AreEdges g shape.now.places prevs class edges.new }
    ensures entered { IsRuleEntered g shape.now.places prevs class edges.new (rule_at g rule) }
{
    let _lawful = checked.grammar();
    let info = checked.rule(rule);
    if info.class != class {
        return;
    }
    let to = Vertex {
        child: info.child,
        attr: info.attr,
    };
    for read in deps.reads(rule) {
        add_read(shape, class, *read, to, prevs, edges);
    }
}

/// Adds the edge of a read to this vertex, where it makes one.
fn add_read(
    shape: &Shape,
    class: u32,
    read: DepRead,
    to: Vertex,
    prevs: bool,
    edges: &mut BitMatrix,
)
    ghost g: { AttributeGrammar }
    requires shape { IsShapeOf g shape.now }
    requires class { class < g.class_count }
    requires read { makes_edge prevs read.form ≡ true
        → Edge g (Dependence g) prevs class (read_vertex read) (vertex_at to.child to.attr) }
    requires size { length edges.old ≡ vertex_count g class }
    requires edges { AreEdges g shape.now.places prevs class edges.old }
    ensures size { length edges.new ≡ length edges.old }
    ensures kept { KeepsEntries edges.old edges.new }
    ensures edges { AreEdges g shape.now.places prevs class edges.new }
    ensures entered { IsEntered shape.now.places prevs edges.new read (vertex_at to.child to.attr) }
{
    if !makes_edge(prevs, read.form) {
        return;
    }
    let from = Vertex {
        child: read.child,
        attr: read.attr,
    };
    edges.put(shape.number(class, from), shape.number(class, to));
}

/// Whether a read of this form makes an edge.
fn makes_edge(prevs: bool, form: Form) -> bool
    ensures makes { result ≡ makes_edge prevs form }
{
    match form {
        Form::Prev => prevs,
        Form::Plain | Form::This | Form::Last | Form::Each => true,
    }
}

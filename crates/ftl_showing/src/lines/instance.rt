//! Instances: attributes of nodes, what computes them, and what they read.

ghost use Rattle.std.specs.Prelude.{◌≡◌, ◌<◌, ◌++◌, codes, flat_map, IfOk, OnOk};
ghost use Rattle.std.specs.List.{All as AllOf};
ghost use Rattle.std.specs.String.{string_bytes};
ghost use Rattle.maugzeris.specs.pages.Instances.{IsInstanceOn, reads_on};
ghost use Rattle.ftl_model.specs.layout.Tree.{size};
ghost use Rattle.maugzeris.specs.pages.PageState.{HasAttribute, IsLaidOut};
ghost use Rattle.ftl_showing.specs.lines.Details.{attribute_text, instance_text, name_text};
ghost use Rattle.ftl_showing.specs.lines.Details.{read_text, source_text};

use crate::lines::fields::push_value;
use crate::lines::node::push_number;
use maugzeris::{Page, Reads};
use std::alloc::{AllocError, Global};

/// Appends an instance: the number of its node, a dot, its attribute, `=` and its value.
pub fn push_instance(out: &mut String, page: &Page<'_>, instance: u32) -> Result<(), AllocError>
    requires laid_out { IsLaidOut page.now }
    requires instance { IsInstanceOn page.now instance }
    ensures text { OnOk result (string_bytes out.new
        ≡ string_bytes out.old ++ instance_text page.now instance) }
{
    let node = page.node_of(instance);
    let attr = page.attribute_of(instance);
    push_attribute(out, page, node, attr)
}

/// Appends an attribute of a node, likewise.
fn push_attribute(out: &mut String, page: &Page<'_>, node: u32, attr: u32) -> Result<(), AllocError>
    requires laid_out { IsLaidOut page.now }
    requires node { node < size page.now.tree }
    requires attribute { HasAttribute page.now node attr }
    ensures text { OnOk result (string_bytes out.new
        ≡ string_bytes out.old ++ attribute_text page.now node attr) }
{
    push_number(out, node)?;
    out.push_str(".")?;
    out.push_str(page.attribute_name(node, attr))?;
    out.push_str("=")?;
    push_value(out, page.value(node, attr))
}

/// Appends the number of an instance's node, a dot and its attribute.
pub fn push_name(out: &mut String, page: &Page<'_>, instance: u32) -> Result<(), AllocError>
    requires instance { IsInstanceOn page.now instance }
    ensures text { OnOk result (string_bytes out.new
        ≡ string_bytes out.old ++ name_text page.now instance) }
{
    let node = page.node_of(instance);
    push_number(out, node)?;
    out.push_str(".")?;
    out.push_str(page.attribute_name(node, page.attribute_of(instance)))
}

/// Appends what computes an instance of a page: `input`, or the class that has the rule, and the
/// rule.
pub fn push_source(
    alloc: Global,
    out: &mut String,
    page: &Page<'_>,
    reads: &Reads<'_>,
    instance: u32,
) -> Result<(), AllocError>
    requires same { reads.now ≡ page.now }
    requires instance { IsInstanceOn page.now instance }
    ensures text { OnOk result (string_bytes out.new
        ≡ string_bytes out.old ++ source_text page.now instance) }
{
    push_rule(alloc, out, reads, instance)
}

/// Appends the same by the rules of what is read.
fn push_rule(
    alloc: Global,
    out: &mut String,
    reads: &Reads<'_>,
    instance: u32,
) -> Result<(), AllocError>
    requires instance { IsInstanceOn reads.now instance }
    ensures text { OnOk result (string_bytes out.new
        ≡ string_bytes out.old ++ source_text reads.now instance) }
{
    let Some(rule) = reads.rule(instance) else {
        return out.push_str("input");
    };
    let grammar = reads.page().grammar();
    out.push_str(grammar.rule_class(rule))?;
    out.push_str(": ")?;
    out.push_str(grammar.rule_text(alloc, rule)?.as_str())
}

/// What an instance of a page read.
pub fn read_by(
    alloc: Global,
    page: &Page<'_>,
    reads: &Reads<'_>,
    instance: u32,
) -> Result<Vec<u32>, AllocError>
    requires same { reads.now ≡ page.now }
    requires instance { IsInstanceOn page.now instance }
    ensures reads { IfOk result (λ v. v.items ≡ reads_on page.now instance) }
    ensures known { IfOk result (λ v. AllOf (IsInstanceOn page.now) v.items) }
{
    reads.of(alloc, instance)
}

/// Appends these instances, a space before each.
pub fn push_reads(out: &mut String, page: &Page<'_>, instances: &[u32]) -> Result<(), AllocError>
    requires laid_out { IsLaidOut page.now }
    requires known { AllOf (IsInstanceOn page.now) instances.now }
    ensures text { OnOk result (string_bytes out.new
        ≡ string_bytes out.old ++ flat_map (read_text page.now) instances.now) }
{
    for instance in instances {
        out.push_str(" ")?;
        push_instance(out, page, *instance)?;
    }
    Ok(())
}

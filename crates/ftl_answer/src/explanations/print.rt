//! The text of an example.

ghost use Rattle.std.specs.Prelude.{◌≡◌, ◌++◌, IfOk, OnOk};
ghost use Rattle.std.specs.List.{flat_map};
ghost use Rattle.ftl_nests.specs.Nests.{NestingSchedule};
ghost use Rattle.ftl_order.specs.orders.Pairs.{Pair};
ghost use Rattle.ftl_answer.specs.answers.Explanations.{example_text};
ghost use Rattle.ftl_answer.specs.explanations.Rows.{AreNumbers, IsExampleOf, IsNumber};
ghost use Rattle.ftl_answer.specs.explanations.Rows.{instance_rows, numbered_line, numbered_text};

use crate::explanations::rows::{InstanceRow, instance_rows, tree_is_lawful};
use crate::refusals::pieces::{around, number, text};
use ftl_document_printing::print_document;
use ftl_tree::Tree;
use std::alloc::{AllocError, Global};

/// The text of an example, by the numbers of its instances.
pub fn print_example(
    alloc: Global,
    tree: &Tree,
    reader: u32,
    writer: u32,
    order: &[u32],
) -> Result<Vec<u8>, AllocError>
    requires example { (s : NestingSchedule) × (pair : Pair)
        × IsExampleOf s pair tree.now reader writer order.now }
    ensures text { (s : NestingSchedule) (pair : Pair)
        → (e : IsExampleOf s pair tree.now reader writer order.now)
        → IfOk result (λ v. v.items ≡ example_text tree.now.checked.grammar tree.now.tree
        e.reading e.written e.steps) }
{
    tree_is_lawful(tree);
    numbered_text(alloc, tree, reader, writer, order)
}

fn numbered_text(
    alloc: Global,
    tree: &Tree,
    reader: u32,
    writer: u32,
    order: &[u32],
) -> Result<Vec<u8>, AllocError>
    requires reader { IsNumber tree.now reader }
    requires writer { IsNumber tree.now writer }
    requires order { AreNumbers tree.now order.now }
    ensures text { IfOk result
        (λ v. v.items ≡ numbered_text tree.now reader writer order.now) }
{
    let rows = instance_rows(alloc, tree)?;
    let document = print_document(alloc, tree)?;
    let mut out = Vec::new(alloc);
    add_titled(&mut out, tree, &rows, "reader ", reader)?;
    add_titled(&mut out, tree, &rows, "writer ", writer)?;
    text(&mut out, document.as_str())?;
    add_lines(&mut out, tree, &rows, order)?;
    Ok(out)
}

/// Adds the line of an instance after a text.
fn add_titled(
    out: &mut Vec<u8>,
    tree: &Tree,
    rows: &[InstanceRow],
    title: &str,
    instance: u32,
) -> Result<(), AllocError>
    requires rows { rows.now ≡ instance_rows tree.now }
    requires instance { IsNumber tree.now instance }
    ensures line { OnOk result (out.new.items
        ≡ out.old.items ++ (title.now ++ numbered_line tree.now instance)) }
{
    text(out, title)?;
    add_line(out, tree, rows, instance)
}

/// Adds the lines of some instances.
fn add_lines(
    out: &mut Vec<u8>,
    tree: &Tree,
    rows: &[InstanceRow],
    order: &[u32],
) -> Result<(), AllocError>
    requires rows { rows.now ≡ instance_rows tree.now }
    requires order { AreNumbers tree.now order.now }
    ensures lines { OnOk result (out.new.items
        ≡ out.old.items ++ flat_map (numbered_line tree.now) order.now) }
{
    for instance in order {
        add_line(out, tree, rows, *instance)?;
    }
    Ok(())
}

/// Adds the line of an instance.
fn add_line(
    out: &mut Vec<u8>,
    tree: &Tree,
    rows: &[InstanceRow],
    instance: u32,
) -> Result<(), AllocError>
    requires rows { rows.now ≡ instance_rows tree.now }
    requires instance { IsNumber tree.now instance }
    ensures line { OnOk result (out.new.items
        ≡ out.old.items ++ numbered_line tree.now instance) }
{
    tree_is_lawful(tree);
    let row = rows[instance as usize];
    number(out, row.node)?;
    around(out, " ", tree.checked().attr_name(row.attr).text(), "\n")
}

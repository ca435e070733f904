//! Grammars in which something may depend on itself.

ghost use Rattle.std.specs.Prelude.{◌≡◌, ◌++◌, OnOk};
ghost use Rattle.std.specs.Option.{option_map};
ghost use Rattle.ftl_meaning.specs.faults.Checked.{attribute_at};
ghost use Rattle.ftl_meaning.specs.faults.Numbering.{child_at};
ghost use Rattle.ftl_answer.specs.refusals.CircularLines.{circular_line, vertex_name};
ghost use Rattle.ftl_answer.specs.refusals.Names.{place_name, rule_text};

use crate::refusals::names::{class_name, dotted};
use crate::refusals::pieces::text;
use ftl_checked::Checked;
use ftl_noncircular::CircularFault;
use std::alloc::AllocError;

/// Adds the line of the first circular vertex of a grammar.
pub fn write_circular_fault(
    out: &mut Vec<u8>,
    checked: &Checked,
    fault: CircularFault,
) -> Result<(), AllocError>
    ensures line { OnOk result (out.new.items
        ≡ out.old.items ++ circular_line checked.now.grammar fault) }
{
    match fault {
        CircularFault::Circular { class, child, attr } => {
            let texts = ("refused grammar: ", " may depend on itself");
            around_vertex(out, checked, class, child, attr, texts)
        }
        CircularFault::OutOfMemory => Ok(()),
    }
}

/// Adds an attribute of the node, or of the kids in a child, as a rule for it is named.
fn vertex(
    out: &mut Vec<u8>,
    checked: &Checked,
    class: u32,
    child: Option<u32>,
    attr: u32,
) -> Result<(), AllocError>
    ensures added { OnOk result (out.new.items ≡ out.old.items
        ++ rule_text (vertex_name checked.now.grammar class child attr)) }
{
    text(out, class_name(checked, class))?;
    text(out, " ")?;
    dotted(
        out,
        place(checked, class, child),
        attribute_name(checked, attr),
    )
}

/// Adds such an attribute between two texts.
fn around_vertex(
    out: &mut Vec<u8>,
    checked: &Checked,
    class: u32,
    child: Option<u32>,
    attr: u32,
    texts: (&str, &str),
) -> Result<(), AllocError>
    ensures added { OnOk result (out.new.items ≡ out.old.items ++ (texts.entry.0.now
        ++ (rule_text (vertex_name checked.now.grammar class child attr)
        ++ texts.entry.1.now))) }
{
    text(out, texts.0)?;
    vertex(out, checked, class, child, attr)?;
    text(out, texts.1)
}

/// The node itself, or its kids in a child.
fn place(checked: &Checked, class: u32, child: Option<u32>) -> &str
    ensures place { result.now
        ≡ place_name (option_map (λ c. (child_at checked.now.grammar class c).name) child) }
{
    match child {
        None => "self",
        Some(child) => child_name(checked, class, child),
    }
}

fn child_name(checked: &Checked, class: u32, child: u32) -> &str
    ensures name { result.now ≡ (child_at checked.now.grammar class child).name }
{
    match checked.grammar().classes.as_slice().get(class as usize) {
        Some(class) => match class.children.as_slice().get(child as usize) {
            Some(child) => child.name.text(),
            None => "",
        },
        None => "",
    }
}

fn attribute_name(checked: &Checked, attr: u32) -> &str
    ensures name { result.now ≡ (attribute_at checked.now.grammar attr).decl.name }
{
    if attr < checked.attr_count() {
        checked.attr_name(attr).text()
    } else {
        ""
    }
}

//! One node: its head with what is asked for of its attributes.

ghost use Rattle.std.specs.Prelude.{◌≡◌, ◌<◌, ◌++◌, codes, flat_map, IfOk, OnOk};
ghost use Rattle.std.specs.Fmt.{decimal};
ghost use Rattle.std.specs.String.{string_bytes};
ghost use Rattle.ftl_model.specs.layout.Tree.{size};
ghost use Rattle.maugzeris.specs.pages.PageState.{IsLaidOut};
ghost use Rattle.maugzeris.specs.pages.Places.{child_name_on, kid_on};
ghost use Rattle.ftl_showing.specs.lines.Lines.{head_text, node_text, place_text};

use crate::lines::fields::{Fields, attributes, push_fields};
use itoa::Buffer;
use maugzeris::Page;
use std::alloc::AllocError;

/// Appends the line of a node, without indentation and line feed.
pub fn push_node(
    out: &mut String,
    page: &Page<'_>,
    node: u32,
    fields: Fields,
) -> Result<(), AllocError>
    requires laid_out { IsLaidOut page.now }
    requires node { node < size page.now.tree }
    ensures text { OnOk result (string_bytes out.new
        ≡ string_bytes out.old ++ node_text fields page.now node) }
{
    push_head(out, page, node)?;
    push_fields(out, page, node, attributes(page, node, fields))
}

/// Appends the number of a node, its class, and where it stands.
pub fn push_head(out: &mut String, page: &Page<'_>, node: u32) -> Result<(), AllocError>
    requires node { node < size page.now.tree }
    ensures text { OnOk result (string_bytes out.new
        ≡ string_bytes out.old ++ head_text page.now node) }
{
    push_number(out, node)?;
    out.push_str(" ")?;
    out.push_str(page.class_name(node))?;
    push_place(out, page, node)
}

/// Appends the child in which a node stands, and which of its kids it is.
fn push_place(out: &mut String, page: &Page<'_>, node: u32) -> Result<(), AllocError>
    requires node { node < size page.now.tree }
    ensures text { OnOk result (string_bytes out.new ≡ string_bytes out.old
        ++ place_text (child_name_on page.now node) (kid_on page.now node)) }
{
    let Some(name) = page.child_name(node) else {
        return Ok(());
    };
    out.push_str(" ")?;
    out.push_str(name)?;
    let Some(kid) = page.kid(node) else {
        return Ok(());
    };
    out.push_str(" ")?;
    push_number(out, kid)
}

/// Appends a number in decimal.
pub fn push_number(out: &mut String, number: u32) -> Result<(), AllocError>
    ensures text { OnOk result (string_bytes out.new ≡ string_bytes out.old ++ decimal number) }
{
    out.push_str(Buffer::new().format(number))
}

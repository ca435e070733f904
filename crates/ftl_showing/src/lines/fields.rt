//! The attributes of a node, by name and value.

ghost use Rattle.std.specs.Prelude.{◌≡◌, ◌<◌, ◌++◌, codes, flat_map, OnOk};
ghost use Rattle.std.specs.List.{All as AllOf};
ghost use Rattle.std.specs.String.{string_bytes};
ghost use Rattle.ftl_model.specs.layout.Boxes.{value_text};
ghost use Rattle.ftl_model.specs.layout.Tree.{size};
ghost use Rattle.maugzeris.specs.pages.PageState.{HasAttribute, IsLaidOut};
ghost use Rattle.ftl_showing.specs.lines.Lines.{attributes_shown, field_on};

use itoa::Buffer;
use maugzeris::{Page, Val};
use std::alloc::AllocError;

/// Which attributes a line shows.
#[derive(Clone, Copy)]
pub enum Fields {
    /// Those that the node's interface shows.
    Shown,
    /// Each that the node has: those of its interface, then those of its class.
    All,
}

/// The attributes of a node that are asked for.
pub fn attributes<'p>(page: &'p Page<'_>, node: u32, fields: Fields) -> &'p [u32]
    requires node { node < size page.now.tree }
    ensures attributes { result.now ≡ attributes_shown fields page.now node }
    ensures known { AllOf (HasAttribute page.now node) result.now }
{
    match fields {
        Fields::Shown => page.shown(node),
        Fields::All => page.attributes(node),
    }
}

/// Appends these attributes of a node.
pub fn push_fields(
    out: &mut String,
    page: &Page<'_>,
    node: u32,
    attributes: &[u32],
) -> Result<(), AllocError>
    requires laid_out { IsLaidOut page.now }
    requires node { node < size page.now.tree }
    requires known { AllOf (HasAttribute page.now node) attributes.now }
    ensures text { OnOk result (string_bytes out.new
        ≡ string_bytes out.old ++ flat_map (field_on page.now node) attributes.now) }
{
    for attr in attributes {
        push_field(out, page, node, *attr)?;
    }
    Ok(())
}

/// Appends an attribute of a node: a space, its name, `=` and its value.
pub fn push_field(out: &mut String, page: &Page<'_>, node: u32, attr: u32) -> Result<(), AllocError>
    requires laid_out { IsLaidOut page.now }
    requires node { node < size page.now.tree }
    requires known { HasAttribute page.now node attr }
    ensures text { OnOk result (string_bytes out.new
        ≡ string_bytes out.old ++ field_on page.now node attr) }
{
    out.push_str(" ")?;
    out.push_str(page.attribute_name(node, attr))?;
    out.push_str("=")?;
    push_value(out, page.value(node, attr))
}

/// Appends a number in decimal, or `overflow`.
pub fn push_value(out: &mut String, value: Val) -> Result<(), AllocError>
    ensures text { OnOk result (string_bytes out.new
        ≡ string_bytes out.old ++ value_text value) }
{
    match value.get() {
        Some(number) => out.push_str(Buffer::new().format(number)),
        None => out.push_str("overflow"),
    }
}

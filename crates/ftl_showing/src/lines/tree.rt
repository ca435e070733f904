//! The nodes of a page as a tree.

ghost use Rattle.std.specs.Prelude.{◌≡◌, ◌<◌, ◌++◌, IfOk, OnOk};
ghost use Rattle.std.specs.String.{string_bytes};
ghost use Rattle.ftl_model.specs.layout.Tree.{size};
ghost use Rattle.maugzeris.specs.pages.PageState.{IsLaidOut};
ghost use Rattle.ftl_showing.specs.lines.Lines.{depth_on, tree_line, tree_text};

use crate::lines::depth::{depths, push_indentation};
use crate::lines::fields::Fields;
use crate::lines::node::push_node;
use maugzeris::Page;
use std::alloc::{AllocError, Global};

/// A line for each node in preorder, with two spaces before it for each node above.
pub fn tree_text(alloc: Global, page: &Page<'_>, fields: Fields) -> Result<String, AllocError>
    requires laid_out { IsLaidOut page.now }
    ensures text { IfOk result (λ t. string_bytes t ≡ tree_text fields page.now) }
{
    let depths = depths(alloc, page)?;
    let depths = depths.as_slice();
    let mut out = String::new(alloc);
    for node in 0..page.node_count() {
        push_line(&mut out, page, node, depths[node as usize], fields)?;
    }
    Ok(out)
}

/// Appends the line of a node.
fn push_line(
    out: &mut String,
    page: &Page<'_>,
    node: u32,
    depth: u32,
    fields: Fields,
) -> Result<(), AllocError>
    requires laid_out { IsLaidOut page.now }
    requires node { node < size page.now.tree }
    requires depth { depth ≡ depth_on page.now node }
    ensures text { OnOk result (string_bytes out.new
        ≡ string_bytes out.old ++ tree_line fields page.now node) }
{
    push_indentation(out, depth)?;
    push_node(out, page, node, fields)?;
    out.push_str("\n")
}

//! How deep nodes stand.

ghost use Rattle.std.specs.Prelude.{◌≡◌, ◌<◌, ◌≤◌, ◌++◌, length, map, IfOk, OnOk};
ghost use Rattle.std.specs.String.{string_bytes};
ghost use Rattle.std.specs.List.{range_with_len};
ghost use Rattle.ftl_model.specs.layout.Tree.{size};
ghost use Rattle.ftl_showing.specs.lines.Lines.{depth_on, indentation};

use maugzeris::Page;
use std::alloc::{AllocError, Global};

/// How many nodes stand above each node.
pub fn depths(alloc: Global, page: &Page<'_>) -> Result<Vec<u32>, AllocError>
    ensures depths { IfOk result (λ v. v.items
        ≡ map (depth_on page.now) (range_with_len 0 (size page.now.tree))) }
{
    let mut depths = Vec::with_capacity(alloc, page.node_count() as usize)?;
    for node in 0..page.node_count() {
        depths.push(depth(page, depths.as_slice(), node))?;
    }
    Ok(depths)
}

/// How many nodes stand above a node, by those of the nodes before it.
fn depth(page: &Page<'_>, before: &[u32], node: u32) -> u32
    requires node { node < size page.now.tree }
    requires before { before.now ≡ map (depth_on page.now) (range_with_len 0 node) }
    ensures depth { result ≡ depth_on page.now node }
    ensures bound { result ≤ node }
{
    match page.parent(node) {
        Some(parent) => before[parent as usize] + 1,
        None => 0,
    }
}

/// Appends two spaces for each node above.
pub fn push_indentation(out: &mut String, depth: u32) -> Result<(), AllocError>
    ensures text { OnOk result (string_bytes out.new ≡ string_bytes out.old ++ indentation depth) }
{
    for _level in 0..depth {
        out.push_str("  ")?;
    }
    Ok(())
}

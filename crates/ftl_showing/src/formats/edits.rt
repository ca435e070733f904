//! Edits as a text.

ghost use Rattle.ftl_edits.specs.meaning.Editable.{AreEditsOf, IsEditOf};
ghost use Rattle.maugzeris.specs.pages.PageState.{tree_on};

use maugzeris::{Edit, Page};
use std::alloc::AllocError;
use std::fmt::Write;

/// Appends edits, a line for each.
pub fn push_edits(out: &mut String, page: &Page<'_>, edits: &[Edit]) -> Result<(), AllocError>
    requires editable { AreEditsOf (tree_on page.now) edits.now }
{
    for edit in edits {
        push_edit(out, page, *edit)?;
    }
    Ok(())
}

fn push_edit(out: &mut String, page: &Page<'_>, edit: Edit) -> Result<(), AllocError>
    requires editable { IsEditOf (tree_on page.now) edit }
{
    let Edit { node, attr, value } = edit;
    let name = page.attribute_name(node, attr);
    writeln!(out, "{node}.{name} = {value};")?;
    Ok(())
}

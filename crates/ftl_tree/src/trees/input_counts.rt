//! The inputs among all attributes.
ghost use Rattle.std.specs.Prelude.{◌≡◌, IfOk};
ghost use Rattle.std.specs.Bool.{if◌then◌else◌};
ghost use Rattle.ftl_model.specs.layout.AttributeGrammar.{is_input};
ghost use Rattle.ftl_meaning.specs.grammars.GrammarOf.{sort_of};
ghost use Rattle.ftl_deps.specs.reads.Meant.{meant};
ghost use Rattle.ftl_tree.specs.rows.ClassRows.{AreInputCounts};

use ftl_checked::Checked;
use ftl_grammar::AttrKind;
use std::alloc::{AllocError, Global};

/// How many inputs have smaller numbers than each attribute.
pub(crate) fn counts_of_inputs(alloc: Global, checked: &Checked) -> Result<Vec<u32>, AllocError>
    ensures counts { IfOk result (λ v. AreInputCounts (meant checked.now) v.items) }
{
    let mut counts = Vec::with_capacity(alloc, checked.attr_count() as usize + 1)?;
    let mut count = 0;
    for attr in 0..checked.attr_count() {
        counts.push(count)?;
        count += one_if_input(checked.attr(attr).kind);
    }
    counts.push(count)?;
    Ok(counts)
}

fn one_if_input(kind: AttrKind) -> u32
    ensures one { result ≡ (if is_input (sort_of kind) then 1 else 0) }
{
    match kind {
        AttrKind::Input => 1,
        _ => 0,
    }
}

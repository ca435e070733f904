//! The attributes that each interface shows, and each node.

ghost use Rattle.std.specs.Prelude.{◌≡◌, ◌+◌, ◌<◌, ◌≤◌, ◌++◌, [], ◌∷◌, if◌then◌else◌, length, take};
ghost use Rattle.std.specs.Prelude.{IfOk, OnOk};
ghost use Rattle.ftl_meaning.specs.faults.Checked.{all_attributes, attribute_at, is_shown};
ghost use Rattle.ftl_meaning.specs.faults.Numbering.{interface_of, shared_count};
ghost use Rattle.ftl_meaning.specs.grammars.GrammarOf.{shown_attributes};
ghost use Rattle.ftl_model.specs.layout.Tree.{size};
ghost use Rattle.ftl_tree.specs.boxes.Shows.{node_class, node_shows, shown_rows};

use crate::trees::Tree;
use ftl_checked::Checked;
use sqlite_items::Items;
use std::alloc::{AllocError, Global};

/// The numbers of the shown attributes, a row for each interface. A printer makes them once for a
/// grammar, and asks `shown_by` at each node.
#[tactic(auto, using(ftl_meaning::proofs::faults::Numbered::numbered_steps))]
pub fn shown_rows(alloc: Global, checked: &Checked) -> Result<Items<Items<u32>>, AllocError>
    ensures rows { IfOk result (λ rows. rows ≡ shown_rows checked.now.grammar) }
{
    let mut rows = Items::new(alloc);
    let mut first = 0;
    for interface in 0..checked.interface_count() {
        let end = run_end(checked, interface, first);
        rows.push(shown_row(alloc, checked, interface, first, end)?)?;
        first = end;
    }
    Ok(rows)
}

/// The numbers of the attributes that a node shows, out of `shown_rows` of the tree's grammar. They
/// are looked up in constant time.
pub fn shown_by<'r>(rows: &'r Items<Items<u32>>, tree: &Tree, node: u32) -> &'r [u32]
    requires rows { rows.now ≡ shown_rows tree.now.checked.grammar }
    requires node { node < size tree.now.tree }
    ensures shown { result.now ≡ node_shows tree.now node }
{
    rows.as_slice()[interface_at(tree, node) as usize].as_slice()
}

/// The interface of a node's class.
#[inline(always)]
pub(crate) fn interface_at(tree: &Tree, node: u32) -> u32
    requires node { node < size tree.now.tree }
    ensures interface { result
        ≡ interface_of tree.now.checked.grammar (node_class tree.now node) }
    ensures known { result < length tree.now.checked.grammar.interfaces }
{
    let checked = tree.checked();
    // The interface is there, as the grammar is lawful.
    checked.grammar();
    checked.interface_of(tree.row(node).class)
}

// The number after those of an interface's attributes, which begin at `first`.
#[tactic(auto, using(crate::proofs::boxes::ShownAmong::end_steps))]
fn run_end(checked: &Checked, interface: u32, first: u32) -> u32
    requires within { interface < length checked.now.grammar.interfaces }
    requires first { first ≡ shared_count (take interface checked.now.grammar.interfaces) }
    ensures end { result ≡ shared_count (take (interface + 1) checked.now.grammar.interfaces) }
    ensures known { result ≤ length (all_attributes checked.now.grammar) }
{
    // As no number of an attribute is greater, the sum fits.
    checked.attr_count();
    let attrs = &checked.grammar().interfaces.as_slice()[interface as usize].attrs;
    first + attrs.len() as u32
}

// The shown attributes of one interface, whose attributes have these numbers.
fn shown_row(
    alloc: Global,
    checked: &Checked,
    interface: u32,
    first: u32,
    end: u32,
) -> Result<Items<u32>, AllocError>
    requires within { interface < length checked.now.grammar.interfaces }
    requires first { first ≡ shared_count (take interface checked.now.grammar.interfaces) }
    requires end { end ≡ shared_count (take (interface + 1) checked.now.grammar.interfaces) }
    requires known { end ≤ length (all_attributes checked.now.grammar) }
    ensures row { IfOk result (λ row. row ≡ shown_attributes checked.now.grammar interface) }
{
    let mut row = Items::new(alloc);
    for attr in first..end {
        add_shown(&mut row, checked, attr)?;
    }
    Ok(row)
}

fn add_shown(row: &mut Items<u32>, checked: &Checked, attr: u32) -> Result<(), AllocError>
    requires known { attr < length (all_attributes checked.now.grammar) }
    ensures row { OnOk result (row.new ≡ row.old
        ++ (if is_shown checked.now.grammar (attribute_at checked.now.grammar attr)
        then attr ∷ [] else [])) }
{
    if checked.attr(attr).shown {
        row.push(attr)?;
    }
    Ok(())
}

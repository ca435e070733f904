//! The printer.

ghost use Rattle.std.specs.Prelude.{◌≡◌, ◌++◌, length, IfOk, OnOk};
ghost use Rattle.std.specs.Fmt.{decimal, signed_decimal};
ghost use Rattle.ftl_model.specs.layout.Table.{instance_count};
ghost use Rattle.ftl_deps.specs.reads.Meant.{meant};
ghost use Rattle.ftl_meaning.specs.grammars.GrammarOf.{names_of};
ghost use Rattle.ftl_tree.specs.boxes.WordValues.{table_of_words};
ghost use Rattle.ftl_answer.specs.answers.Summary.{field, summary};
ghost use Rattle.ftl_answer.specs.summary.Summed.{counts_text, summary_line, sums_text};

use crate::summary::adding::sums_of;
use crate::summary::sums::Sums;
use ftl_tree::Tree;
use itoa::Buffer;
use std::alloc::{AllocError, Global};

/// About how many bytes a summary takes.
const LINE_BYTES: usize = 160;

/// The summary of a tree with these words, of the grammar of this name.
pub fn print_summary(
    alloc: Global,
    name: &[u8],
    tree: &Tree,
    words: &[u64],
) -> Result<Vec<u8>, AllocError>
    requires words { length words.now ≡ instance_count (meant tree.now.checked) tree.now.tree }
    ensures text { IfOk result (λ v. v.items ≡ summary name.now (meant tree.now.checked)
        (names_of tree.now.checked.grammar) tree.now.tree
        (table_of_words tree.now words.now)) }
{
    let sums = sums_of(alloc, tree, words)?;
    print_line(alloc, name, tree.node_count(), tree.instance_count(), sums)
}

fn print_line(
    alloc: Global,
    name: &[u8],
    nodes: u32,
    instances: u32,
    sums: Sums,
) -> Result<Vec<u8>, AllocError>
    ensures line { IfOk result (λ v. v.items ≡ summary_line name.now nodes instances sums) }
{
    let mut out = Vec::with_capacity(alloc, LINE_BYTES)?;
    out.extend_from_slice(b"grammar=")?;
    out.extend_from_slice(name)?;
    print_counts(&mut out, nodes, instances, sums)?;
    print_sums(&mut out, sums)?;
    Ok(out)
}

fn print_counts(out: &mut Vec<u8>, nodes: u32, instances: u32, sums: Sums) -> Result<(), AllocError>
    ensures counts { OnOk result (out.new.items
        ≡ out.old.items ++ counts_text nodes instances sums) }
{
    print_count(out, b"nodes", nodes as u64)?;
    print_count(out, b"instances", instances as u64)?;
    print_count(out, b"shown", sums.shown)?;
    print_count(out, b"overflow", sums.overflows)
}

fn print_sums(out: &mut Vec<u8>, sums: Sums) -> Result<(), AllocError>
    ensures sums { OnOk result (out.new.items ≡ out.old.items ++ sums_text sums) }
{
    print_sum(out, b"sum", sums.sum)?;
    print_sum(out, b"mix", sums.mix)?;
    out.extend_from_slice(b"\n")
}

fn print_count(out: &mut Vec<u8>, word: &[u8], count: u64) -> Result<(), AllocError>
    ensures field { OnOk result (out.new.items ≡ out.old.items ++ field word.now (decimal count)) }
{
    print_field(out, word, Buffer::new().format(count).as_bytes())
}

fn print_sum(out: &mut Vec<u8>, word: &[u8], sum: i128) -> Result<(), AllocError>
    ensures field { OnOk result (out.new.items
        ≡ out.old.items ++ field word.now (signed_decimal sum)) }
{
    print_field(out, word, Buffer::new().format(sum).as_bytes())
}

fn print_field(out: &mut Vec<u8>, word: &[u8], text: &[u8]) -> Result<(), AllocError>
    ensures field { OnOk result (out.new.items ≡ out.old.items ++ field word.now text.now) }
{
    out.extend_from_slice(b" ")?;
    out.extend_from_slice(word)?;
    out.extend_from_slice(b"=")?;
    out.extend_from_slice(text)
}

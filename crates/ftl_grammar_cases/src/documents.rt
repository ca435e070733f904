//! What the text of a document means by a grammar: its refusal line, or where it has none, a line
//! for each node of the tree, one with the inputs of all nodes, and the tree's canonical text. A
//! case may ask for another way: `wide` for numbers of the wide width, `cut` for each front of the
//! document, `built` for a document whose lines say how often a piece of it comes, of which only
//! the counts are printed, `set` for inputs that are set to other numbers, which lines behind `==`
//! name by node, field and number; of their tree only the text is printed; `bare` for the tree with
//! the same rows and every input 0; `instances` for a line for each node with its first instance,
//! and each child's kids with theirs; `changed` for whether trees are read alike from bytes and
//! from tokens where characters are changed, and `sample` for whether one pass takes the document
//! of a sample (`src/documents/changed.rt`); and `relaid` for which instances edits touch, and how
//! often code is run for them (`src/documents/relaid.rt`).

ghost use Rattle.std.specs.Prelude.{◌≡◌};
ghost use Rattle.ftl_base.specs.Widths.{greatest_of_width};
ghost use Rattle.ftl_tokens.specs.scanner.Tokenized.{IsGreatestNumber};

mod changed;
mod edits;
mod instances;
mod nodes;
mod relaid;
mod values;
pub(crate) mod way;

use changed::{write_changed, write_sample};
use edits::set_inputs;
use ftl_answer::{write_document_fault, write_token_fault};
use ftl_base::Width;
use ftl_checked::Checked;
use ftl_document::{DocFault, read_document};
use ftl_page::Section;
use ftl_tokens::{TokenFault, WideScanned, document_tokens};
use ftl_tree::Tree;
use instances::write_instances;
use nodes::{write_bare, write_counts, write_nodes, write_text};
use relaid::write_relaid;
use std::alloc::{AllocError, Global};
use std::fmt::Write;
use way::{Way, built};

/// The refusal line of a document, or its nodes, in the way that is asked for.
pub(crate) fn write_document(
    alloc: Global,
    out: &mut String,
    way: Way,
    checked: &Checked,
    document: &str,
) -> Result<(), AllocError> {
    match way {
        Way::Plain | Way::Wide | Way::Bare | Way::Instances => {
            write_one(alloc, out, way, checked, document, "")
        }
        Way::Set | Way::Relaid => {
            let (document, edits) = document.split_once("==").unwrap_or((document, ""));
            write_one(alloc, out, way, checked, document, edits)
        }
        Way::Cut => write_fronts(alloc, out, checked, document.trim()),
        Way::Changed => write_changed(alloc, out, checked, document.trim()),
        Way::Sample => write_sample(alloc, out, checked, document.trim()),
        Way::Built => {
            let document = built(alloc, document)?;
            write_one(alloc, out, way, checked, document.as_str(), "")
        }
    }
}

/// A line for each front of a document of ASCII, with its length before it, and what the whole
/// gives.
fn write_fronts(
    alloc: Global,
    out: &mut String,
    checked: &Checked,
    document: &str,
) -> Result<(), AllocError> {
    for len in 0..document.len() {
        write!(out, "{len} ")?;
        let front = document.get(..len).unwrap_or("");
        write_one(alloc, out, Way::Cut, checked, front, "")?;
    }
    write_one(alloc, out, Way::Cut, checked, document, "")
}

fn write_one(
    alloc: Global,
    out: &mut String,
    way: Way,
    checked: &Checked,
    document: &str,
    edits: &str,
) -> Result<(), AllocError> {
    if document.len() > 67108864 {
        return out.push_str("too long\n");
    }
    let text = String::from_str(alloc, document)?;
    match document_tokens(alloc, text, greatest_number(checked.width())) {
        Ok(scanned) => write_of_tokens(alloc, out, way, checked, &scanned, edits),
        Err(TokenFault::OutOfMemory) => Err(AllocError),
        Err(fault) => write_token_line(alloc, out, fault),
    }
}

fn write_of_tokens(
    alloc: Global,
    out: &mut String,
    way: Way,
    checked: &Checked,
    scanned: &WideScanned,
    edits: &str,
) -> Result<(), AllocError>
    requires width { scanned.now.greatest ≡ greatest_of_width checked.now.width }
{
    match read_document(alloc, checked, scanned) {
        Ok(mut tree) => write_tree(alloc, out, way, checked, &mut tree, scanned, edits),
        Err(DocFault::OutOfMemory) => Err(AllocError),
        Err(fault) => write_fault_line(alloc, out, checked, &fault),
    }
}

fn write_tree(
    alloc: Global,
    out: &mut String,
    way: Way,
    checked: &Checked,
    tree: &mut Tree,
    scanned: &WideScanned,
    edits: &str,
) -> Result<(), AllocError>
    requires grammar { tree.old.checked ≡ checked.now }
{
    match way {
        Way::Plain | Way::Wide | Way::Cut | Way::Changed | Way::Sample => {
            write_nodes(alloc, out, tree, scanned)
        }
        Way::Built => write_counts(out, tree),
        Way::Bare => write_bare(alloc, out, tree),
        Way::Instances => write_instances(out, tree),
        Way::Relaid => write_relaid(alloc, out, checked, tree, edits),
        Way::Set => {
            if !set_inputs(tree, edits) {
                out.push_str("no input\n")?;
            }
            write_text(alloc, out, tree)
        }
    }
}

fn write_token_line(alloc: Global, out: &mut String, fault: TokenFault) -> Result<(), AllocError> {
    let mut line = Vec::new(alloc);
    write_token_fault(&mut line, Section::Document, fault)?;
    write_line(out, line.as_slice())
}

fn write_fault_line(
    alloc: Global,
    out: &mut String,
    checked: &Checked,
    fault: &DocFault,
) -> Result<(), AllocError> {
    let mut line = Vec::new(alloc);
    write_document_fault(&mut line, checked, fault)?;
    write_line(out, line.as_slice())
}

/// Adds a line that refuses something.
pub(crate) fn write_line(out: &mut String, line: &[u8]) -> Result<(), AllocError> {
    out.push_str(str::from_utf8(line).unwrap_or("no text"))?;
    out.push('\n')
}

/// The greatest number of a width.
pub(crate) fn greatest_number(width: Width) -> u64
    ensures greatest { result ≡ greatest_of_width width }
    ensures known { IsGreatestNumber result }
{
    match width {
        Width::Narrow => 2147483647,
        Width::Wide => 140737488355327,
    }
}

//! Documents, from the bytes of plain texts.

ghost use Rattle.std.specs.Prelude.{◌≡◌, ◌≤◌, ◌+◌, length, count_by, IfOk, IfSome};
ghost use Rattle.ftl_model.specs.layout.Limits.{most_nodes, most_page_bytes};
ghost use Rattle.ftl_tokens.specs.scanner.Tokenized.{IsGreatestNumber};
ghost use Rattle.ftl_document.specs.plain.Read.{IsReadFrom, is_node};

use crate::plain::text_input::TextInput;
use crate::syntax::{DocumentInput, MOST_NODES, WrittenDocument, WrittenRow, document};
use ftl_tokens::ReadFault;
use std::alloc::{AllocError, Global};

/// The document of a text, whose numbers are at most `greatest`. None where something in the text
/// is not plain or its syntax is wrong.
pub fn rows_of_text<'a>(
    alloc: Global,
    text: &'a str,
    greatest: u64,
) -> Result<Option<WrittenDocument<'a>>, AllocError>
    requires short { length text.now ≤ most_page_bytes }
    requires limit { IsGreatestNumber greatest }
    ensures read { IfOk result (λ found. IfSome found (IsReadFrom greatest text.now)) }
{
    let mut input = DocumentInput::text(TextInput::new(text, greatest));
    match document(alloc, &mut input, text.len() / 8) {
        Ok(document) => Ok(if_few(document)),
        Err(ReadFault::Refused) => Ok(None),
        Err(ReadFault::OutOfMemory) => Err(AllocError),
    }
}

/// The document, where it has so few nodes as a document may have.
fn if_few<'a>(document: WrittenDocument<'a>) -> Option<WrittenDocument<'a>>
    ensures few { IfSome result (λ d. (d ≡ document.entry) × (count_by is_node d.rows + 1 ≤ most_nodes)) }
{
    if node_rows(document.rows()) < MOST_NODES as usize {
        Some(document)
    } else {
        None
    }
}

/// How many rows are nodes.
fn node_rows(rows: &[WrittenRow<'_>]) -> usize
    ensures count { result ≡ count_by is_node rows.now }
{
    rows.iter().filter(|row| is_node(row)).count()
}

fn is_node(row: &WrittenRow<'_>) -> bool
    ensures node { result ≡ is_node row.now }
{
    match row {
        WrittenRow::Single { .. } | WrittenRow::Kid { .. } => true,
        WrittenRow::Number { .. } | WrittenRow::List { .. } => false,
    }
}

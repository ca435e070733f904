//! Documents, as they are written.

use ftl_document::{WrittenDocument, WrittenRow, read_written_document};
use ftl_tokens::WideScanned;
use std::alloc::{AllocError, Global};
use std::fmt::Write;

/// Writes the class and the rows of the document that the tokens spell.
pub(crate) fn write_document(
    alloc: Global,
    out: &mut String,
    scanned: &WideScanned,
) -> Result<(), AllocError> {
    match read_written_document(alloc, scanned) {
        Ok(document) => write_rows(out, &document),
        Err(fault) => write!(out, " {fault:?}"),
    }
}

/// Writes the class and the rows of a document.
pub(crate) fn write_rows(
    out: &mut String,
    document: &WrittenDocument<'_>,
) -> Result<(), AllocError> {
    write!(out, " {}", document.class().text())?;
    for row in document.rows() {
        write_row(out, row)?;
    }
    Ok(())
}

/// Writes a number as `name=value`, a field that is a node as `name=Class+below`, a list as
/// `name[+below` and a node in one as `Class+below`.
fn write_row(out: &mut String, row: &WrittenRow<'_>) -> Result<(), AllocError> {
    match row {
        WrittenRow::Number { name, value } => write!(out, " {}={value}", name.text()),
        WrittenRow::Single { name, class, below } => {
            write!(out, " {}={}+{below}", name.text(), class.text())
        }
        WrittenRow::List { name, below } => write!(out, " {}[+{below}", name.text()),
        WrittenRow::Kid { class, below } => write!(out, " {}+{below}", class.text()),
    }
}

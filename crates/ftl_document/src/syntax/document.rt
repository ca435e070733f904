//! Documents that were read.

ghost use Rattle.std.specs.Prelude.{◌≡◌};

use crate::syntax::name_ref::NameRef;
use crate::syntax::row::WrittenRow;
use std::marker::Model;

/// A document as it is written. Contracts see its class and its rows.
#[derive(Drop)]
pub struct WrittenDocument<'a> {
    class: NameRef<'a>,
    rows: Vec<WrittenRow<'a>>,
}

impl<'a> Model for WrittenDocument<'a> {
    ghost use Rattle.ftl_document.specs.syntax.Rows.{DocumentRows, document_rows};

    ghost Value = { DocumentRows };

    ghost view = { λ d. document_rows d.class d.rows.items };
}

impl<'a> WrittenDocument<'a> {
    /// The document of a node of this class, whose fields have these rows.
    pub fn new(class: NameRef<'a>, rows: Vec<WrittenRow<'a>>) -> WrittenDocument<'a>
        ensures class { result.class ≡ class.entry }
        ensures rows { result.rows ≡ rows.entry.items }
    {
        WrittenDocument { class, rows }
    }

    /// The class of the document's node.
    pub fn class(&self) -> &NameRef<'a>
        ensures class { result.now ≡ self.now.class }
    {
        &self.class
    }

    /// The rows of the fields of that node.
    pub fn rows(&self) -> &[WrittenRow<'a>]
        ensures rows { result.now ≡ self.now.rows }
    {
        self.rows.as_slice()
    }
}

//! The rows that are open, in one another.

ghost use Rattle.std.specs.Prelude.{◌≡◌, ◌++◌, ◌∷◌, [], set, IsNone, OnOk};
ghost use Rattle.std.specs.Option.{option_to_list};
ghost use Rattle.ftl_document.specs.syntax.RowReading.{below};
ghost use Rattle.ftl_document.specs.syntax.RowsLeft.{closed, innermost, mark_of};

use crate::syntax::name_ref::NameRef;
use crate::syntax::row::WrittenRow;
use ftl_tokens::Kind;
use std::alloc::{AllocError, Global};
use std::marker::Model;

/// A row whose inside is read: what it says, its place, and how many more braces may stand in one
/// another in it.
#[derive(Drop)]
pub(crate) enum OpenRow<'a> {
    /// The braces of the document's node, which has no row.
    Root {
        depth: usize,
    },
    Single {
        name: NameRef<'a>,
        class: NameRef<'a>,
        at: usize,
        depth: usize,
    },
    List {
        name: NameRef<'a>,
        at: usize,
        depth: usize,
    },
    Kid {
        class: NameRef<'a>,
        at: usize,
        depth: usize,
    },
}

/// What stands inside a row, and how many more braces may stand in one another there.
#[derive(Clone, Copy)]
pub(crate) enum Inside {
    Fields { depth: usize },
    Kids { depth: usize },
}

impl Inside {
    /// What ends it.
    #[inline(always)]
    pub(crate) fn mark(self) -> Kind
        ensures mark { result ≡ mark_of self }
    {
        match self {
            Inside::Fields { .. } => Kind::RightBrace,
            Inside::Kids { .. } => Kind::RightBracket,
        }
    }
}

impl<'a> OpenRow<'a> {
    /// Sets the row, behind which stands what was read inside it.
    pub(crate) fn close(self, rows: &mut Vec<WrittenRow<'a>>)
        ensures closed { rows.new.items ≡ closed self.entry rows.old.items }
    {
        match self {
            OpenRow::Root { .. } => {}
            OpenRow::Single {
                name,
                class,
                at,
                ..
            } => {
                let below = below(rows, at);
                put(rows, at, WrittenRow::Single { name, class, below });
            }
            OpenRow::List { name, at, .. } => {
                let below = below(rows, at);
                put(rows, at, WrittenRow::List { name, below });
            }
            OpenRow::Kid { class, at, .. } => {
                let below = below(rows, at);
                put(rows, at, WrittenRow::Kid { class, below });
            }
        }
    }
}

// How many rows there are behind this one. They are no more than tokens, whose count 32 bits hold.
fn below(rows: &[WrittenRow<'_>], at: usize) -> u32
    ensures count { result ≡ below rows.now at }
{
    let behind = rows.len().saturating_sub(at).saturating_sub(1);
    behind.min(u32::MAX as usize) as u32
}

// Sets the row at this place.
fn put<'a>(rows: &mut Vec<WrittenRow<'a>>, at: usize, row: WrittenRow<'a>)
    ensures set { rows.new.items ≡ set rows.old.items at row.entry }
{
    if at < rows.len() {
        rows[at] = row;
    }
}

/// Open rows in one another. Contracts see them from the innermost one on.
#[derive(Drop)]
pub(crate) struct OpenRows<'a> {
    open: Vec<OpenRow<'a>>,
}

impl<'a> Model for OpenRows<'a> {
    ghost use Rattle.std.specs.Prelude.{List, reverse};
    ghost use Rattle.ftl_document.specs.declared.syntax.open_rows.OpenRow.{OpenRow};

    ghost Value = { List OpenRow };

    ghost view = { λ s. reverse s.open.items };
}

impl<'a> OpenRows<'a> {
    pub(crate) fn new(alloc: Global) -> OpenRows<'a>
        ensures empty { result ≡ [] }
    {
        OpenRows {
            open: Vec::new(alloc),
        }
    }

    #[inline(always)]
    pub(crate) fn push(&mut self, row: OpenRow<'a>) -> Result<(), AllocError>
        ensures pushed { OnOk result (self.new ≡ row.entry ∷ self.old) }
    {
        self.open.push(row)?;
        Ok(())
    }

    /// What stands inside the innermost one.
    #[inline(always)]
    pub(crate) fn innermost(&self) -> Option<Inside>
        ensures innermost { result ≡ innermost self.now }
    {
        match self.open.last() {
            Some(OpenRow::Root { depth }) => Some(Inside::Fields { depth: *depth }),
            Some(OpenRow::Single { depth, .. }) => Some(Inside::Fields { depth: *depth }),
            Some(OpenRow::List { depth, .. }) => Some(Inside::Kids { depth: *depth }),
            Some(OpenRow::Kid { depth, .. }) => Some(Inside::Fields { depth: *depth }),
            None => None,
        }
    }

    /// Takes the innermost one away.
    #[inline(always)]
    pub(crate) fn pop(&mut self) -> Option<OpenRow<'a>>
        ensures popped { self.old ≡ option_to_list result ++ self.new }
        ensures none { IsNone result → self.old ≡ [] }
    {
        self.open.pop()
    }
}

//! What an expression reads, with the names where they stand.
ghost use Rattle.std.specs.Prelude.{◌≡◌, IfOk};
ghost use Rattle.ftl_meaning.specs.expression_reads.ReadNames.{name_of};

use crate::formulas::ReadName;
use ftl_grammar::Read;
use ftl_tokens::Name;
use std::alloc::{AllocError, Global};
use std::marker::Model;

/// What an expression reads, with borrowed names.
#[derive(Drop)]
pub enum ReadKind<'a> {
    Own(&'a Name),
    This(&'a Name),
    Prev(&'a Name),
    Of(&'a Name, &'a Name),
    Last(&'a Name, &'a Name),
    Acc,
}

/// What an expression reads. Contracts see it as a `ReadName`.
#[derive(Drop)]
pub struct ReadRef<'a> {
    kind: ReadKind<'a>,
}

impl<'a> Model for ReadRef<'a> {
    ghost use Rattle.ftl_meaning.specs.declared.formulas.read_name.ReadName.{ReadName};
    ghost use Rattle.ftl_meaning.specs.expression_reads.ReadNames.{name_of};

    ghost Value = { ReadName };

    ghost view = { λ r. name_of r.kind };
}

impl<'a> ReadRef<'a> {
    pub(crate) fn new(kind: ReadKind<'a>) -> ReadRef<'a>
        ensures name { result ≡ name_of kind.entry }
    {
        ReadRef { kind }
    }

    pub fn kind(&self) -> &ReadKind<'a>
        ensures name { name_of result.now ≡ self.now }
    {
        &self.kind
    }

    /// The same with copies of the names.
    pub fn to_name(&self) -> Result<ReadName, AllocError>
        ensures name { IfOk result (λ r. r ≡ self.now) }
    {
        match &self.kind {
            ReadKind::Own(a) => Ok(ReadName::Own(a.copy()?)),
            ReadKind::This(a) => Ok(ReadName::This(a.copy()?)),
            ReadKind::Prev(a) => Ok(ReadName::Prev(a.copy()?)),
            ReadKind::Of(c, a) => Ok(ReadName::Of(c.copy()?, a.copy()?)),
            ReadKind::Last(c, a) => Ok(ReadName::Last(c.copy()?, a.copy()?)),
            ReadKind::Acc => Ok(ReadName::Acc),
        }
    }
}

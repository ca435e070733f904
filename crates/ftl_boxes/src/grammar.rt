//! The names of the grammars that come with the program.

ghost use Rattle.std.specs.Prelude.{◌≡◌};
ghost use Rattle.ftl_boxes.specs.Shipped.{shipped_grammar, name_of, text_of};

use crate::{block, float, flow, inline, stack, table};

/// A grammar that comes with the program.
#[derive(Clone, Copy, Debug, PartialEq, Eq)]
pub(crate) enum Grammar {
    Stack,
    Block,
    Inline,
    Float,
    Table,
    Flow,
}

impl Grammar {
    pub(crate) fn named(name: &[u8]) -> Option<Grammar>
        ensures grammar { result ≡ shipped_grammar name.now }
    {
        if name == b"stack".as_slice() {
            Some(Grammar::Stack)
        } else if name == b"block".as_slice() {
            Some(Grammar::Block)
        } else if name == b"inline".as_slice() {
            Some(Grammar::Inline)
        } else if name == b"float".as_slice() {
            Some(Grammar::Float)
        } else if name == b"table".as_slice() {
            Some(Grammar::Table)
        } else if name == b"flow".as_slice() {
            Some(Grammar::Flow)
        } else {
            None
        }
    }

    pub(crate) fn name(self) -> &'static str
        ensures name { result.now ≡ name_of self }
    {
        match self {
            Grammar::Stack => "stack",
            Grammar::Block => "block",
            Grammar::Inline => "inline",
            Grammar::Float => "float",
            Grammar::Table => "table",
            Grammar::Flow => "flow",
        }
    }

    pub(crate) fn text(self) -> &'static str
        ensures text { result.now ≡ text_of self }
    {
        match self {
            Grammar::Stack => stack::text(),
            Grammar::Block => block::text(),
            Grammar::Inline => inline::text(),
            Grammar::Float => float::text(),
            Grammar::Table => table::text(),
            Grammar::Flow => flow::text(),
        }
    }
}

//! Documents, from their tokens.

ghost use Rattle.ftl_tokens.specs.reading.Reader.{Reads};
ghost use Rattle.ftl_document.specs.syntax.Read.{ReadsDocument};
ghost use Rattle.ftl_document.specs.syntax.RowReading as spec;

use crate::syntax::counts::{node_count, token_count};
use crate::syntax::document::WrittenDocument;
use crate::syntax::fault::WrittenDocumentFault;
use crate::syntax::input::DocumentInput;
use crate::syntax::name_ref::NameRef;
use crate::syntax::open::{DEEPEST, root};
use ftl_tokens::{Kind, ReadFault, WideInput, WideScanned, first_too_deep_in, place_in};
use std::alloc::Global;

const OPENING: [Kind; 1] = [Kind::LeftBrace];

const CLOSING: [Kind; 1] = [Kind::RightBrace];

/// How many nodes a document may have.
pub(crate) const MOST_NODES: u32 = 1_048_576;

/// The document that the tokens spell, or the first fault. Whether the braces are too deep is
/// looked at first, then how many nodes there are, and then the syntax.
pub fn read_written_document<'a>(
    alloc: Global,
    scanned: &'a WideScanned,
) -> Result<WrittenDocument<'a>, WrittenDocumentFault>
    ensures answer { ReadsDocument scanned.now result }
{
    if let Some(at) = first_too_deep_in(scanned.tokenized(), &OPENING, &CLOSING, DEEPEST) {
        return Err(WrittenDocumentFault::TooDeep { at });
    }
    let tokens = token_count(scanned);
    let count = node_count(scanned);
    if count > MOST_NODES {
        return Err(WrittenDocumentFault::TooManyNodes { count });
    }
    let mut input = DocumentInput::scanned(WideInput::new(scanned));
    match document(alloc, &mut input, tokens as usize / 3) {
        Ok(document) => Ok(document),
        Err(ReadFault::Refused) => Err(WrittenDocumentFault::Syntax {
            at: place_in(scanned.tokenized(), input.left()),
        }),
        Err(ReadFault::OutOfMemory) => Err(WrittenDocumentFault::OutOfMemory),
    }
}

/// A document. A row stands for three tokens at least, so `room` is a third of the tokens.
#[tactic(auto, unfolding(crate::specs::syntax::RowReading::document))]
pub(crate) fn document<'a>(
    alloc: Global,
    input: &mut DocumentInput<'a>,
    room: usize,
) -> Result<WrittenDocument<'a>, ReadFault>
    ensures reads { Reads (spec.document input.old) result input.new }
{
    let class = input.name_text()?;
    let mut rows = Vec::with_capacity(alloc, room)?;
    root(alloc, &mut rows, input)?;
    input.end()?;
    Ok(WrittenDocument::new(NameRef::new(class), rows))
}

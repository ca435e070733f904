//! The readers of edits, one token ahead.

ghost use Rattle.std.specs.Prelude.{[], ◌≤◌, length, IfOk};
ghost use Rattle.ftl_tokens.specs.reading.Reader.{Reads, push, chain_of};
ghost use Rattle.ftl_edits.specs.syntax.Reading as spec;
ghost use Rattle.ftl_edits.specs.syntax.Read.{AreWithin, ReadsWritten};

use crate::syntax::fault::WrittenEditsFault;
use crate::syntax::written::{WrittenEdit, WrittenEditList};
use ftl_document::syntax::NameRef;
use ftl_tokens::{Kind, ReadFault, WideInput, WideScanned, place_in};
use sqlite_items::Items;
use std::alloc::Global;

#[tactic(auto, unfolding(crate::specs::syntax::Reading::value))]
fn value(input: &mut WideInput<'_>) -> Result<i64, ReadFault>
    ensures reads { Reads (spec.value input.old) result input.new }
{
    match input.peek() {
        Some(Kind::Minus) => {
            input.skip();
            let value = -(input.number()? as i64);
            Ok(value)
        }
        _ => {
            let value = input.number()? as i64;
            Ok(value)
        }
    }
}

#[tactic(auto, unfolding(crate::specs::syntax::Reading::edit))]
fn edit<'a>(input: &mut WideInput<'a>) -> Result<WrittenEdit<'a>, ReadFault>
    ensures reads { Reads (spec.edit input.old) result input.new }
{
    let node = input.number()?;
    input.expect(Kind::Dot)?;
    let name = input.name_text()?;
    input.expect(Kind::Equals)?;
    let value = value(input)?;
    input.expect(Kind::Semicolon)?;
    Ok(WrittenEdit {
        node,
        name: NameRef::new(name),
        value,
    })
}

// One more edit, if there is one.
#[tactic(auto, unfolding(crate::specs::syntax::Reading::more_edit))]
fn more_edit<'a>(input: &mut WideInput<'a>) -> Result<Option<WrittenEdit<'a>>, ReadFault>
    ensures reads { Reads (spec.more_edit input.old) result input.new }
{
    match input.peek() {
        Some(Kind::Number) => match edit(input) {
            Ok(edit) => Ok(Some(edit)),
            Err(fault) => Err(fault),
        },
        _ => Ok(None),
    }
}

fn edit_list<'a>(alloc: Global, input: &mut WideInput<'a>) -> Result<WrittenEditList<'a>, ReadFault>
    ensures reads { Reads (chain_of push spec.more_edit [] input.old) result input.new }
{
    let mut found = Items::new(alloc);
    for _turn in 0..input.left() {
        match more_edit(input) {
            Ok(Some(edit)) => found.push(edit)?,
            Ok(None) => return Ok(found),
            Err(fault) => return Err(fault),
        }
    }
    Ok(found)
}

#[tactic(auto, unfolding(crate::specs::syntax::Reading::edits))]
fn edits<'a>(alloc: Global, input: &mut WideInput<'a>) -> Result<WrittenEditList<'a>, ReadFault>
    ensures reads { Reads (spec.edits input.old) result input.new }
{
    let found = edit_list(alloc, input)?;
    input.end()?;
    Ok(found)
}

/// The edits that the tokens of a text spell, their inputs by name, or the place at which the
/// tokens go wrong.
pub fn read_written_edits<'a>(
    alloc: Global,
    scanned: &'a WideScanned,
) -> Result<WrittenEditList<'a>, WrittenEditsFault>
    ensures answer { ReadsWritten scanned.now result }
    ensures values { IfOk result (AreWithin scanned.now.greatest) }
    ensures count { IfOk result (λ edits. length edits ≤ 4294967295) }
{
    // Each edit has a byte up to the end of the last token, a place that 32 bits hold.
    let _end = place_in(scanned.tokenized(), 0);
    let _tokens = scanned.list();
    let mut input = WideInput::new(scanned);
    match edits(alloc, &mut input) {
        Ok(edits) => Ok(edits),
        Err(ReadFault::Refused) => Err(WrittenEditsFault::Syntax {
            at: place_in(scanned.tokenized(), input.left()),
        }),
        Err(ReadFault::OutOfMemory) => Err(WrittenEditsFault::OutOfMemory),
    }
}

//! The readers of schedules, one token ahead.

ghost use Rattle.std.specs.Prelude.{[], ◌∷◌};
ghost use Rattle.ftl_tokens.specs.reading.Reader.{Reads, push, chain_of};
ghost use Rattle.ftl_schedule.specs.syntax.Reading as spec;
ghost use Rattle.ftl_schedule.specs.syntax.Read.{ReadsSchedule};

use crate::syntax::fault::WrittenFault;
use crate::syntax::kind::PassKind;
use crate::syntax::types::{
    AttributeName, AttributeNames, WrittenPass, WrittenPassList, WrittenSchedule, WrittenStage,
    WrittenStageList,
};
use ftl_tokens::{Input, Kind, ReadFault, Scanned, place};
use sqlite_items::Items;
use std::alloc::Global;

#[tactic(auto, unfolding(crate::specs::syntax::Reading::take_kind))]
fn kind(input: &mut Input<'_>) -> Result<PassKind, ReadFault>
    ensures reads { Reads (spec.take_kind input.old) result input.new }
{
    if input.take_name_of("topdown") {
        Ok(PassKind::TopDown)
    } else if input.take_name_of("bottomup") {
        Ok(PassKind::BottomUp)
    } else if input.take_name_of("inorder") {
        Ok(PassKind::InOrder)
    } else {
        Err(ReadFault::Refused)
    }
}

#[tactic(auto, unfolding(crate::specs::syntax::Reading::attribute))]
fn attribute(alloc: Global, input: &mut Input<'_>) -> Result<AttributeName, ReadFault>
    ensures reads { Reads (spec.attribute input.old) result input.new }
{
    let owner = input.name(alloc)?;
    input.expect(Kind::Dot)?;
    let attr = input.name(alloc)?;
    Ok(AttributeName { owner, attr })
}

#[tactic(auto, unfolding(crate::specs::syntax::Reading::more_attribute))]
fn more_attribute(alloc: Global, input: &mut Input<'_>) -> Result<Option<AttributeName>, ReadFault>
    ensures reads { Reads (spec.more_attribute input.old) result input.new }
{
    match input.peek() {
        Some(Kind::Name) => Ok(Some(attribute(alloc, input)?)),
        _ => Ok(None),
    }
}

fn attributes(alloc: Global, input: &mut Input<'_>) -> Result<AttributeNames, ReadFault>
    ensures reads { Reads (chain_of push spec.more_attribute [] input.old) result input.new }
{
    let mut found = Items::new(alloc);
    for _turn in 0..input.left() {
        let Some(item) = more_attribute(alloc, input)? else {
            return Ok(found);
        };
        found.push(item)?;
    }
    Ok(found)
}

/// A pass.
#[tactic(auto, unfolding(crate::specs::syntax::Reading::pass))]
pub fn pass(alloc: Global, input: &mut Input<'_>) -> Result<WrittenPass, ReadFault>
    ensures reads { Reads (spec.pass input.old) result input.new }
{
    let kind = kind(input)?;
    input.expect(Kind::LeftBrace)?;
    let attrs = attributes(alloc, input)?;
    input.expect(Kind::RightBrace)?;
    Ok(WrittenPass { kind, attrs })
}

// `||` and one more pass, if they are there.
#[tactic(auto, unfolding(crate::specs::syntax::Reading::more_pass))]
fn more_pass(alloc: Global, input: &mut Input<'_>) -> Result<Option<WrittenPass>, ReadFault>
    ensures reads { Reads (spec.more_pass input.old) result input.new }
{
    match input.peek() {
        Some(Kind::OrOr) => {
            input.skip();
            Ok(Some(pass(alloc, input)?))
        }
        _ => Ok(None),
    }
}

// The passes of a stage, of which the first was read.
fn passes(
    alloc: Global,
    input: &mut Input<'_>,
    first: WrittenPass,
) -> Result<WrittenPassList, ReadFault>
    ensures reads { Reads (chain_of push spec.more_pass (first ∷ []) input.old) result input.new }
{
    let mut found = Items::new(alloc);
    found.push(first)?;
    for _turn in 0..input.left() {
        let Some(item) = more_pass(alloc, input)? else {
            return Ok(found);
        };
        found.push(item)?;
    }
    Ok(found)
}

/// A stage: a pass, and all that follow it behind `||`.
#[tactic(auto, unfolding(crate::specs::syntax::Reading::stage))]
pub fn stage(alloc: Global, input: &mut Input<'_>) -> Result<WrittenStage, ReadFault>
    ensures reads { Reads (spec.stage input.old) result input.new }
{
    let first = pass(alloc, input)?;
    let passes = passes(alloc, input, first)?;
    Ok(WrittenStage { passes })
}

// `;` and one more stage, if they are there.
#[tactic(auto, unfolding(crate::specs::syntax::Reading::more_stage))]
fn more_stage(alloc: Global, input: &mut Input<'_>) -> Result<Option<WrittenStage>, ReadFault>
    ensures reads { Reads (spec.more_stage input.old) result input.new }
{
    match input.peek() {
        Some(Kind::Semicolon) => {
            input.skip();
            Ok(Some(stage(alloc, input)?))
        }
        _ => Ok(None),
    }
}

/// The stages of a schedule, of which the first was read.
pub fn stage_list(
    alloc: Global,
    input: &mut Input<'_>,
    first: WrittenStage,
) -> Result<WrittenStageList, ReadFault>
    ensures reads { Reads (chain_of push spec.more_stage (first ∷ []) input.old) result input.new }
{
    let mut found = Items::new(alloc);
    found.push(first)?;
    for _turn in 0..input.left() {
        let Some(item) = more_stage(alloc, input)? else {
            return Ok(found);
        };
        found.push(item)?;
    }
    Ok(found)
}

#[tactic(auto, unfolding(crate::specs::syntax::Reading::stages))]
fn stages(alloc: Global, input: &mut Input<'_>) -> Result<WrittenSchedule, ReadFault>
    ensures reads { Reads (spec.stages input.old) result input.new }
{
    let first = stage(alloc, input)?;
    let stages = stage_list(alloc, input, first)?;
    input.end()?;
    Ok(WrittenSchedule { stages })
}

#[tactic(auto, unfolding(crate::specs::syntax::Reading::schedule))]
fn schedule(alloc: Global, input: &mut Input<'_>) -> Result<WrittenSchedule, ReadFault>
    ensures reads { Reads (spec.schedule input.old) result input.new }
{
    match input.peek() {
        None => Ok(WrittenSchedule {
            stages: Items::new(alloc),
        }),
        Some(_) => stages(alloc, input),
    }
}

/// The schedule that the tokens of a text spell, its attributes by name, or the place at which they
/// go wrong.
pub fn read_written_schedule(
    alloc: Global,
    scanned: &Scanned,
) -> Result<WrittenSchedule, WrittenFault>
    ensures answer { ReadsSchedule scanned.now result }
{
    let mut input = Input::new(scanned);
    match schedule(alloc, &mut input) {
        Ok(schedule) => Ok(schedule),
        Err(ReadFault::Refused) => Err(WrittenFault::Syntax {
            at: place(scanned, input.left()),
        }),
        Err(ReadFault::OutOfMemory) => Err(WrittenFault::OutOfMemory),
    }
}

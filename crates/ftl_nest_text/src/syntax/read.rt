//! The readers of schedules with nests, one token ahead. A pass is read as one without a nest, and
//! then what it nests.

ghost use Rattle.std.specs.Prelude.{[], ◌∷◌};
ghost use Rattle.ftl_tokens.specs.reading.Reader.{Reads, push, chain_of};
ghost use Rattle.ftl_nest_text.specs.syntax.NestReading as spec;
ghost use Rattle.ftl_nest_text.specs.syntax.NestRead.{ReadsNestingSchedule};

use crate::syntax::types::{
    WrittenNest, WrittenNestingPass, WrittenNestingPassList, WrittenNestingSchedule,
    WrittenNestingStage, WrittenNestingStageList,
};
use ftl_schedule::PassKind;
use ftl_schedule::syntax::{WrittenFault, WrittenStageList, pass, stage, stage_list};
use ftl_tokens::{Input, Kind, ReadFault, Scanned, place};
use sqlite_items::Items;
use std::alloc::Global;

#[tactic(auto, unfolding(crate::specs::syntax::NestReading::take_nest_word))]
fn nest_word(input: &mut Input<'_>) -> Result<(), ReadFault>
    ensures reads { Reads (spec.take_nest_word input.old) result input.new }
{
    if input.take_name_of("nest") {
        Ok(())
    } else {
        Err(ReadFault::Refused)
    }
}

#[tactic(auto, unfolding(crate::specs::syntax::NestReading::inner_stages))]
fn inner_stages(alloc: Global, input: &mut Input<'_>) -> Result<WrittenStageList, ReadFault>
    ensures reads { Reads (spec.inner_stages input.old) result input.new }
{
    let first = stage(alloc, input)?;
    stage_list(alloc, input, first)
}

// The stages of a nest.
#[tactic(auto, unfolding(crate::specs::syntax::NestReading::inner))]
fn inner(alloc: Global, input: &mut Input<'_>) -> Result<WrittenStageList, ReadFault>
    ensures reads { Reads (spec.inner input.old) result input.new }
{
    match input.peek() {
        Some(Kind::Name) => inner_stages(alloc, input),
        _ => Ok(Items::new(alloc)),
    }
}

#[tactic(auto, unfolding(crate::specs::syntax::NestReading::nest))]
fn nest(alloc: Global, input: &mut Input<'_>) -> Result<WrittenNest, ReadFault>
    ensures reads { Reads (spec.nest input.old) result input.new }
{
    nest_word(input)?;
    let host = input.name(alloc)?;
    input.expect(Kind::LeftBrace)?;
    let stages = inner(alloc, input)?;
    input.expect(Kind::RightBrace)?;
    Ok(WrittenNest { host, stages })
}

#[tactic(auto, unfolding(crate::specs::syntax::NestReading::more_nest))]
fn more_nest(alloc: Global, input: &mut Input<'_>) -> Result<Option<WrittenNest>, ReadFault>
    ensures reads { Reads (spec.more_nest input.old) result input.new }
{
    match input.peek() {
        Some(Kind::Name) => Ok(Some(nest(alloc, input)?)),
        _ => Ok(None),
    }
}

// What a pass of this kind nests.
fn nest_after(
    alloc: Global,
    input: &mut Input<'_>,
    kind: PassKind,
) -> Result<Option<WrittenNest>, ReadFault>
    ensures reads { Reads (spec.nest_after kind input.old) result input.new }
{
    match kind {
        PassKind::TopDown => more_nest(alloc, input),
        PassKind::BottomUp => more_nest(alloc, input),
        PassKind::InOrder => Ok(None),
    }
}

#[tactic(auto, unfolding(crate::specs::syntax::NestReading::nesting_pass))]
fn nesting_pass(alloc: Global, input: &mut Input<'_>) -> Result<WrittenNestingPass, ReadFault>
    ensures reads { Reads (spec.nesting_pass input.old) result input.new }
{
    let own = pass(alloc, input)?;
    let nest = nest_after(alloc, input, own.kind)?;
    Ok(WrittenNestingPass {
        kind: own.kind,
        attrs: own.attrs,
        nest,
    })
}

// `||` and one more pass, if they are there.
#[tactic(auto, unfolding(crate::specs::syntax::NestReading::more_nesting_pass))]
fn more_nesting_pass(
    alloc: Global,
    input: &mut Input<'_>,
) -> Result<Option<WrittenNestingPass>, ReadFault>
    ensures reads { Reads (spec.more_nesting_pass input.old) result input.new }
{
    match input.peek() {
        Some(Kind::OrOr) => {
            input.skip();
            Ok(Some(nesting_pass(alloc, input)?))
        }
        _ => Ok(None),
    }
}

// The passes of a stage, of which the first was read.
fn nesting_passes(
    alloc: Global,
    input: &mut Input<'_>,
    first: WrittenNestingPass,
) -> Result<WrittenNestingPassList, ReadFault>
    ensures reads { Reads (chain_of push spec.more_nesting_pass (first ∷ []) input.old)
        result input.new }
{
    let mut found = Items::new(alloc);
    found.push(first)?;
    for _turn in 0..input.left() {
        let Some(item) = more_nesting_pass(alloc, input)? else {
            return Ok(found);
        };
        found.push(item)?;
    }
    Ok(found)
}

#[tactic(auto, unfolding(crate::specs::syntax::NestReading::nesting_stage))]
fn nesting_stage(alloc: Global, input: &mut Input<'_>) -> Result<WrittenNestingStage, ReadFault>
    ensures reads { Reads (spec.nesting_stage input.old) result input.new }
{
    let first = nesting_pass(alloc, input)?;
    let passes = nesting_passes(alloc, input, first)?;
    Ok(WrittenNestingStage { passes })
}

// `;` and one more stage, if they are there.
#[tactic(auto, unfolding(crate::specs::syntax::NestReading::more_nesting_stage))]
fn more_nesting_stage(
    alloc: Global,
    input: &mut Input<'_>,
) -> Result<Option<WrittenNestingStage>, ReadFault>
    ensures reads { Reads (spec.more_nesting_stage input.old) result input.new }
{
    match input.peek() {
        Some(Kind::Semicolon) => {
            input.skip();
            Ok(Some(nesting_stage(alloc, input)?))
        }
        _ => Ok(None),
    }
}

// The stages of a schedule, of which the first was read.
fn nesting_stage_list(
    alloc: Global,
    input: &mut Input<'_>,
    first: WrittenNestingStage,
) -> Result<WrittenNestingStageList, ReadFault>
    ensures reads { Reads (chain_of push spec.more_nesting_stage (first ∷ []) input.old)
        result input.new }
{
    let mut found = Items::new(alloc);
    found.push(first)?;
    for _turn in 0..input.left() {
        let Some(item) = more_nesting_stage(alloc, input)? else {
            return Ok(found);
        };
        found.push(item)?;
    }
    Ok(found)
}

#[tactic(auto, unfolding(crate::specs::syntax::NestReading::nesting_stages))]
fn nesting_stages(alloc: Global, input: &mut Input<'_>) -> Result<WrittenNestingSchedule, ReadFault>
    ensures reads { Reads (spec.nesting_stages input.old) result input.new }
{
    let first = nesting_stage(alloc, input)?;
    let stages = nesting_stage_list(alloc, input, first)?;
    input.end()?;
    Ok(WrittenNestingSchedule { stages })
}

#[tactic(auto, unfolding(crate::specs::syntax::NestReading::nesting_schedule))]
fn nesting_schedule(
    alloc: Global,
    input: &mut Input<'_>,
) -> Result<WrittenNestingSchedule, ReadFault>
    ensures reads { Reads (spec.nesting_schedule input.old) result input.new }
{
    match input.peek() {
        None => Ok(WrittenNestingSchedule {
            stages: Items::new(alloc),
        }),
        Some(_) => nesting_stages(alloc, input),
    }
}

/// The schedule that the tokens of a text spell, its attributes and hosts by name, or the place at
/// which they go wrong.
pub fn read_nesting_schedule(
    alloc: Global,
    scanned: &Scanned,
) -> Result<WrittenNestingSchedule, WrittenFault>
    ensures answer { ReadsNestingSchedule scanned.now result }
{
    let mut input = Input::new(scanned);
    match nesting_schedule(alloc, &mut input) {
        Ok(schedule) => Ok(schedule),
        Err(ReadFault::Refused) => Err(WrittenFault::Syntax {
            at: place(scanned, input.left()),
        }),
        Err(ReadFault::OutOfMemory) => Err(WrittenFault::OutOfMemory),
    }
}

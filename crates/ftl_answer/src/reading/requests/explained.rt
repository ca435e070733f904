//! The schedule of a page, explained: it is accepted, or refused for a pair, which is explained by
//! an example, or refused for another fault.

ghost use Rattle.std.specs.Prelude.{◌≡◌, ◌≤◌, length, None, Some, string_bytes, string_len, IfOk};
ghost use Rattle.std.specs.Prelude.{IfErr, IfSome};
ghost use Rattle.ftl_model.specs.layout.Limits.{most_page_bytes};
ghost use Rattle.ftl_answer.specs.answers.Answers.{accepted_answer, explained, explained_page};
ghost use Rattle.ftl_answer.specs.answers.Answers.{explained_schedule, rules_alone};
ghost use Rattle.ftl_answer.specs.answers.Stages.{Then, ends, hands_on};
ghost use Rattle.ftl_answer.specs.answers.Texts.{page, spelled_schedule};
ghost use Rattle.ftl_deps.specs.reads.DepRows.{dep_rows};
ghost use Rattle.ftl_deps.specs.reads.Meant.{meant};
ghost use Rattle.ftl_nest_check.specs.check.NestAccepted.{MayBeVerified};
ghost use Rattle.ftl_nest_check.specs.stages.Nested.{nests_of};
ghost use Rattle.ftl_order.specs.declared.faults.fault.VerifyFault.TheVariants.{OutOfMemory};
ghost use Rattle.ftl_page.specs.sections.Texts.{HasTextsUpTo};
ghost use Rattle.ftl_answer.specs.reading.sections.Outcomes.{answer_of};
ghost use Rattle.ftl_answer.specs.reading.requests.Explained.{HasFaultPair, SpellsFault};
ghost use Rattle.ftl_answer.specs.reading.requests.Explained.{SpellsFaultPair, rules_explained};
ghost use Rattle.ftl_answer.specs.reading.requests.Explained.{spelled_explained};
ghost use Rattle.ftl_answer.specs.reading.requests.RulesAnswers.{EndsIn};

use crate::reading::requests::ending::ended;
use crate::reading::requests::explanation::explanation;
use crate::reading::requests::rules::RULES_ALONE;
use crate::reading::sections::{
    Decided, Status, Undecided, automatic_schedule, grammar_of, read_page, schedule_refused,
    section_tokens, verify_refused,
};
use ftl_checked::Checked;
use ftl_deps::{DepTable, dep_table};
use ftl_nest_check::{NestingSchedule, PlacedNests, verify_nests};
use ftl_nest_text::read_schedule;
use ftl_page::{Page, Section, Text};
use ftl_schedule::{VerifyFault, attribute_count};
use ftl_tokens::Scanned;
use std::alloc::{AllocError, Global};

/// The schedule of a page, explained.
pub(crate) fn page_explained(alloc: Global, bytes: &[u8]) -> Result<Decided, AllocError>
    ensures outcome { IfOk result (λ d. explained_page bytes.now (ends (answer_of d))) }
{
    ended(explained_of_bytes(alloc, bytes))
}

fn explained_of_bytes(alloc: Global, bytes: &[u8]) -> Result<Decided, Undecided>
    ensures outcome { EndsIn (Then (page rules_alone bytes.now) rules_explained) result }
{
    match read_page(alloc, bytes, RULES_ALONE) {
        Ok(page) => explained_of_page(alloc, page),
        Err(end) => Err(end),
    }
}

fn explained_of_page(alloc: Global, page: Page) -> Result<Decided, Undecided>
    requires short { HasTextsUpTo most_page_bytes page }
    ensures outcome { EndsIn (rules_explained page) result }
{
    let Page {
        width,
        grammar,
        schedule,
        document: _,
        edits: _,
    } = page;
    match grammar_of(alloc, width, grammar) {
        Ok(checked) => explained_of_text(alloc, &checked, schedule),
        Err(end) => Err(end),
    }
}

/// The schedule of a text, explained; where there is none, the automatic one is accepted.
fn explained_of_text(
    alloc: Global,
    checked: &Checked,
    text: Option<Text>,
) -> Result<Decided, Undecided>
    requires short { IfSome text (λ t. length t ≤ most_page_bytes) }
    ensures outcome { EndsIn (explained checked.now text) result }
{
    match text {
        None => automatic_accepted(alloc, checked),
        Some(text) => explained_of_string(alloc, checked, text.into_string()),
    }
}

fn automatic_accepted(alloc: Global, checked: &Checked) -> Result<Decided, Undecided>
    ensures outcome { EndsIn (explained checked.now None) result }
{
    match automatic_schedule(alloc, checked) {
        Ok(_) => Ok(accepted(alloc)?),
        Err(end) => Err(end),
    }
}

fn explained_of_string(alloc: Global, checked: &Checked, text: String) -> Result<Decided, Undecided>
    requires short { string_len text ≤ most_page_bytes }
    ensures outcome { EndsIn (explained checked.now (Some (string_bytes text))) result }
{
    match section_tokens(alloc, Section::Schedule, text) {
        Ok(scanned) => explained_of_tokens(alloc, checked, &scanned),
        Err(end) => Err(end),
    }
}

fn explained_of_tokens(
    alloc: Global,
    checked: &Checked,
    scanned: &Scanned,
) -> Result<Decided, Undecided>
    requires short { length scanned.now.text ≤ most_page_bytes }
    ensures outcome { EndsIn (spelled_explained checked.now scanned.now) result }
{
    match read_schedule(alloc, checked, scanned) {
        Ok(schedule) => verified_or_explained(alloc, checked, scanned, schedule),
        Err(fault) => Err(schedule_refused(alloc, &fault)),
    }
}

/// The schedule that the tokens spell: it is accepted, or its first fault is explained or refused.
fn verified_or_explained(
    alloc: Global,
    checked: &Checked,
    scanned: &Scanned,
    schedule: NestingSchedule,
) -> Result<Decided, Undecided>
    requires short { length scanned.now.text ≤ most_page_bytes }
    requires spelled { spelled_schedule checked.now scanned.now (hands_on schedule) }
    requires may { MayBeVerified (meant checked.now) (nests_of schedule) }
    ensures outcome { EndsIn (spelled_explained checked.now scanned.now) result }
{
    let deps = dep_table(alloc, checked)?;
    match verify_nests(alloc, checked, &deps, schedule) {
        Ok(_) => Ok(accepted(alloc)?),
        Err(fault) => fault_explained(alloc, checked, &deps, scanned, fault),
    }
}

/// The first fault of the schedule that the tokens spell: a pair is explained, others are refused.
fn fault_explained(
    alloc: Global,
    checked: &Checked,
    deps: &DepTable,
    scanned: &Scanned,
    fault: VerifyFault,
) -> Result<Decided, Undecided>
    requires table { deps.now ≡ dep_rows (meant checked.now) }
    requires short { length scanned.now.text ≤ most_page_bytes }
    requires spelled { SpellsFault checked.now scanned.now fault }
    ensures outcome { EndsIn (spelled_explained checked.now scanned.now) result }
{
    match fault {
        VerifyFault::Unordered { .. } => explained_again(alloc, checked, deps, scanned),
        VerifyFault::Twice { .. } => Err(verify_refused(alloc, checked, fault)),
        VerifyFault::Missing { .. } => Err(verify_refused(alloc, checked, fault)),
        VerifyFault::OutOfMemory => Err(Undecided::OutOfMemory),
    }
}

/// The schedule that the tokens spell, whose first fault is a pair. It is read a second time, since
/// the search for its faults took it.
fn explained_again(
    alloc: Global,
    checked: &Checked,
    deps: &DepTable,
    scanned: &Scanned,
) -> Result<Decided, Undecided>
    requires table { deps.now ≡ dep_rows (meant checked.now) }
    requires short { length scanned.now.text ≤ most_page_bytes }
    requires pair { SpellsFaultPair checked.now scanned.now }
    ensures outcome { EndsIn (spelled_explained checked.now scanned.now) result }
{
    match read_schedule(alloc, checked, scanned) {
        Ok(schedule) => pair_explained(alloc, checked, deps, schedule),
        Err(fault) => Err(schedule_refused(alloc, &fault)),
    }
}

fn pair_explained(
    alloc: Global,
    checked: &Checked,
    deps: &DepTable,
    schedule: NestingSchedule,
) -> Result<Decided, Undecided>
    requires table { deps.now ≡ dep_rows (meant checked.now) }
    requires may { MayBeVerified (meant checked.now) (nests_of schedule) }
    requires pair { HasFaultPair checked.now schedule }
    ensures outcome { EndsIn (explained_schedule checked.now schedule) result }
{
    match placed_pair(alloc, checked, schedule) {
        Ok(placed) => placed_explained(alloc, checked, deps, &placed),
        Err(_) => Err(Undecided::OutOfMemory),
    }
}

/// The schedule with the places of its attributes. Its first fault is a pair, so that no attribute
/// has two entries, and memory alone can be lacking.
fn placed_pair(
    alloc: Global,
    checked: &Checked,
    schedule: NestingSchedule,
) -> Result<PlacedNests, VerifyFault>
    requires may { MayBeVerified (meant checked.now) (nests_of schedule) }
    requires pair { HasFaultPair checked.now schedule }
    ensures schedule { IfOk result (λ p. p ≡ schedule) }
    ensures memory { IfErr result (λ e. e ≡ OutOfMemory) }
{
    PlacedNests::new(alloc, attribute_count(checked), schedule)
}

fn placed_explained(
    alloc: Global,
    checked: &Checked,
    deps: &DepTable,
    placed: &PlacedNests,
) -> Result<Decided, Undecided>
    requires table { deps.now ≡ dep_rows (meant checked.now) }
    requires may { MayBeVerified (meant checked.now) (nests_of placed.now) }
    requires pair { HasFaultPair checked.now placed.now }
    ensures outcome { EndsIn (explained_schedule checked.now placed.now) result }
{
    Ok(Decided {
        status: Status::DONE,
        text: explanation(alloc, checked, deps, placed)?,
    })
}

/// Grammar and schedule are accepted.
fn accepted(alloc: Global) -> Result<Decided, AllocError>
    ensures answer { IfOk result (λ d. answer_of d ≡ accepted_answer) }
{
    Ok(Decided {
        status: Status::DONE,
        text: Vec::from_slice(alloc, b"accepted\n")?,
    })
}

//! A page that is to be solved: its rules, and the plan of its tree.

ghost use Rattle.std.specs.Prelude.{◌≡◌, ◌≤◌, length, None, string_bytes, string_len, IfOk, IfSome};
ghost use Rattle.ftl_model.specs.layout.Limits.{most_page_bytes};
ghost use Rattle.ftl_answer.specs.answers.Answers.{text_or_none};
ghost use Rattle.ftl_answer.specs.answers.Texts.{page, tree};
ghost use Rattle.ftl_deps.specs.reads.Meant.{meant};
ghost use Rattle.ftl_items.specs.stage_items.WordLaws.{HoldTheSolution};
ghost use Rattle.ftl_page.specs.sections.Texts.{HasTextsUpTo};
ghost use Rattle.ftl_visit.specs.compiled.RuleCode.{rule_codes};
ghost use Rattle.ftl_step_value.specs.limits.faults.PlanFaults.{first_fault};
ghost use Rattle.ftl_demand.specs.demand.Solved.{IsSolvedBy};
ghost use Rattle.ftl_run.specs.calls.SolvedPages.{IsPageReady, LeadsTo};
ghost use Rattle.ftl_answer.specs.reading.sections.Outcomes.{IsOutcome};
ghost use Rattle.ftl_items.specs.solution.Solution.{solution};
ghost use Rattle.ftl_nest_check.specs.stages.Nested.{nests_of};
ghost use Rattle.ftl_nests.specs.Nests.{outer_schedule};

use ftl_answer::reading::{Undecided, grammar_of, read_page};
use ftl_checked::Checked;
use ftl_items::solution_solves;
use ftl_nest_check::AcceptedNests;
use ftl_nests::flat_schedules;
use ftl_order::{reads_end_by_rank, values_are_in_range};
use ftl_page::{Need, Page, Text};
use ftl_plan::{Plan, PlanFault};
use ftl_tree::Tree;
use ftl_visit::Programs;
use std::alloc::{AllocError, Global};

/// The sections that are needed of a page that is solved.
pub(crate) const WHOLE_PAGE: Need = Need {
    schedule: true,
    document: true,
    edits: false,
};

/// The sections that are needed of a page that is edited, too.
pub(crate) const EDITED_PAGE: Need = Need {
    schedule: true,
    document: true,
    edits: true,
};

/// The greatest grain, and the most nodes of a tree.
pub(crate) const MOST_GRAIN: u32 = 1_048_576;

/// The grammar of a page, and the texts of its schedule and its document.
#[derive(Drop)]
pub(crate) struct Rules {
    pub checked: Checked,
    pub schedule: Option<Text>,
    pub document: Option<Text>,
}

/// The same, and the text of its edits.
#[derive(Drop)]
pub(crate) struct PageRead {
    pub rules: Rules,
    pub edits: Option<Text>,
}

/// The grammar and the texts of a page, or the page's refusal. The page's bytes are let go as soon
/// as its sections are there.
pub(crate) fn rules_of(alloc: Global, bytes: Vec<u8>, need: Need) -> Result<PageRead, Undecided>
    ensures outcome { LeadsTo need bytes.items result }
    ensures ready { IfOk result IsPageReady }
{
    let Page {
        width,
        grammar,
        schedule,
        document,
        edits,
    } = page_of(alloc, bytes, need)?;
    let checked = grammar_of(alloc, width, grammar)?;
    let rules = Rules {
        checked,
        schedule,
        document,
    };
    Ok(PageRead { rules, edits })
}

/// The sections of a page that are needed. The page's bytes are let go.
pub(crate) fn page_of(alloc: Global, bytes: Vec<u8>, need: Need) -> Result<Page, Undecided>
    ensures outcome { IsOutcome (page need bytes.items) (λ p. p) result }
    ensures short { IfOk result (HasTextsUpTo most_page_bytes) }
{
    read_page(alloc, bytes.as_slice(), need)
}

/// The text of a section; empty where there is none.
pub(crate) fn text_of(alloc: Global, text: Option<Text>) -> String
    requires short { IfSome text (λ t. length t ≤ most_page_bytes) }
    ensures text { string_bytes result ≡ text_or_none text }
    ensures short { string_len result ≤ most_page_bytes }
{
    match text {
        Some(text) => text.into_string(),
        None => String::new(alloc),
    }
}

/// The plan of a tree, with subtrees of at most so many nodes as items, or of the nearest number
/// that a plan may have.
#[inline(never)]
pub(crate) fn plan_of<'a>(
    alloc: Global,
    grain: u32,
    checked: &'a Checked,
    accepted: &'a AcceptedNests<'a>,
    programs: &'a Programs,
    tree: &'a Tree<'a>,
) -> Result<Plan<'a>, AllocError>
    requires accepted { accepted.now.checked ≡ checked.now }
    requires rules { programs.now.rules ≡ rule_codes checked.now.grammar }
    requires width { programs.now.width ≡ checked.now.width }
    requires grammar { tree.now.checked ≡ checked.now }
    requires fits { first_fault (meant checked.now)
        (outer_schedule (nests_of accepted.now.schedule)) tree.now.tree ≡ None }
    ensures grammar { IfOk result (λ p. p.checked ≡ checked.now) }
    ensures tree { IfOk result (λ p. p.tree ≡ tree.now.tree) }
{
    let grain = in_range(grain, MOST_GRAIN);
    match Plan::new(alloc, checked, accepted, programs, tree, grain) {
        Ok(plan) => Ok(plan),
        Err(PlanFault::OutOfMemory) => Err(AllocError),
        Err(_) => unreachable!(),
    }
}

/// The number, or the nearest one from 1 to the most.
pub(crate) fn in_range(number: u32, most: u32) -> u32
    requires some { 1 ≤ most }
    ensures some { 1 ≤ result }
    ensures most { result ≤ most }
{
    if number == 0 {
        1
    } else if number > most {
        most
    } else {
        number
    }
}

/// Says of the words of the solution of a plan that they are those of values that solve its tree.
pub(crate) fn is_solved(plan: &Plan<'_>, tree: &Tree<'_>, words: &[u64])
    requires grammar { tree.now.checked ≡ plan.now.checked }
    requires tree { tree.now.tree ≡ plan.now.tree }
    requires held { HoldTheSolution (solution (meant plan.now.checked) plan.now.tree) words.now }
    ensures solved { IsSolvedBy tree.now words.now }
{
    flat_schedules();
    solution_solves();
    values_are_in_range();
    reads_end_by_rank();
    let _can_be_planned = plan.stage_count();
}

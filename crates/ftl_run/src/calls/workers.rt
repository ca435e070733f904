//! Pages that are solved by workers in threads of their own.

ghost use Rattle.std.specs.Prelude.{◌≡◌, ◌≤◌, None, string_bytes, string_len, IfOk};
ghost use Rattle.ftl_model.specs.layout.Limits.{most_page_bytes};
ghost use Rattle.ftl_answer.specs.answers.Answers.{edited_by, shown_by, solved, solved_anew};
ghost use Rattle.ftl_answer.specs.answers.Stages.{ends};
ghost use Rattle.ftl_edits.specs.meaning.Editable.{AreEditsOf};
ghost use Rattle.ftl_deps.specs.reads.Meant.{meant};
ghost use Rattle.ftl_step_value.specs.limits.faults.PlanFaults.{first_fault};
ghost use Rattle.ftl_answer.specs.reading.requests.RulesAnswers.{EndsIn};
ghost use Rattle.ftl_answer.specs.reading.requests.Requests.{IsAnsweredBy, problem_stage};
ghost use Rattle.ftl_answer.specs.reading.requests.ShownTexts.{text_shown};
ghost use Rattle.ftl_demand.specs.demand.Solved.{IsSolvedBy};
ghost use Rattle.ftl_answer.specs.reading.sections.Outcomes.{answer_of};
ghost use Rattle.ftl_run.specs.calls.SolvedPages.{AreReady, IsShort, IsTaskReady, document_stage};
ghost use Rattle.ftl_run.specs.calls.SolvedPages.{rules_stage, task_stage};
ghost use Rattle.ftl_run.specs.declared.calls.task.Task.TheVariants.{Edit};
ghost use Rattle.ftl_nest_check.specs.stages.Nested.{nests_of};
ghost use Rattle.ftl_nests.specs.Nests.{outer_schedule};
ghost use Rattle.ftl_visit.specs.compiled.RuleCode.{rule_codes};

use crate::calls::change::edited_shown;
use crate::calls::demand::page_by_demand;
use crate::calls::shown::table_shown;
use crate::calls::solving::{
    EDITED_PAGE, MOST_GRAIN, PageRead, Rules, WHOLE_PAGE, in_range, is_solved, plan_of, rules_of,
    text_of,
};
use crate::calls::task::Task;
use crate::solve::solve;
use ftl_answer::reading::{
    Decided, EditedPage, Evaluation, Problem, Request, Shown, Undecided, Undone, edits_of, ended,
    schedule_of, tree_of,
};
use ftl_checked::Checked;
use ftl_edge::Gate;
use ftl_edits::EditList;
use ftl_nest_check::AcceptedNests;
use ftl_page::{Solving, Text};
use ftl_tree::Tree;
use ftl_visit::{Programs, compile};
use std::alloc::{AllocError, Global};
use std::sync::Wait;
use std::thread::Threads;

/// The answer to what is asked for. Pages are solved by as many workers as the words say, who call
/// the gate as they begin an item of a stage that has several. One worker is the calling thread,
/// also of a stage of one item, and calls no gate.
pub(crate) fn answered_by_workers<R: Threads + Wait + Sync, G: Gate>(
    rt: &R,
    alloc: Global,
    requested: Result<Request, Undone>,
    gate: &G,
) -> Result<Decided, Undone>
    ensures answered { IsAnsweredBy requested result }
{
    match requested? {
        Request::Answered(decided) => Ok(decided),
        Request::Solve(problem) => Ok(ended(solved_by_workers(rt, alloc, problem, gate))?),
        Request::Edit(page) => Ok(ended(edited_by_workers(rt, alloc, page, gate))?),
    }
}

/// The table of a page, shown, or the page's refusal. Evaluation by demand is the calling thread's.
fn solved_by_workers<R: Threads + Wait + Sync, G: Gate>(
    rt: &R,
    alloc: Global,
    problem: Problem,
    gate: &G,
) -> Result<Decided, Undecided>
    ensures outcome { EndsIn (problem_stage problem) result }
{
    let Problem {
        shown,
        evaluation,
        bytes,
    } = problem;
    match evaluation {
        Evaluation::Scheduled(how) => solved_page(rt, alloc, shown, how, bytes, gate),
        Evaluation::ByDemand => page_by_demand(alloc, &shown, bytes),
    }
}

/// The table of a page whose schedule says how it is solved.
fn solved_page<R: Threads + Wait + Sync, G: Gate>(
    rt: &R,
    alloc: Global,
    shown: Shown,
    how: Solving,
    bytes: Vec<u8>,
    gate: &G,
) -> Result<Decided, Undecided>
    ensures outcome { EndsIn (solved bytes.items (text_shown shown)) result }
{
    match rules_of(alloc, bytes, WHOLE_PAGE) {
        Ok(page) => {
            let PageRead { rules, edits: _ } = page;
            solved_rules(rt, alloc, Task::Show(shown), how, rules, gate)
        }
        Err(end) => Err(end),
    }
}

/// The table of a page after its edits, shown, or the page's refusal.
fn edited_by_workers<R: Threads + Wait + Sync, G: Gate>(
    rt: &R,
    alloc: Global,
    page: EditedPage,
    gate: &G,
) -> Result<Decided, Undecided>
    ensures outcome { EndsIn (solved_anew page.bytes.items) result }
{
    let EditedPage { solving, bytes } = page;
    match rules_of(alloc, bytes, EDITED_PAGE) {
        Ok(page) => {
            let PageRead { rules, edits } = page;
            solved_rules(rt, alloc, Task::Edit(edits), solving, rules, gate)
        }
        Err(end) => Err(end),
    }
}

fn solved_rules<R: Threads + Wait + Sync, G: Gate>(
    rt: &R,
    alloc: Global,
    task: Task,
    how: Solving,
    rules: Rules,
    gate: &G,
) -> Result<Decided, Undecided>
    requires ready { AreReady rules }
    requires edits { IsTaskReady task }
    ensures outcome { EndsIn (rules_stage rules task) result }
{
    let Rules {
        checked,
        schedule,
        document,
    } = rules;
    let document = text_of(alloc, document);
    match schedule_of(alloc, &checked, schedule) {
        Ok(accepted) => solved_document(rt, alloc, task, how, &checked, &accepted, document, gate),
        Err(end) => Err(end),
    }
}

fn solved_document<R: Threads + Wait + Sync, G: Gate>(
    rt: &R,
    alloc: Global,
    task: Task,
    how: Solving,
    checked: &Checked,
    accepted: &AcceptedNests<'_>,
    document: String,
    gate: &G,
) -> Result<Decided, Undecided>
    requires accepted { accepted.now.checked ≡ checked.now }
    requires edits { IsTaskReady task }
    requires short { string_len document ≤ most_page_bytes }
    ensures outcome { EndsIn (document_stage checked.now accepted.now.schedule
        (string_bytes document) task) result }
{
    match tree_of(alloc, checked, accepted, document) {
        Ok(tree) => solved_tree(rt, alloc, task, how, checked, accepted, tree, gate),
        Err(end) => Err(end),
    }
}

fn solved_tree<R: Threads + Wait + Sync, G: Gate>(
    rt: &R,
    alloc: Global,
    task: Task,
    how: Solving,
    checked: &Checked,
    accepted: &AcceptedNests<'_>,
    tree: Tree<'_>,
    gate: &G,
) -> Result<Decided, Undecided>
    requires accepted { accepted.now.checked ≡ checked.now }
    requires edits { IsTaskReady task }
    requires grammar { tree.checked ≡ checked.now }
    requires fits { first_fault (meant checked.now)
        (outer_schedule (nests_of accepted.now.schedule)) tree.tree ≡ None }
    ensures outcome { EndsIn (task_stage task checked.now tree.entry.tree) result }
{
    match task {
        Task::Show(shown) => Ok(tree_shown(
            rt, alloc, &shown, how, checked, accepted, &tree, gate,
        )?),
        Task::Edit(edits) => edited_tree(rt, alloc, edits, how, checked, accepted, tree, gate),
    }
}

/// The table of a tree, shown.
fn tree_shown<R: Threads + Wait + Sync, G: Gate>(
    rt: &R,
    alloc: Global,
    shown: &Shown,
    how: Solving,
    checked: &Checked,
    accepted: &AcceptedNests<'_>,
    tree: &Tree<'_>,
    gate: &G,
) -> Result<Decided, AllocError>
    requires accepted { accepted.now.checked ≡ checked.now }
    requires grammar { tree.now.checked ≡ checked.now }
    requires fits { first_fault (meant checked.now)
        (outer_schedule (nests_of accepted.now.schedule)) tree.now.tree ≡ None }
    ensures outcome { IfOk result (λ d. shown_by (text_shown shown.now) tree.now.checked
        tree.now.tree (ends (answer_of d))) }
{
    let programs = compile(alloc, checked)?;
    let words = words_by_workers(rt, alloc, how, checked, accepted, &programs, tree, gate)?;
    table_shown(alloc, shown, tree, words.as_slice())
}

/// The table of a tree after its edits, shown, or the refusal of the edits.
fn edited_tree<R: Threads + Wait + Sync, G: Gate>(
    rt: &R,
    alloc: Global,
    text: Option<Text>,
    how: Solving,
    checked: &Checked,
    accepted: &AcceptedNests<'_>,
    tree: Tree<'_>,
    gate: &G,
) -> Result<Decided, Undecided>
    requires accepted { accepted.now.checked ≡ checked.now }
    requires short { IsShort text }
    requires grammar { tree.checked ≡ checked.now }
    requires fits { first_fault (meant checked.now)
        (outer_schedule (nests_of accepted.now.schedule)) tree.tree ≡ None }
    ensures outcome { EndsIn (task_stage (Edit text) checked.now tree.entry.tree) result }
{
    match edits_of(alloc, checked, &tree, text_of(alloc, text)) {
        Ok(edits) => Ok(changed_tree(rt, alloc, &edits, how, checked, accepted, tree, gate)?),
        Err(end) => Err(end),
    }
}

fn changed_tree<R: Threads + Wait + Sync, G: Gate>(
    rt: &R,
    alloc: Global,
    edits: &EditList,
    how: Solving,
    checked: &Checked,
    accepted: &AcceptedNests<'_>,
    tree: Tree<'_>,
    gate: &G,
) -> Result<Decided, AllocError>
    requires accepted { accepted.now.checked ≡ checked.now }
    requires edits { AreEditsOf tree edits.now }
    requires grammar { tree.checked ≡ checked.now }
    requires fits { first_fault (meant checked.now)
        (outer_schedule (nests_of accepted.now.schedule)) tree.tree ≡ None }
    ensures outcome { IfOk result (λ d. edited_by tree.entry.checked tree.entry.tree edits.now
        (ends (answer_of d))) }
{
    let programs = compile(alloc, checked)?;
    let words = words_by_workers(rt, alloc, how, checked, accepted, &programs, &tree, gate)?;
    edited_shown(
        alloc,
        checked,
        accepted.flat(),
        &programs,
        tree,
        words,
        edits,
    )
}

/// The words of the values that solve a tree.
pub fn words_by_workers<R: Threads + Wait + Sync, G: Gate>(
    rt: &R,
    alloc: Global,
    how: Solving,
    checked: &Checked,
    accepted: &AcceptedNests<'_>,
    programs: &Programs,
    tree: &Tree<'_>,
    gate: &G,
) -> Result<Vec<u64>, AllocError>
    requires accepted { accepted.now.checked ≡ checked.now }
    requires rules { programs.now.rules ≡ rule_codes checked.now.grammar }
    requires width { programs.now.width ≡ checked.now.width }
    requires grammar { tree.now.checked ≡ checked.now }
    requires fits { first_fault (meant checked.now)
        (outer_schedule (nests_of accepted.now.schedule)) tree.now.tree ≡ None }
    ensures solved { IfOk result (λ v. IsSolvedBy tree.now v.items) }
{
    let workers = in_range(how.workers, 64);
    let grain = grain_for(workers, how.grain);
    let plan = plan_of(alloc, grain, checked, accepted, programs, tree)?;
    let words = solve(rt, alloc, &plan, workers, gate)?;
    is_solved(&plan, tree, words.as_slice());
    Ok(words)
}

/// The grain for so many workers: the greatest for one, who gives no items to others.
fn grain_for(workers: u32, grain: u32) -> u32 {
    if workers == 1 { MOST_GRAIN } else { grain }
}

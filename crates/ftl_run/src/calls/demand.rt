//! Pages whose values are computed by demand, on the calling thread.

ghost use Rattle.std.specs.Prelude.{◌≡◌, ◌≤◌, string_bytes, string_len, IfOk};
ghost use Rattle.ftl_model.specs.layout.Limits.{most_page_bytes};
ghost use Rattle.ftl_answer.specs.answers.Answers.{shown_by, solved_by_demand};
ghost use Rattle.ftl_demand.specs.demand.Solved.{IsSolvedBy};
ghost use Rattle.ftl_page.specs.sections.Texts.{HasTextsUpTo};
ghost use Rattle.ftl_answer.specs.reading.requests.RulesAnswers.{EndsIn};
ghost use Rattle.ftl_answer.specs.reading.requests.ShownTexts.{text_shown};
ghost use Rattle.ftl_run.specs.calls.DemandedPages.{document_stage, grammar_stage, page_stage};

use crate::calls::shown::table_shown;
use crate::calls::solving::{page_of, text_of};
use ftl_answer::reading::{Decided, Shown, Undecided, grammar_of, grown_tree_of, noncircular_of};
use ftl_checked::Checked;
use ftl_demand::solve_by_demand;
use ftl_noncircular::Noncircular;
use ftl_page::{Need, Page};
use ftl_tree::Tree;
use ftl_visit::compile;
use std::alloc::{AllocError, Global};

/// The sections that are needed.
const UNSCHEDULED_PAGE: Need = Need {
    schedule: false,
    document: true,
    edits: false,
};

/// The table of a page, shown, or the page's refusal. The page's bytes are let go as soon as its
/// sections are there.
pub(crate) fn page_by_demand(
    alloc: Global,
    shown: &Shown,
    bytes: Vec<u8>,
) -> Result<Decided, Undecided>
    ensures outcome { EndsIn (solved_by_demand bytes.items (text_shown shown.now)) result }
{
    match page_of(alloc, bytes, UNSCHEDULED_PAGE) {
        Ok(page) => sections_by_demand(alloc, shown, page),
        Err(end) => Err(end),
    }
}

fn sections_by_demand(alloc: Global, shown: &Shown, page: Page) -> Result<Decided, Undecided>
    requires short { HasTextsUpTo most_page_bytes page }
    ensures outcome { EndsIn (page_stage page (text_shown shown.now)) result }
{
    let Page {
        width,
        grammar,
        schedule: _,
        document,
        edits: _,
    } = page;
    match grammar_of(alloc, width, grammar) {
        Ok(checked) => grammar_by_demand(alloc, shown, &checked, text_of(alloc, document)),
        Err(end) => Err(end),
    }
}

fn grammar_by_demand(
    alloc: Global,
    shown: &Shown,
    checked: &Checked,
    document: String,
) -> Result<Decided, Undecided>
    requires short { string_len document ≤ most_page_bytes }
    ensures outcome { EndsIn (grammar_stage checked.now (string_bytes document)
        (text_shown shown.now)) result }
{
    match noncircular_of(alloc, checked) {
        Ok(found) => document_by_demand(alloc, shown, checked, &found, document),
        Err(end) => Err(end),
    }
}

fn document_by_demand(
    alloc: Global,
    shown: &Shown,
    checked: &Checked,
    found: &Noncircular<'_>,
    document: String,
) -> Result<Decided, Undecided>
    requires grammar { found.now ≡ checked.now }
    requires short { string_len document ≤ most_page_bytes }
    ensures outcome { EndsIn (document_stage checked.now (string_bytes document)
        (text_shown shown.now)) result }
{
    match grown_tree_of(alloc, checked, document) {
        Ok(tree) => tree_by_demand(alloc, shown, checked, found, &tree),
        Err(end) => Err(end),
    }
}

fn tree_by_demand(
    alloc: Global,
    shown: &Shown,
    checked: &Checked,
    found: &Noncircular<'_>,
    tree: &Tree<'_>,
) -> Result<Decided, Undecided>
    requires grammar { found.now ≡ checked.now }
    requires tree { tree.now.checked ≡ checked.now }
    ensures outcome { EndsIn (shown_by (text_shown shown.now) checked.now tree.now.tree) result }
{
    let words = words_by_demand(alloc, checked, found, tree)?;
    Ok(table_shown(alloc, shown, tree, words.as_slice())?)
}

/// The words of the values that solve a tree.
fn words_by_demand(
    alloc: Global,
    checked: &Checked,
    found: &Noncircular<'_>,
    tree: &Tree<'_>,
) -> Result<Vec<u64>, AllocError>
    requires grammar { found.now ≡ checked.now }
    requires tree { tree.now.checked ≡ checked.now }
    ensures solved { IfOk result (λ v. IsSolvedBy tree.now v.items) }
{
    let programs = compile(alloc, checked)?;
    solve_by_demand(alloc, checked, found, &programs, tree)
}

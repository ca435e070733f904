//! Tables, shown.

ghost use Rattle.std.specs.Prelude.{◌≡◌, length, map, IfOk, if◌then◌else◌};
ghost use Rattle.ftl_answer.specs.answers.Answers.{boxes_and_touched, shown_answer, shown_by};
ghost use Rattle.ftl_answer.specs.answers.Stages.{ends};
ghost use Rattle.ftl_tree.specs.boxes.WordValues.{table_of_words, value_of_word};
ghost use Rattle.ftl_deps.specs.reads.Meant.{meant};
ghost use Rattle.ftl_meaning.specs.grammars.GrammarOf.{names_of};
ghost use Rattle.ftl_model.specs.layout.Boxes.{shows_overflow};
ghost use Rattle.ftl_model.specs.layout.Table.{instance_count};
ghost use Rattle.ftl_answer.specs.reading.sections.Outcomes.{answer_of};
ghost use Rattle.ftl_answer.specs.reading.requests.ShownTexts.{text_shown};
ghost use Rattle.ftl_demand.specs.demand.Solved.{IsSolvedBy};
ghost use Rattle.ftl_run.specs.calls.ShownTables.{text_by};

use ftl_answer::reading::{Decided, Shown, Status};
use ftl_answer::{print_summary, write_touched};
use ftl_tree::{Printed, Tree, print_boxes, shows_overflow, words_are_undone};
use std::alloc::{AllocError, Global};

/// The table of these words, shown.
#[inline(never)]
pub(crate) fn table_shown(
    alloc: Global,
    shown: &Shown,
    tree: &Tree<'_>,
    words: &[u64],
) -> Result<Decided, AllocError>
    requires solved { IsSolvedBy tree.now words.now }
    ensures outcome { IfOk result (λ d. shown_by (text_shown shown.now) tree.now.checked
        tree.now.tree (ends (answer_of d))) }
{
    words_are_undone();
    let Printed { text, overflows } = printed(alloc, shown, tree, words)?;
    let status = status_by(overflows);
    Ok(Decided { status, text })
}

/// The table of these words, shown with the number of instances that edits touched.
#[inline(never)]
pub(crate) fn change_shown(
    alloc: Global,
    tree: &Tree<'_>,
    words: &[u64],
    touched: u64,
) -> Result<Decided, AllocError>
    requires words { length words.now ≡ instance_count (meant tree.now.checked) tree.now.tree }
    ensures outcome { IfOk result (λ d. answer_of d ≡ shown_answer (boxes_and_touched touched)
        tree.now.checked tree.now.tree (map value_of_word words.now)) }
{
    let Printed {
        mut text,
        overflows,
    } = print_boxes(alloc, tree, words)?;
    let status = status_by(overflows);
    write_touched(&mut text, touched)?;
    Ok(Decided { status, text })
}

/// The text of the table of these words, and whether a shown value is Overflow.
fn printed(
    alloc: Global,
    shown: &Shown,
    tree: &Tree<'_>,
    words: &[u64],
) -> Result<Printed, AllocError>
    requires words { length words.now ≡ instance_count (meant tree.now.checked) tree.now.tree }
    ensures text { IfOk result (λ p. p.text.items
        ≡ text_by shown.now tree.now (table_of_words tree.now words.now)) }
    ensures overflows { IfOk result (λ p. p.overflows
        ≡ shows_overflow (names_of tree.now.checked.grammar) tree.now.tree
        (table_of_words tree.now words.now)) }
{
    match shown {
        Shown::Boxes => print_boxes(alloc, tree, words),
        Shown::Summary(name) => {
            let overflows = shows_overflow(alloc, tree, words)?;
            let text = print_summary(alloc, name.text().as_bytes(), tree, words)?;
            Ok(Printed { text, overflows })
        }
    }
}

/// The status of a table that was shown.
fn status_by(overflows: bool) -> Status
    ensures status { result.0 ≡ (if overflows then 8 else 0) }
{
    if overflows {
        Status::OVERFLOW
    } else {
        Status::DONE
    }
}

//! The page, section by section.

ghost use Rattle.std.specs.Prelude.{◌≡◌, is_some, option_map, string_bytes, IfOk, IfSome};
ghost use Rattle.ftl_edits.specs.meaning.Editable.{AreEditsOf};
ghost use Rattle.maugzeris.specs.pages.PageState.{tree_on};
ghost use Rattle.ftl_showing.specs.formats.Formats.{IsFormatOf, grammar_part, schedule_part};

use crate::formats::edits::push_edits;
use ftl_page_printing::{Parts, page_of_parts};
use maugzeris::{Edit, Page, Rules, Width};
use std::alloc::{AllocError, Global};

/// The sections of a page as its file has them, as far as they stay as they are.
#[derive(Drop)]
pub struct Source<'t> {
    pub width: Width,
    /// The name by which the page has its grammar, where that comes with the program.
    pub named: Option<String>,
    pub grammar: &'t str,
    /// Whether the page has a schedule that is not the automatic one, and edits.
    pub has_schedule: bool,
    pub has_edits: bool,
}

/// A page in canonical form; none where that would be no page, as where it is too long for one.
pub fn formatted(
    alloc: Global,
    source: &Source<'_>,
    rules: &Rules<'_>,
    page: &Page<'_>,
    edits: &[Edit],
) -> Result<Option<String>, AllocError>
    requires editable { AreEditsOf (tree_on page.now) edits.now }
    ensures page { IfOk result (λ text. IfSome text (λ t. IsFormatOf (is_some source.now.named)
        source.now.grammar.now source.now.has_schedule rules.now page.now (string_bytes t))) }
{
    let grammar = grammar_text(alloc, source, rules)?;
    let schedule = schedule_text(alloc, source.has_schedule, rules)?;
    let document = page.document(alloc)?;
    let edits = edits_text(alloc, source.has_edits, page, edits)?;
    let named = copy_of(alloc, &source.named)?;
    let parts = Parts {
        width: source.width,
        named,
        grammar,
        schedule,
        document,
        edits,
    };
    page_of_parts(alloc, &parts)
}

/// The grammar as it is where it is named, else its canonical text.
fn grammar_text(alloc: Global, source: &Source<'_>, rules: &Rules<'_>) -> Result<String, AllocError>
    ensures text { IfOk result (λ t. string_bytes t
        ≡ grammar_part (is_some source.now.named) source.now.grammar.now rules.now) }
{
    if source.named.is_some() {
        String::from_str(alloc, source.grammar)
    } else {
        rules.grammar().text(alloc)
    }
}

/// The canonical text of the schedule, where that is not the automatic one.
fn schedule_text(
    alloc: Global,
    has_schedule: bool,
    rules: &Rules<'_>,
) -> Result<Option<String>, AllocError>
    ensures text { IfOk result (λ t. option_map string_bytes t
        ≡ schedule_part has_schedule rules.now) }
{
    if has_schedule {
        Ok(Some(rules.schedule_text(alloc)?))
    } else {
        Ok(None)
    }
}

/// The text of the edits, where the page has some.
fn edits_text(
    alloc: Global,
    has_edits: bool,
    page: &Page<'_>,
    edits: &[Edit],
) -> Result<Option<String>, AllocError>
    requires editable { AreEditsOf (tree_on page.now) edits.now }
{
    if !has_edits {
        return Ok(None);
    }
    let mut out = String::new(alloc);
    push_edits(&mut out, page, edits)?;
    Ok(Some(out))
}

fn copy_of(alloc: Global, text: &Option<String>) -> Result<Option<String>, AllocError> {
    match text {
        Some(text) => Ok(Some(String::from_str(alloc, text.as_str())?)),
        None => Ok(None),
    }
}

//! The text of a page.

ghost use Rattle.std.specs.Prelude.{◌≡◌, string_bytes, IfOk, IfSome, IsTrue};
ghost use Rattle.ftl_base.specs.Widths.{greatest_of_width};
ghost use Rattle.ftl_tokens.specs.scanner.Tokenized.{IsGreatestNumber};
ghost use Rattle.ftl_page_printing.specs.pages.Pages.{HasParts, IsPageOf};

use crate::layout::{Manner, laid_out};
use crate::pages::alike::{are_same, have_same_tokens, is_same, scanned};
use crate::pages::parts::Parts;
use ftl_base::Width;
use ftl_page::{Need, Page, PageFault, split_page};
use std::alloc::{AllocError, Global};

/// The greatest number of grammars and schedules.
const GREATEST: u64 = 2147483647;

/// How many bytes a page has at most.
const MOST_BYTES: usize = 67108864;

/// The text of a page with these sections, each in lines that can be read. None where it would be
/// longer than a page, or no page with these sections, as where a text has a line that begins with
/// `%`.
pub fn page_of_parts(alloc: Global, parts: &Parts) -> Result<Option<String>, AllocError>
    ensures page { IfOk result (λ text. IfSome text (λ t. IsPageOf parts.now (string_bytes t))) }
{
    let text = page_text(alloc, parts)?;
    if is_page_of(alloc, parts, text.as_str())? {
        Ok(Some(text))
    } else {
        Ok(None)
    }
}

/// Whether a text is that of a page with these sections.
fn is_page_of(alloc: Global, parts: &Parts, text: &str) -> Result<bool, AllocError>
    ensures page { IfOk result (λ is. IsTrue is → IsPageOf parts.now text.now) }
{
    if text.len() > MOST_BYTES {
        return Ok(false);
    }
    let need = Need {
        schedule: true,
        document: true,
        edits: parts.edits.is_some(),
    };
    match split_page(alloc, text.as_bytes(), need) {
        Ok(page) => has_parts(alloc, parts, page),
        Err(PageFault::OutOfMemory) => Err(AllocError),
        Err(_) => Ok(false),
    }
}

/// Whether the sections of a page say what the parts do.
fn has_parts(alloc: Global, parts: &Parts, page: Page) -> Result<bool, AllocError>
    ensures has { IfOk result (λ has. IsTrue has → HasParts parts.now page) }
{
    let Page {
        width,
        grammar,
        schedule,
        document,
        edits,
    } = page;
    let greatest = greatest_of(parts.width);
    let same_grammar = have_same_tokens(alloc, grammar, parts.grammar.as_str(), GREATEST)?;
    let same_schedule = are_same(alloc, schedule, &parts.schedule, GREATEST)?;
    let same_document = is_same(alloc, document, parts.document.as_str(), greatest)?;
    let same_edits = are_same(alloc, edits, &parts.edits, greatest)?;
    Ok(width == parts.width && same_grammar && same_schedule && same_document && same_edits)
}

/// The greatest number of a width.
fn greatest_of(width: Width) -> u64
    ensures greatest { result ≡ greatest_of_width width }
    ensures one_of_two { IsGreatestNumber result }
{
    width.greatest_number()
}

/// The sections below their headings.
fn page_text(alloc: Global, parts: &Parts) -> Result<String, AllocError> {
    let mut out = String::new(alloc);
    out.push_str(opening(parts.width))?;
    push_grammar(alloc, &mut out, parts)?;
    push_schedule(alloc, &mut out, &parts.schedule)?;
    let greatest = greatest_of(parts.width);
    out.push_str("\n%document\n")?;
    push_laid_out(
        alloc,
        &mut out,
        parts.document.as_str(),
        greatest,
        Manner::Document,
    )?;
    if let Some(edits) = &parts.edits {
        out.push_str("\n%edits\n")?;
        out.push_str(edits.as_str())?;
    }
    Ok(out)
}

fn opening(width: Width) -> &'static str {
    match width {
        Width::Narrow => "%page 1\n",
        Width::Wide => "%page 2\n",
    }
}

fn push_grammar(alloc: Global, out: &mut String, parts: &Parts) -> Result<(), AllocError> {
    match &parts.named {
        Some(name) => {
            out.push_str("%grammar ")?;
            out.push_str(name.as_str())?;
            out.push_str("\n")
        }
        None => {
            out.push_str("%grammar\n")?;
            push_laid_out(
                alloc,
                out,
                parts.grammar.as_str(),
                GREATEST,
                Manner::Grammar,
            )
        }
    }
}

fn push_schedule(
    alloc: Global,
    out: &mut String,
    schedule: &Option<String>,
) -> Result<(), AllocError> {
    match schedule {
        Some(text) => {
            out.push_str("\n%schedule\n")?;
            push_laid_out(alloc, out, text.as_str(), GREATEST, Manner::Schedule)
        }
        None => out.push_str("\n%schedule auto\n"),
    }
}

/// Appends a text in lines; as it is where it has no tokens.
fn push_laid_out(
    alloc: Global,
    out: &mut String,
    text: &str,
    greatest: u64,
    manner: Manner,
) -> Result<(), AllocError>
    requires limit { IsGreatestNumber greatest }
{
    match scanned(alloc, String::from_str(alloc, text)?, greatest)? {
        Some(scanned) => {
            let laid = laid_out(alloc, scanned.tokenized(), manner)?;
            out.push_str(laid.as_str())
        }
        None => out.push_str(text),
    }
}

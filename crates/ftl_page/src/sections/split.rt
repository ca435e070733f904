//! The sections of a page, or its first fault.

ghost use Rattle.std.specs.Prelude.{◌≡◌, ◌+◌, ◌<◌, ◌≤◌, ◌^◌, ◌⊎◌, true, length, option_map, IfOk};
ghost use Rattle.ftl_model.specs.layout.Limits.{most_page_bytes};
ghost use Rattle.ftl_model.specs.layout.Outcome.{Gives};
ghost use Rattle.ftl_page.specs.declared.sections.fault.PageFault.TheVariants.{OutOfMemory};
ghost use Rattle.ftl_page.specs.declared.sections.fault.Section.TheVariants.{Grammar, Schedule};
ghost use Rattle.ftl_page.specs.declared.sections.fault.Section.TheVariants.{Document};
ghost use Rattle.ftl_page.specs.declared.sections.fault.Section.TheVariants.{Edits};
ghost use Rattle.ftl_page.specs.sections.Lines.{lines_of, is_heading};
ghost use Rattle.ftl_page.specs.sections.Opening.{width_of_line};
ghost use Rattle.ftl_page.specs.sections.Blocks.{blocks_of};
ghost use Rattle.ftl_page.specs.sections.Page.{page_of, page_of_text, page_of_lines, page_with};
ghost use Rattle.ftl_page.specs.sections.Page.{needed_text};
ghost use Rattle.ftl_page.specs.sections.Page.{needed_schedule};
ghost use Rattle.ftl_page.specs.sections.Texts.{HasTextsUpTo};
ghost use Rattle.ftl_page.specs.sections.Found.{found_in, given_text, SectionsGive};

use crate::sections::body::split_body;
use crate::sections::fault::{PageFault, Section};
use crate::sections::line::{is_heading, split_line};
use crate::sections::page::{Need, Page};
use crate::sections::section::{SectionText, Sections, no_stray};
use crate::sections::text::Text;
use crate::sections::words::width_of_opening;
use ftl_base::Width;
use std::alloc::Global;

// Goes as deep as the page has sections: each heading adds one, or is refused.
fn sections_of<'a>(
    sections: &Sections<'a>,
    number: u32,
    text: &'a str,
) -> Result<Sections<'a>, PageFault>
    requires bound { number + length text.now < 2 ^ 32 }
    requires heading { (length text.now ≡ 0) ⊎ (is_heading text.now ≡ true) }
    ensures sections { SectionsGive result sections.now (blocks_of number (lines_of text.now)) }
{
    if text.is_empty() {
        return Ok(*sections);
    }
    let (heading, after) = split_line(text);
    let body = split_body(after);
    let sections = sections.add(number, heading, body.text)?;
    sections_of(&sections, number + 1 + body.lines, body.rest)
}

// The text of a section that is needed, and none of one that isn't.
fn needed_text(
    alloc: Global,
    which: Section,
    needed: bool,
    found: Option<SectionText<'_>>,
) -> Result<Option<Text>, PageFault>
    ensures exact { Gives OutOfMemory (λ text. text) result
        (needed_text which needed (option_map given_text found.entry)) }
{
    match found {
        _ if !needed => Ok(None),
        Some(SectionText::Given(text)) => Ok(Some(Text::new(alloc, text)?)),
        _ => Err(PageFault::NoSection { which }),
    }
}

// The same of the schedule, which has no text where it is automatic.
fn needed_schedule(
    alloc: Global,
    needed: bool,
    found: Option<SectionText<'_>>,
) -> Result<Option<Text>, PageFault>
    ensures exact { Gives OutOfMemory (λ text. text) result
        (needed_schedule needed (option_map given_text found.entry)) }
{
    match found {
        _ if !needed => Ok(None),
        Some(SectionText::Given(text)) => Ok(Some(Text::new(alloc, text)?)),
        Some(SectionText::Automatic) => Ok(None),
        None => Err(PageFault::NoSection {
            which: Section::Schedule,
        }),
    }
}

fn page_of_sections(
    alloc: Global,
    width: Width,
    sections: &Sections<'_>,
    need: Need,
) -> Result<Page, PageFault>
    ensures exact { Gives OutOfMemory (λ page. page) result (page_with width need
        (found_in Grammar sections.now) (found_in Schedule sections.now)
        (found_in Document sections.now) (found_in Edits sections.now)) }
{
    let Some(SectionText::Given(grammar)) = sections.grammar else {
        return Err(PageFault::NoSection {
            which: Section::Grammar,
        });
    };
    let schedule = needed_schedule(alloc, need.schedule, sections.schedule)?;
    let document = needed_text(alloc, Section::Document, need.document, sections.document)?;
    let edits = needed_text(alloc, Section::Edits, need.edits, sections.edits)?;
    Ok(Page {
        width,
        grammar: Text::new(alloc, grammar)?,
        schedule,
        document,
        edits,
    })
}

/// The width of a page and the sections that a command needs. A body is the text after the
/// heading's line up to the next heading, and what is not needed is not read. A page has 64 MiB at
/// most, so that line numbers fit 32 bits.
pub fn split_page(alloc: Global, bytes: &[u8], need: Need) -> Result<Page, PageFault>
    requires limit { length bytes.now ≤ most_page_bytes }

    // The page, or its first fault.
    ensures exact { Gives OutOfMemory (λ page. page) result (page_of bytes.now need) }

    // What the tokens of each text ask.
    ensures short { IfOk result (λ page. HasTextsUpTo most_page_bytes page) }
{
    let Ok(text) = str::from_utf8(bytes) else {
        return Err(PageFault::NotText);
    };
    page_of_text(alloc, text, need)
}

fn width_of_line(line: &str) -> Option<Width>
    ensures width { result ≡ width_of_line line.now }
{
    if is_heading(line) {
        width_of_opening(line.as_bytes())
    } else {
        None
    }
}

fn page_of_text(alloc: Global, text: &str, need: Need) -> Result<Page, PageFault>
    requires limit { length text.now ≤ most_page_bytes }
    ensures exact { Gives OutOfMemory (λ page. page) result
        (page_of_text need (lines_of text.now)) }
{
    let (first, rest) = split_line(text);
    let Some(width) = width_of_line(first) else {
        return Err(PageFault::BadVersion);
    };
    page_of_lines(alloc, width, rest, need)
}

fn page_of_lines(alloc: Global, width: Width, text: &str, need: Need) -> Result<Page, PageFault>
    requires limit { length text.now ≤ most_page_bytes }
    ensures exact { Gives OutOfMemory (λ page. page) result
        (page_of_lines width need (lines_of text.now)) }
{
    let body = split_body(text);
    no_stray(2, body.text)?;
    let sections = sections_of(&Sections::new(), 2 + body.lines, body.rest)?;
    page_of_sections(alloc, width, &sections, need)
}

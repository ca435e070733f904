//! The sections of a page, as they are found.

ghost use Rattle.std.specs.Prelude.{◌≡◌, ◌+◌, ◌<◌, ◌^◌, ℕ, length, Some, None, is_some};
ghost use Rattle.std.specs.Prelude.{if◌then◌else◌};
ghost use Rattle.std.specs.Result.{result_err};
ghost use Rattle.ftl_page.specs.declared.sections.fault.Section.{Section};
ghost use Rattle.ftl_page.specs.sections.Lines.{lines_of, words_of};
ghost use Rattle.ftl_page.specs.sections.Blocks.{content_of, section_of};
ghost use Rattle.ftl_page.specs.sections.Page.{is_same, first_stray};
ghost use Rattle.ftl_page.specs.sections.Headings.{content};
ghost use Rattle.ftl_page.specs.sections.Found.{given_text, found_in, TextGives, AddGives};

use crate::sections::fault::{PageFault, Section};
use crate::sections::line::{is_stray, split_line};
use crate::sections::words::{Heading, heading_of};
use ftl_boxes::shipped_by_bytes;

/// The text of a section, as it is found.
#[derive(Clone, Copy, Debug)]
pub enum SectionText<'a> {
    Given(&'a str),
    /// The automatic schedule.
    Automatic,
}

/// The sections that were found.
#[derive(Clone, Copy, Debug)]
pub struct Sections<'a> {
    pub grammar: Option<SectionText<'a>>,
    pub schedule: Option<SectionText<'a>>,
    pub document: Option<SectionText<'a>>,
    pub edits: Option<SectionText<'a>>,
}

/// The fault of the first stray line, where the first line has this number.
pub fn no_stray(number: u32, text: &str) -> Result<(), PageFault>
    requires bound { number + length text.now < 2 ^ 32 }
    ensures stray { result_err result ≡ first_stray number (lines_of text.now) }
{
    let mut rest = text;
    let mut number = number;
    while !rest.is_empty() {
        let (line, after) = split_line(rest);
        if is_stray(line) {
            return Err(PageFault::StrayText { line: number });
        }
        number += 1;
        rest = after;
    }
    Ok(())
}

fn text_of_section<'a>(
    heading: Heading<'a>,
    number: u32,
    body: &'a str,
) -> Result<SectionText<'a>, PageFault>
    requires bound { number + 1 + length body.now < 2 ^ 32 }
    ensures text { TextGives result (content heading.entry) number (lines_of body.now) }
{
    match heading {
        Heading::Own(_) => Ok(SectionText::Given(body)),
        Heading::Named(name) => {
            let Some(text) = shipped_by_bytes(name) else {
                return Err(PageFault::UnknownShipped { line: number });
            };
            no_stray(number + 1, body)?;
            Ok(SectionText::Given(text))
        }
        Heading::Automatic => {
            no_stray(number + 1, body)?;
            Ok(SectionText::Automatic)
        }
    }
}

fn section_of(heading: Heading<'_>) -> Section
    ensures section { result ≡ section_of (content heading.entry) }
{
    match heading {
        Heading::Own(section) => section,
        Heading::Named(_) => Section::Grammar,
        Heading::Automatic => Section::Schedule,
    }
}

impl<'a> Sections<'a> {
    pub fn new() -> Sections<'a>
        ensures none { (s : Section) → found_in s result ≡ None }
    {
        Sections {
            grammar: None,
            schedule: None,
            document: None,
            edits: None,
        }
    }

    fn has(&self, which: Section) -> bool
        ensures found { result ≡ is_some (found_in which self.now) }
    {
        match which {
            Section::Grammar => self.grammar.is_some(),
            Section::Schedule => self.schedule.is_some(),
            Section::Document => self.document.is_some(),
            Section::Edits => self.edits.is_some(),
        }
    }

    fn with(&self, which: Section, text: SectionText<'a>) -> Sections<'a>
        ensures added { (s : Section) → found_in s result
            ≡ (if is_same s which then Some (given_text text.entry) else found_in s self.now) }
    {
        match which {
            Section::Grammar => Sections {
                grammar: Some(text),
                ..*self
            },
            Section::Schedule => Sections {
                schedule: Some(text),
                ..*self
            },
            Section::Document => Sections {
                document: Some(text),
                ..*self
            },
            Section::Edits => Sections {
                edits: Some(text),
                ..*self
            },
        }
    }

    /// These sections and that of a heading with the text after it, or the fault of these lines.
    pub fn add(
        &self,
        number: u32,
        heading: &'a str,
        body: &'a str,
    ) -> Result<Sections<'a>, PageFault>
        requires bound { number + 1 + length body.now < 2 ^ 32 }
        ensures added { AddGives result self.now
            (content_of (words_of heading.now)) number (lines_of body.now) }
    {
        let Some(heading) = heading_of(heading.as_bytes()) else {
            return Err(PageFault::UnknownSection { line: number });
        };
        let which = section_of(heading);
        if self.has(which) {
            return Err(PageFault::SectionTwice {
                which,
                line: number,
            });
        }
        let text = text_of_section(heading, number, body)?;
        Ok(self.with(which, text))
    }
}

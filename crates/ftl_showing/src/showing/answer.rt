//! What comes of a file.

ghost use Rattle.std.specs.Prelude.{◌≡◌, ◌<◌, IfOk};
ghost use Rattle.std.specs.String.{string_bytes};
ghost use Rattle.ftl_model.specs.layout.Tree.{size};
ghost use Rattle.maugzeris.specs.pages.PageState.{HasAttribute, IsLaidOut};
ghost use Rattle.ftl_showing.specs.lines.Details.{node_lines};
ghost use Rattle.ftl_showing.specs.lines.Whys.{IsWhyText};

use crate::drawing::drawn_page;
use crate::formats::{Source, formatted};
use crate::html::{refused_html, shown_html};
use crate::lines::{Style, node_lines, styled, tree_text, why_text};
use crate::showing::texts::{Texts, grammar_name, has_edits, texts_of};
use crate::showing::told::{page_told, refusal_told};
use crate::words::{View, Why};
use ftl_answer::reading::{Decided, Undecided};
use ftl_refusals::Spot;
use maugzeris::{Grammar, Page, Rules, Status};
use std::alloc::{AllocError, Global};

/// A file: its name and its bytes.
#[derive(Clone, Copy)]
pub struct File<'f> {
    pub name: &'f str,
    pub bytes: &'f [u8],
}

impl<'f> File<'f> {
    /// Its text; none at all where its bytes are no text.
    pub fn text(&self) -> &'f str {
        str::from_utf8(self.bytes).unwrap_or("")
    }
}

/// What comes of a file.
#[derive(Drop)]
pub enum Answer {
    /// The text is written. The status is that of an Overflow where a shown value is one.
    Shown {
        status: Status,
        text: String,
    },
    /// The page is refused; the text is told. `html` is written, where that was asked for.
    Refused {
        status: Status,
        text: String,
        spot: Option<Spot>,
        html: Option<String>,
    },
    /// The page has so many nodes, and not the one that is asked for.
    NoNode {
        count: u32,
    },
    /// The node does not have the attribute that is asked for, but these.
    NoAttribute {
        names: String,
    },
}

/// What comes of a file.
pub fn answer_to(
    alloc: Global,
    file: File<'_>,
    view: View<'_>,
    style: Style,
) -> Result<Answer, AllocError> {
    let answer = answer_of_file(alloc, file, view, style)?;
    match view {
        View::Html(_) => with_html(alloc, file, answer),
        _ => Ok(answer),
    }
}

/// The answer, where it refuses the page with that as HTML.
fn with_html(alloc: Global, file: File<'_>, answer: Answer) -> Result<Answer, AllocError> {
    match answer {
        Answer::Refused {
            status,
            text,
            spot,
            html: _,
        } => {
            let html = refused_html(alloc, file.name, file.text(), spot, text.as_str())?;
            Ok(Answer::Refused {
                status,
                text,
                spot,
                html: Some(html),
            })
        }
        other => Ok(other),
    }
}

fn answer_of_file(
    alloc: Global,
    file: File<'_>,
    view: View<'_>,
    style: Style,
) -> Result<Answer, AllocError> {
    match texts_of(alloc, file.bytes, is_format(view)) {
        Ok(texts) => answer_of_texts(alloc, file, &texts, view, style),
        Err(Undecided::Refused(Decided { status, text })) => {
            page_told(alloc, file, status, text.as_slice())
        }
        Err(Undecided::OutOfMemory) => Err(AllocError),
    }
}

fn answer_of_texts(
    alloc: Global,
    file: File<'_>,
    texts: &Texts,
    view: View<'_>,
    style: Style,
) -> Result<Answer, AllocError> {
    match Grammar::new(alloc, texts.grammar.as_str(), texts.width) {
        Ok(grammar) => answer_of_grammar(alloc, file, texts, &grammar, view, style),
        Err(refusal) => refusal_told(alloc, file, texts, &refusal),
    }
}

fn answer_of_grammar(
    alloc: Global,
    file: File<'_>,
    texts: &Texts,
    grammar: &Grammar,
    view: View<'_>,
    style: Style,
) -> Result<Answer, AllocError> {
    match Rules::new(alloc, grammar, texts.schedule_text()) {
        Ok(rules) => answer_of_rules(alloc, file, texts, &rules, view, style),
        Err(refusal) => refusal_told(alloc, file, texts, &refusal),
    }
}

fn answer_of_rules(
    alloc: Global,
    file: File<'_>,
    texts: &Texts,
    rules: &Rules<'_>,
    view: View<'_>,
    style: Style,
) -> Result<Answer, AllocError> {
    match Page::new(alloc, rules, texts.document.as_str()) {
        Ok(page) if is_format(view) => answer_of_format(alloc, file, texts, rules, &page),
        Ok(page) => answer_of_page(alloc, file, page, view, style),
        Err(refusal) => refusal_told(alloc, file, texts, &refusal),
    }
}

fn answer_of_format(
    alloc: Global,
    file: File<'_>,
    texts: &Texts,
    rules: &Rules<'_>,
    page: &Page<'_>,
) -> Result<Answer, AllocError> {
    match page.edits_of(alloc, texts.edits.as_str()) {
        Ok(edits) => {
            let source = source_of(alloc, file, texts)?;
            let text = match formatted(alloc, &source, rules, page, edits.as_slice())? {
                Some(text) => text,
                None => String::from_str(alloc, file.text())?,
            };
            let status = Status::DONE;
            Ok(Answer::Shown { status, text })
        }
        Err(refusal) => refusal_told(alloc, file, texts, &refusal),
    }
}

fn source_of<'t>(
    alloc: Global,
    file: File<'_>,
    texts: &'t Texts,
) -> Result<Source<'t>, AllocError> {
    let named = match grammar_name(file.text()) {
        Some(name) => Some(String::from_str(alloc, name)?),
        None => None,
    };
    Ok(Source {
        width: texts.width,
        named,
        grammar: texts.grammar.as_str(),
        has_schedule: texts.schedule.is_some(),
        has_edits: has_edits(file.bytes),
    })
}

fn is_format(view: View<'_>) -> bool {
    match view {
        View::Format => true,
        _ => false,
    }
}

fn answer_of_page(
    alloc: Global,
    file: File<'_>,
    page: Page<'_>,
    view: View<'_>,
    style: Style,
) -> Result<Answer, AllocError> {
    let mut page = page;
    page.lay_out(alloc)?;
    answer_of_values(alloc, file, &page, view, style)
}

fn answer_of_values(
    alloc: Global,
    file: File<'_>,
    page: &Page<'_>,
    view: View<'_>,
    style: Style,
) -> Result<Answer, AllocError>
    requires laid_out { IsLaidOut page.now }
{
    let text = match view {
        View::Tree(fields) => styled(alloc, tree_text(alloc, page, fields)?, style)?,
        View::Drawing(how) => drawn_page(alloc, page, how)?,
        View::Html(how) => shown_html(alloc, file.name, file.text(), page, how)?,
        View::Node(node) => return answer_of_node(alloc, page, node, style),
        View::Why(why) => return answer_of_why(alloc, page, why, style),
        View::Format => return Ok(no_node(page)),
    };
    shown(alloc, page, text)
}

/// The answer that shows this text of a page.
fn shown(alloc: Global, page: &Page<'_>, text: String) -> Result<Answer, AllocError>
    requires laid_out { IsLaidOut page.now }
{
    let status = if page.shows_overflow(alloc)? {
        Status::OVERFLOW
    } else {
        Status::DONE
    };
    Ok(Answer::Shown { status, text })
}

fn no_node(page: &Page<'_>) -> Answer {
    Answer::NoNode {
        count: page.node_count(),
    }
}

fn answer_of_node(
    alloc: Global,
    page: &Page<'_>,
    node: u32,
    style: Style,
) -> Result<Answer, AllocError>
    requires laid_out { IsLaidOut page.now }
{
    if node >= page.node_count() {
        return Ok(no_node(page));
    }
    let text = styled(alloc, node_text(alloc, page, node)?, style)?;
    shown(alloc, page, text)
}

fn answer_of_why(
    alloc: Global,
    page: &Page<'_>,
    why: Why<'_>,
    style: Style,
) -> Result<Answer, AllocError>
    requires laid_out { IsLaidOut page.now }
{
    let Why { node, name, lines } = why;
    if node >= page.node_count() {
        return Ok(no_node(page));
    }
    let Some(attr) = page.find_attribute(node, name) else {
        return no_attribute(alloc, page, node);
    };
    let text = styled(alloc, text_of_why(alloc, page, node, attr, lines)?, style)?;
    shown(alloc, page, text)
}

/// A node with all that it has.
fn node_text(alloc: Global, page: &Page<'_>, node: u32) -> Result<String, AllocError>
    requires laid_out { IsLaidOut page.now }
    requires node { node < size page.now.tree }
    ensures text { IfOk result (λ t. string_bytes t ≡ node_lines page.now node) }
{
    let reads = page.reads(alloc)?;
    node_lines(alloc, page, &reads, node)
}

/// Where the value of an attribute comes from.
fn text_of_why(
    alloc: Global,
    page: &Page<'_>,
    node: u32,
    attr: u32,
    lines: u32,
) -> Result<String, AllocError>
    requires laid_out { IsLaidOut page.now }
    requires node { node < size page.now.tree }
    requires attribute { HasAttribute page.now node attr }
    ensures text { IfOk result (λ t. IsWhyText page.now (string_bytes t)) }
{
    let reads = page.reads(alloc)?;
    let instance = page.instance(node, attr);
    why_text(alloc, page, &reads, instance, lines)
}

/// The answer where a node has no attribute of the name that is asked for.
fn no_attribute(alloc: Global, page: &Page<'_>, node: u32) -> Result<Answer, AllocError>
    requires node { node < size page.now.tree }
{
    let mut names = String::new(alloc);
    for attr in page.attributes(node) {
        names.push_str(" ")?;
        names.push_str(page.attribute_name(node, *attr))?;
    }
    Ok(Answer::NoAttribute { names })
}

//! Texts read into a context, and pages freed.

ghost use Rattle.std.specs.Prelude.{◌≡◌, ◌++◌, ◌∷◌, [], Some, IfErr, IfOk, OnErr, length};
ghost use Rattle.maugzeris.specs.pages.PageState.{page_read};
ghost use Rattle.maugzeris.specs.refusals.Answers.{Answers};
ghost use Rattle.maugzeris_c.specs.context.Opening.{AddsGrammar, AddsPage, AddsRules, ClosesPage};
ghost use Rattle.maugzeris_c.specs.context.Opening.{OpensGrammar, OpensPage, OpensRules, Refuses};
ghost use Rattle.maugzeris_c.specs.context.Opening.{width_of, written};
ghost use Rattle.maugzeris_c.specs.context.Texts.{document_bytes, grammar_bytes, schedule_bytes};
ghost use Rattle.maugzeris_c.specs.context.Texts.{utf8_text};
ghost use Rattle.maugzeris_c.specs.declared.context.fault.Fault.TheVariants as fault;

use crate::context::entries::Context;
use crate::context::fault::Fault;
use crate::context::kept::{KeptGrammar, KeptRules};
use crate::context::open_page::OpenPage;
use maugzeris::{Grammar, InstanceList, Page, Refusal, Rules, Status, Width};
use std::alloc::Global;

impl Context {
    /// Reads a grammar in a width, and gives its number.
    pub(crate) fn open_grammar(
        &mut self,
        alloc: Global,
        bytes: &[u8],
        width: u32,
    ) -> Result<u32, Fault>
        ensures opens { OpensGrammar self.old self.new bytes.now width result }
    {
        let Some(width) = width_of(width) else {
            return Err(Fault::Wrong);
        };
        match grammar_of(alloc, bytes, width) {
            Ok(grammar) => self.add_grammar(alloc, grammar),
            Err(refusal) => Err(self.refuse(refusal)),
        }
    }

    /// Reads a schedule of a grammar, or finds one, and gives the number of the rules.
    pub(crate) fn open_rules(
        &mut self,
        alloc: Global,
        grammar: u32,
        automatic: bool,
        bytes: &[u8],
    ) -> Result<u32, Fault>
        ensures opens { OpensRules self.old self.new grammar (written automatic bytes.now) result }
    {
        let Some(kept) = self.grammars.as_slice().get(grammar as usize) else {
            return Err(Fault::Wrong);
        };
        match rules_of(alloc, kept.get(), automatic, bytes) {
            Ok(rules) => self.add_rules(alloc, rules),
            Err(refusal) => Err(self.refuse(refusal)),
        }
    }

    /// Reads a document by some rules, and gives the number of its page.
    pub(crate) fn open_page(
        &mut self,
        alloc: Global,
        rules: u32,
        bytes: &[u8],
    ) -> Result<u32, Fault>
        ensures opens { OpensPage self.old self.new rules bytes.now result }
    {
        let Some(kept) = self.rules.as_slice().get(rules as usize) else {
            return Err(Fault::Wrong);
        };
        match page_of(alloc, kept.get(), bytes) {
            Ok(page) => self.add_page(alloc, page),
            Err(refusal) => Err(self.refuse(refusal)),
        }
    }

    /// Frees a page. Its number names none from then on.
    pub(crate) fn close_page(&mut self, page: u32) -> Result<(), Fault>
        ensures closes { ClosesPage self.old self.new page result }
    {
        let page = page as usize;
        match self.pages.as_slice().get(page) {
            Some(Some(_)) => {
                self.pages[page] = None;
                Ok(())
            }
            _ => Err(Fault::Wrong),
        }
    }

    /// Adds a grammar, and gives its number.
    fn add_grammar(&mut self, alloc: Global, grammar: Grammar) -> Result<u32, Fault>
        ensures added { IfOk result (λ n. AddsGrammar self.old self.new n grammar) }
        ensures memory { IfErr result (λ e. e ≡ fault.OutOfMemory) }
        ensures unchanged { OnErr result (self.new ≡ self.old) }
    {
        let number = next_number(self.grammars.len())?;
        self.grammars.reserve(1)?;
        let kept = KeptGrammar::new(alloc, grammar)?;
        self.grammars.push(kept)?;
        Ok(number)
    }

    /// Adds rules, and gives their number.
    fn add_rules(&mut self, alloc: Global, rules: Rules<'static>) -> Result<u32, Fault>
        ensures added { IfOk result
            (λ n. AddsRules self.old self.new rules.entry.checked n rules.entry.schedule) }
        ensures memory { IfErr result (λ e. e ≡ fault.OutOfMemory) }
        ensures unchanged { OnErr result (self.new ≡ self.old) }
    {
        let number = next_number(self.rules.len())?;
        self.rules.reserve(1)?;
        let kept = KeptRules::new(alloc, rules)?;
        self.rules.push(kept)?;
        Ok(number)
    }

    /// Adds a page, and gives its number.
    fn add_page(&mut self, alloc: Global, page: Page<'static>) -> Result<u32, Fault>
        ensures number { IfOk result (λ n. n ≡ length self.old.pages) }
        ensures added { IfOk result (λ _. self.new ≡ record self.old {
          pages = self.old.pages ++ Some (record { page = page.entry; touched = [] }) ∷ [];
        }) }
        ensures memory { IfErr result (λ e. e ≡ fault.OutOfMemory) }
        ensures unchanged { OnErr result (self.new ≡ self.old) }
    {
        let number = next_number(self.pages.len())?;
        self.pages.push(Some(OpenPage {
            page,
            touched: InstanceList::new(alloc),
        }))?;
        Ok(number)
    }

    /// Keeps the line of a refusal.
    fn refuse(&mut self, refusal: Refusal) -> Fault
        ensures refuses { Refuses self.old self.new refusal result }
    {
        match refusal {
            Refusal::OutOfMemory => Fault::OutOfMemory,
            Refusal::Refused { status, line } => {
                self.refusal = line;
                Fault::Refused(status)
            }
        }
    }
}

/// The width of a number.
fn width_of(width: u32) -> Option<Width>
    ensures width { result ≡ width_of width }
{
    match width {
        0 => Some(Width::Narrow),
        1 => Some(Width::Wide),
        _ => None,
    }
}

/// The number of the next item of a list.
fn next_number(count: usize) -> Result<u32, Fault>
    ensures number { IfOk result (λ n. n ≡ count) }
    ensures memory { IfErr result (λ e. e ≡ fault.OutOfMemory) }
{
    match u32::try_from(count) {
        Ok(number) => Ok(number),
        Err(_) => Err(Fault::OutOfMemory),
    }
}

/// The text of some bytes.
fn text_of(alloc: Global, bytes: &[u8]) -> Result<&str, Refusal>
    ensures outcome { Answers (utf8_text bytes.now) (λ t. t.now) result }
{
    match str::from_utf8(bytes) {
        Ok(text) => Ok(text),
        Err(_) => {
            let mut line = Vec::new(alloc);
            match line.extend_from_slice(b"refused page: not UTF-8\n") {
                Ok(()) => Err(Refusal::Refused {
                    status: Status::PAGE_REFUSED,
                    line,
                }),
                Err(_) => Err(Refusal::OutOfMemory),
            }
        }
    }
}

/// The grammar of some bytes.
fn grammar_of(alloc: Global, bytes: &[u8], width: Width) -> Result<Grammar, Refusal>
    ensures outcome { Answers (grammar_bytes width bytes.now) (λ g. g) result }
{
    match text_of(alloc, bytes) {
        Ok(text) => Grammar::new(alloc, text, width),
        Err(refusal) => Err(refusal),
    }
}

/// A grammar with the schedule of some bytes, or with the automatic one.
fn rules_of(
    alloc: Global,
    grammar: &'static Grammar,
    automatic: bool,
    bytes: &[u8],
) -> Result<Rules<'static>, Refusal>
    ensures outcome { Answers (schedule_bytes grammar.now (written automatic bytes.now))
        (λ r. r.schedule) result }
    ensures grammar { IfOk result (λ r. r.checked ≡ grammar.now) }
{
    if automatic {
        return Rules::new(alloc, grammar, None);
    }
    match text_of(alloc, bytes) {
        Ok(text) => Rules::new(alloc, grammar, Some(text)),
        Err(refusal) => Err(refusal),
    }
}

/// The page of some bytes.
fn page_of(
    alloc: Global,
    rules: &'static Rules<'static>,
    bytes: &[u8],
) -> Result<Page<'static>, Refusal>
    ensures outcome { Answers (document_bytes rules.now bytes.now) (λ p. p.tree) result }
    ensures read { IfOk result (λ p. p ≡ page_read rules.now p.tree) }
{
    match text_of(alloc, bytes) {
        Ok(text) => Page::new(alloc, rules, text),
        Err(refusal) => Err(refusal),
    }
}

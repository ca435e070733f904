//! Contexts, and the texts that are read into them.

ghost use Rattle.std.specs.Prelude.{◌≡◌, ◌≢◌, None, Some};
ghost use Rattle.maugzeris_c.specs.context.Opening.{ClosesPage, OpensGrammar, OpensPage};
ghost use Rattle.maugzeris_c.specs.context.Opening.{OpensRules, written};
ghost use Rattle.maugzeris_c.specs.context.Outcome.{Ends, Tells};
ghost use Rattle.maugzeris_c.specs.context.State.{nothing};
ghost use Rattle.maugzeris_c.specs.kept.OnContext.{OnContext, context_in};

use crate::calls::{NONE, status_of, told};
use crate::context::Context;
use crate::kept::Held;
use std::alloc::Global;

/// Makes a context. One that is there stays, with status 11.
#[unsafe(no_mangle)]
pub extern "C" fn maugzeris_context_new(alloc: Global, held: &mut Held) -> u32
    ensures there { held.old.live ≡ 1 → (result ≡ 11) × (held.new ≡ held.old) }
    ensures made { held.old.live ≢ 1 → result ≢ 9
        → (result ≡ 0) × (context_in held.new ≡ Some nothing) }
    ensures unchanged { result ≢ 0 → held.new ≡ held.old }
{
    if held.is_live() {
        return NONE;
    }
    match Box::new(alloc, Context::new(alloc)) {
        Ok(context) => {
            held.put(context);
            0
        }
        Err(_) => 9,
    }
}

/// Frees a context with its pages. None is left, so that a second call has status 11.
#[unsafe(no_mangle)]
pub extern "C" fn maugzeris_context_free(alloc: Global, held: &mut Held) -> u32
    ensures there { held.old.live ≡ 1 → (result ≡ 0) × ((held.new.live ≡ 0)
        × (held.new.owner.value ≡ None)) }
    ensures none { held.old.live ≢ 1 → (result ≡ 11) × (held.new ≡ held.old) }
{
    match held.take(alloc) {
        None => NONE,
        Some(context) => {
            drop(context);
            0
        }
    }
}

/// Reads a grammar in a width, 0 the narrow one and 1 the wide one.
#[unsafe(no_mangle)]
pub extern "C" fn maugzeris_grammar_new(
    alloc: Global,
    held: &mut Held,
    text: &[u8],
    width: u32,
    grammar: &mut u32,
) -> u32
    ensures call { OnContext held.old held.new result (λ old new.
        Tells result grammar.old grammar.new (OpensGrammar old new text.now width)) }
    ensures none { held.old.live ≢ 1 → grammar.new ≡ grammar.old }
{
    let Some(mut context) = held.take(alloc) else {
        return NONE;
    };
    let done = context.open_grammar(alloc, text, width);
    held.put(context);
    told(done, grammar)
}

/// Reads a schedule of a grammar; with `automatic` the text counts for nothing, and a schedule is
/// found.
#[unsafe(no_mangle)]
pub extern "C" fn maugzeris_rules_new(
    alloc: Global,
    held: &mut Held,
    grammar: u32,
    automatic: bool,
    schedule: &[u8],
    rules: &mut u32,
) -> u32
    ensures call { OnContext held.old held.new result (λ old new.
        Tells result rules.old rules.new
        (OpensRules old new grammar (written automatic schedule.now))) }
    ensures none { held.old.live ≢ 1 → rules.new ≡ rules.old }
{
    let Some(mut context) = held.take(alloc) else {
        return NONE;
    };
    let done = context.open_rules(alloc, grammar, automatic, schedule);
    held.put(context);
    told(done, rules)
}

/// Reads a document by some rules.
#[unsafe(no_mangle)]
pub extern "C" fn maugzeris_page_new(
    alloc: Global,
    held: &mut Held,
    rules: u32,
    document: &[u8],
    page: &mut u32,
) -> u32
    ensures call { OnContext held.old held.new result (λ old new.
        Tells result page.old page.new (OpensPage old new rules document.now)) }
    ensures none { held.old.live ≢ 1 → page.new ≡ page.old }
{
    let Some(mut context) = held.take(alloc) else {
        return NONE;
    };
    let done = context.open_page(alloc, rules, document);
    held.put(context);
    told(done, page)
}

/// Frees a page. Its number names none from then on.
#[unsafe(no_mangle)]
pub extern "C" fn maugzeris_page_free(alloc: Global, held: &mut Held, page: u32) -> u32
    ensures call { OnContext held.old held.new result (λ old new.
        Ends result (ClosesPage old new page)) }
{
    let Some(mut context) = held.take(alloc) else {
        return NONE;
    };
    let done = context.close_page(page);
    held.put(context);
    status_of(done)
}

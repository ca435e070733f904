//! What is answered of a grammar's text. The grammar is held here alone: all else is lent it.

use crate::documents::way::Way;
use crate::documents::write_document;
use crate::found::write_all_found;
use crate::names::{write_attribute_names, write_rule_names};
use crate::numbers::{write_attributes, write_classes};
use crate::reads::write_rules;
use crate::requests::write_indexed;
use crate::schedules::write_schedules;
use ftl_base::Width;
use ftl_checked::Checked;
use ftl_grammar_texts::grammar_of_text;
use std::alloc::{AllocError, Global};

/// What is wanted of a grammar.
#[derive(Clone, Copy)]
pub(crate) enum Wanted {
    Found,
    Names,
    Rules,
    Whole,
    Schedules,
    Requests(Width),
    Document(Way),
}

/// What a word asks for.
pub(crate) fn wanted_by(word: &str) -> Wanted {
    match word {
        "found" => Wanted::Found,
        "names" => Wanted::Names,
        "rules" => Wanted::Rules,
        "whole" => Wanted::Whole,
        "schedules" => Wanted::Schedules,
        "wide" => Wanted::Requests(Width::Wide),
        _ => Wanted::Requests(Width::Narrow),
    }
}

/// The width of numbers.
fn width_of(wanted: Wanted) -> Width {
    match wanted {
        Wanted::Requests(width) => width,
        Wanted::Document(Way::Wide) => Width::Wide,
        _ => Width::Narrow,
    }
}

/// What is wanted of the grammar that the text spells.
pub(crate) fn write_answers(
    out: &mut String,
    alloc: Global,
    wanted: Wanted,
    text: &str,
    body: &str,
) -> Result<(), AllocError> {
    match grammar_of_text(alloc, text, width_of(wanted))? {
        Some(checked) => write_wanted(out, alloc, wanted, &checked, body),
        None => out.push_str("no lawful grammar\n"),
    }
}

fn write_wanted(
    out: &mut String,
    alloc: Global,
    wanted: Wanted,
    checked: &Checked,
    body: &str,
) -> Result<(), AllocError> {
    match wanted {
        Wanted::Found => write_all_found(out, checked, body),
        Wanted::Names => write_attribute_names(out, checked),
        Wanted::Rules => write_rule_names(out, alloc, checked),
        Wanted::Whole => write_whole(out, alloc, checked),
        Wanted::Schedules => write_schedules(out, alloc, checked, body),
        Wanted::Requests(_) => write_indexed(out, alloc, checked, body),
        Wanted::Document(way) => write_document(alloc, out, way, checked, body),
    }
}

fn write_whole(out: &mut String, alloc: Global, checked: &Checked) -> Result<(), AllocError> {
    write_attributes(out, checked)?;
    write_classes(out, checked)?;
    write_rules(out, alloc, checked)
}

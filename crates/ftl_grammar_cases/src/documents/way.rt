//! The ways in which a case asks.

use crate::repeated::push_repeated;
use std::alloc::{AllocError, Global};

/// How a case gives its document, and what of it is printed.
#[derive(Clone, Copy)]
pub(crate) enum Way {
    /// As it stands.
    Plain,
    /// As it stands, with numbers of the wide width.
    Wide,
    /// Each front of it.
    Cut,
    /// By pieces that come several times; of its tree only the counts are printed.
    Built,
    /// With numbers that its inputs are set to; only the text of the tree is printed.
    Set,
    /// As it stands; the tree that is printed has its rows, and each input 0.
    Bare,
    /// As it stands; of its tree the first instances of all nodes and of their kids are printed.
    Instances,
    /// With each of its characters changed; printed are those whose tree is read otherwise from
    /// bytes than from tokens, and whether one pass takes the document as it stands.
    Changed,
    /// That of a sample, whose grammar and pieces are told; printed is whether one pass takes it.
    Sample,
    /// With edits and a bound; printed are the instances that the edits touch, and whether code was
    /// run no more often than the bound says.
    Relaid,
}

/// The way that a word of a title asks for.
pub(crate) fn way_of(word: &str) -> Way {
    if word == "wide" {
        Way::Wide
    } else if word == "cut" {
        Way::Cut
    } else if word == "built" {
        Way::Built
    } else if word == "set" {
        Way::Set
    } else if word == "bare" {
        Way::Bare
    } else if word == "instances" {
        Way::Instances
    } else if word == "changed" {
        Way::Changed
    } else if word == "sample" {
        Way::Sample
    } else if word == "relaid" {
        Way::Relaid
    } else {
        Way::Plain
    }
}

/// The document of some lines, each with how often its text comes, with a space behind.
pub(crate) fn built(alloc: Global, lines: &str) -> Result<String, AllocError> {
    let mut document = String::new(alloc);
    for line in lines.lines() {
        push_repeated(&mut document, line, " ")?;
    }
    Ok(document)
}

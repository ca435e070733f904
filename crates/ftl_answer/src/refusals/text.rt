//! Faults of texts.

ghost use Rattle.std.specs.Prelude.{◌≡◌, ◌++◌, OnOk};
ghost use Rattle.ftl_answer.specs.refusals.TextLines.{at_byte, refused, syntax_line, token_line};

use crate::refusals::names::section_name;
use crate::refusals::pieces::{number, text};
use ftl_grammar::SyntaxFault;
use ftl_page::Section;
use ftl_tokens::TokenFault;
use std::alloc::AllocError;

/// Adds the line of the first fault of the tokens of a section.
pub fn write_token_fault(
    out: &mut Vec<u8>,
    section: Section,
    fault: TokenFault,
) -> Result<(), AllocError>
    ensures line { OnOk result (out.new.items ≡ out.old.items ++ token_line section fault) }
{
    match fault {
        TokenFault::BadChar { at } => at_byte(out, section, "bad character", at),
        TokenFault::NumberTooLarge { at } => at_byte(out, section, "number too large", at),
        TokenFault::OutOfMemory => Ok(()),
    }
}

/// Adds the line of the fault of the tokens of a grammar.
pub fn write_syntax_fault(out: &mut Vec<u8>, fault: SyntaxFault) -> Result<(), AllocError>
    ensures line { OnOk result (out.new.items ≡ out.old.items ++ syntax_line fault) }
{
    match fault {
        SyntaxFault::TooDeep { at } => at_byte(out, Section::Grammar, "too deep", at),
        SyntaxFault::Syntax { at } => at_byte(out, Section::Grammar, "syntax", at),
        SyntaxFault::OutOfMemory => Ok(()),
    }
}

/// Adds what is wrong with a section, and the byte of its text at which it is.
pub(crate) fn at_byte(
    out: &mut Vec<u8>,
    section: Section,
    what: &str,
    at: u32,
) -> Result<(), AllocError>
    ensures line { OnOk result (out.new.items ≡ out.old.items ++ at_byte section what.now at) }
{
    refused(out, section)?;
    text(out, what)?;
    text(out, " at ")?;
    number(out, at)
}

fn refused(out: &mut Vec<u8>, section: Section) -> Result<(), AllocError>
    ensures line { OnOk result (out.new.items ≡ out.old.items ++ refused section) }
{
    text(out, "refused ")?;
    text(out, section_name(section))?;
    text(out, ": ")
}

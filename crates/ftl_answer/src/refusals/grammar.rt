//! Faults of grammars.

ghost use Rattle.std.specs.Prelude.{◌≡◌, ◌++◌, OnOk, codes};
ghost use Rattle.std.specs.Fmt.{decimal};
ghost use Rattle.ftl_answer.specs.refusals.GrammarLines.{grammar_line, what_text};
ghost use Rattle.ftl_answer.specs.refusals.Names.{read_text, rule_text};

use crate::refusals::names::{around_rule, read};
use crate::refusals::pieces::{around, named_number, two};
use ftl_checked::{GrammarFault, ReadName, RuleName, What};
use std::alloc::AllocError;

/// Adds the line of a grammar's first fault.
pub fn write_grammar_fault(out: &mut Vec<u8>, fault: &GrammarFault) -> Result<(), AllocError>
    ensures line { OnOk result (out.new.items ≡ out.old.items ++ grammar_line fault.now) }
{
    match fault {
        GrammarFault::TooMany { what, count } => too_many(out, *what, *count),
        GrammarFault::TwiceNamed { name } => {
            around(out, "refused grammar: name ", name.text(), " twice")
        }
        GrammarFault::RootMissing { name } => {
            around(
                out,
                "refused grammar: root ",
                name.text(),
                " is no interface",
            )
        }
        GrammarFault::UnknownName { name } => {
            two(out, "refused grammar: unknown name ", name.text())
        }
        GrammarFault::RootInherits { name } => {
            around(out, "refused grammar: root ", name.text(), " inherits")
        }
        GrammarFault::NotAssignable { rule } => at_rule(out, rule, " is not assignable"),
        GrammarFault::BadForm { rule } => at_rule(out, rule, " has a wrong form"),
        GrammarFault::TwiceRuled { rule } => at_rule(out, rule, " has two rules"),
        GrammarFault::BadRead { rule, read } => bad_read(out, rule, read),
        GrammarFault::MissingRule { rule } => at_rule(out, rule, " has no rule"),
        GrammarFault::OutOfMemory => Ok(()),
    }
}

fn what_text(what: What) -> &'static str
    ensures what { result.now ≡ what_text what }
{
    match what {
        What::Interfaces => "interfaces",
        What::Classes => "classes",
        What::Attributes => "attributes",
        What::Children => "children",
        What::AllAttributes => "attributes in all",
        What::Reads => "reads",
    }
}

fn too_many(out: &mut Vec<u8>, what: What, count: u32) -> Result<(), AllocError>
    ensures line { OnOk result (out.new.items ≡ out.old.items
        ++ (codes "refused grammar: too many " ++ (what_text what
        ++ (codes ": " ++ decimal count)))) }
{
    named_number(
        out,
        "refused grammar: too many ",
        what_text(what),
        ": ",
        count,
    )
}

/// Adds a rule and what is wrong with it.
fn at_rule(out: &mut Vec<u8>, name: &RuleName, what: &str) -> Result<(), AllocError>
    ensures line { OnOk result (out.new.items ≡ out.old.items
        ++ (codes "refused grammar: " ++ (rule_text name.now ++ what.now))) }
{
    around_rule(out, "refused grammar: ", name, what)
}

fn bad_read(out: &mut Vec<u8>, name: &RuleName, found: &ReadName) -> Result<(), AllocError>
    ensures line { OnOk result (out.new.items ≡ out.old.items
        ++ (codes "refused grammar: " ++ (rule_text name.now
        ++ (codes " must not read " ++ read_text found.now)))) }
{
    at_rule(out, name, " must not read ")?;
    read(out, found)
}

//! The options of commands, by `clap`.

ghost use Rattle.std.specs.Prelude.{◌≡◌, IfOk, true, false, map, option_map};
ghost use Rattle.std.specs.String.{string_bytes};
ghost use Rattle.clap.specs.Walk.{first_of, rows_of};
ghost use Rattle.clap.specs.Words.{app_of, found_of, is_simple_and_free, new_app};
ghost use Rattle.clap.specs.Words.{rule_of, with_rule};
ghost use Rattle.ftl_model.specs.layout.Outcome.{Gives};
ghost use Rattle.ftl_page.specs.commands.Commands.{answer_by};
ghost use Rattle.ftl_page.specs.commands.Options.{plain_app, sample_app, solving_app, taken};
ghost use Rattle.ftl_page.specs.commands.Options.{text_option};
ghost use Rattle.ftl_page.specs.declared.commands.command.CommandFault.TheVariants.{OutOfMemory};

use crate::commands::command::CommandFault;
use clap::error::ErrorKind;
use clap::{Arg, ArgAction, ArgMatches, Command};
use std::alloc::{AllocError, Global};

/// An option that takes one text.
fn text_option<'a>(alloc: Global, name: &'a str) -> Arg<'a>
    ensures rule { rule_of result ≡ text_option name.entry.now }
    ensures local { result.global ≡ false }
{
    Arg::new(alloc, name).long(name).action(ArgAction::Set)
}

/// The command with one option more.
fn with_option<'a>(
    alloc: Global,
    command: Command<'a>,
    name: &'a str,
) -> Result<Command<'a>, AllocError>
    ensures app { IfOk result (λ c. app_of c
        ≡ with_rule (app_of command.entry) (text_option name.entry.now)) }
{
    command.arg(text_option(alloc, name))
}

/// The command of this name without options.
pub(crate) fn plain_command<'a>(alloc: Global, name: &'a str) -> Command<'a>
    ensures app { app_of result ≡ plain_app name.entry.now }
{
    Command::new(alloc, name)
}

/// The command of this name whose options say how to solve a page.
pub(crate) fn solving_command<'a>(alloc: Global, name: &'a str) -> Result<Command<'a>, AllocError>
    ensures app { IfOk result (λ c. app_of c ≡ solving_app name.entry.now) }
{
    let command = with_option(alloc, plain_command(alloc, name), "workers")?;
    with_option(alloc, command, "grain")
}

/// The same with the name of a grammar.
pub(crate) fn sample_command<'a>(alloc: Global, name: &'a str) -> Result<Command<'a>, AllocError>
    ensures app { IfOk result (λ c. app_of c ≡ sample_app name.entry.now) }
{
    let command = solving_command(alloc, name)?;
    with_option(alloc, command, "grammar")
}

/// What the words that follow the first give to the options, where the command takes them.
pub(crate) fn options<'a>(
    command: Command<'a>,
    words: &'a [String],
) -> Result<ArgMatches<'a>, CommandFault>
    requires simple { is_simple_and_free (app_of command) ≡ true }
    ensures taken { Gives OutOfMemory (λ m. rows_of (found_of m)) result
        (answer_by (taken (app_of command.entry) (map string_bytes words.entry.now))) }
{
    match command.try_get_matches_from(words) {
        Ok(matches) => Ok(matches),
        Err(error) => match error.kind() {
            ErrorKind::OutOfMemory => Err(CommandFault::OutOfMemory),
            _ => Err(CommandFault::BadWords),
        },
    }
}

/// The text that an option has.
pub(crate) fn text_of<'a>(matches: &ArgMatches<'a>, name: &str) -> Option<&'a str>
    ensures text { option_map (λ s. s.now) result
        ≡ first_of name.now (rows_of (found_of matches.now)) }
{
    matches.get_str(name)
}

//! Words as a command.

ghost use Rattle.std.specs.Prelude.{◌≡◌, codes, map, option_map};
ghost use Rattle.std.specs.Option.{option_and_then};
ghost use Rattle.std.specs.String.{string_bytes};
ghost use Rattle.clap.specs.Walk.{rows_of};
ghost use Rattle.clap.specs.Words.{found_of};
ghost use Rattle.ftl_model.specs.layout.Outcome.{Gives};
ghost use Rattle.ftl_page.specs.commands.Commands.{answer_by, command_of, edit_by, grammar_by};
ghost use Rattle.ftl_page.specs.commands.Commands.{run_by, sample_by, sample_of, shipped_name};
ghost use Rattle.ftl_page.specs.commands.Commands.{solving_of};
ghost use Rattle.ftl_page.specs.commands.Options.{plain_app, sample_app, solving_app, taken};
ghost use Rattle.ftl_page.specs.declared.commands.command.CommandFault.TheVariants.{OutOfMemory};

use crate::commands::command::{Command, CommandFault};
use crate::commands::options::{options, plain_command, sample_command, solving_command, text_of};
use crate::workers::{Solving, number, solving_by};
use clap::ArgMatches;
use ftl_boxes::shipped;
use ftl_tokens::Name;
use std::alloc::{AllocError, Global};

/// The command that the words after the program's name are.
pub fn read_command(alloc: Global, words: &[String]) -> Result<Command, CommandFault>
    ensures exact { Gives OutOfMemory (λ c. c) result
        (answer_by (command_of (map string_bytes words.now))) }
{
    let Some(name) = words.first() else {
        return Err(CommandFault::BadWords);
    };
    match name.as_str() {
        "run" => run(alloc, words),
        "check" => {
            no_options(alloc, "check", words)?;
            Ok(Command::Check)
        }
        "schedule" => {
            no_options(alloc, "schedule", words)?;
            Ok(Command::Schedule)
        }
        "explain" => {
            no_options(alloc, "explain", words)?;
            Ok(Command::Explain)
        }
        "demand" => {
            no_options(alloc, "demand", words)?;
            Ok(Command::Demand)
        }
        "edit" => edit(alloc, words),
        "sample" => sample(alloc, &words[1..]),
        _ => Err(CommandFault::BadWords),
    }
}

/// Whether a command without options takes the words that follow its name.
fn no_options(alloc: Global, name: &'static str, words: &[String]) -> Result<(), CommandFault>
    ensures taken { Gives OutOfMemory (λ done. done) result (answer_by (option_map (λ rows. tt)
        (taken (plain_app name.now) (map string_bytes words.now)))) }
{
    let _ = options(plain_command(alloc, name), words)?;
    Ok(())
}

fn run(alloc: Global, words: &[String]) -> Result<Command, CommandFault>
    ensures exact { Gives OutOfMemory (λ c. c) result (answer_by (option_and_then run_by
        (taken (solving_app (codes "run")) (map string_bytes words.now)))) }
{
    let matches = options(solving_command(alloc, "run")?, words)?;
    run_by(&matches)
}

fn run_by(matches: &ArgMatches<'_>) -> Result<Command, CommandFault>
    ensures exact { Gives OutOfMemory (λ c. c) result
        (answer_by (run_by (rows_of (found_of matches.now)))) }
{
    let solving = solving(matches).ok_or(CommandFault::BadWords)?;
    Ok(Command::Run(solving))
}

fn edit(alloc: Global, words: &[String]) -> Result<Command, CommandFault>
    ensures exact { Gives OutOfMemory (λ c. c) result (answer_by (option_and_then edit_by
        (taken (solving_app (codes "edit")) (map string_bytes words.now)))) }
{
    let matches = options(solving_command(alloc, "edit")?, words)?;
    edit_by(&matches)
}

fn edit_by(matches: &ArgMatches<'_>) -> Result<Command, CommandFault>
    ensures exact { Gives OutOfMemory (λ c. c) result
        (answer_by (edit_by (rows_of (found_of matches.now)))) }
{
    let solving = solving(matches).ok_or(CommandFault::BadWords)?;
    Ok(Command::Edit(solving))
}

/// The words from the number of pieces on, as a sample.
fn sample(alloc: Global, words: &[String]) -> Result<Command, CommandFault>
    ensures exact { Gives OutOfMemory (λ c. c) result
        (answer_by (sample_of (map string_bytes words.now))) }
{
    let Some(pieces) = words.first() else {
        return Err(CommandFault::BadWords);
    };
    sample_of(alloc, pieces.as_str(), words)
}

/// A sample of so many pieces, with the options that follow the first word.
fn sample_of(alloc: Global, pieces: &str, words: &[String]) -> Result<Command, CommandFault>
    ensures exact { Gives OutOfMemory (λ c. c) result (answer_by (option_and_then
        (sample_by pieces.now)
        (taken (sample_app (codes "sample")) (map string_bytes words.now)))) }
{
    let matches = options(sample_command(alloc, "sample")?, words)?;
    sample_by(alloc, pieces, &matches)
}

fn sample_by(alloc: Global, pieces: &str, matches: &ArgMatches<'_>) -> Result<Command, CommandFault>
    ensures exact { Gives OutOfMemory (λ c. c) result
        (answer_by (sample_by pieces.now (rows_of (found_of matches.now)))) }
{
    let pieces = number(200_000, pieces).ok_or(CommandFault::BadWords)?;
    let name = grammar(text_of(matches, "grammar")).ok_or(CommandFault::BadWords)?;
    let solving = solving(matches).ok_or(CommandFault::BadWords)?;
    let grammar = Name::new(alloc, name)?;
    Ok(Command::Sample {
        pieces,
        grammar,
        solving,
    })
}

/// The name of the grammar of a sample, where one of this name is shipped.
fn grammar<'a>(name: Option<&'a str>) -> Option<&'a str>
    ensures name { option_map (λ s. s.now) result
        ≡ grammar_by (option_map (λ s. s.now) name.entry) }
{
    match name {
        None => Some("flow"),
        Some(name) => match shipped(name) {
            Some(_) => Some(name),
            None => None,
        },
    }
}

/// How a page is to be solved.
fn solving(matches: &ArgMatches<'_>) -> Option<Solving>
    ensures solving { result ≡ solving_of (rows_of (found_of matches.now)) }
{
    solving_by(text_of(matches, "workers"), text_of(matches, "grain"))
}

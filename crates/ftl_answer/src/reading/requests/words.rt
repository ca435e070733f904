//! What the words and the source ask for.

ghost use Rattle.std.specs.Prelude.{◌≡◌, ◌+◌, ◌≤◌, ℕ, List, true, false, Some, [], IfOk, IfSome};
ghost use Rattle.std.specs.Result.{IsErrOf};
ghost use Rattle.ftl_answer.specs.answers.Answer as answer;
ghost use Rattle.ftl_answer.specs.answers.Answers.{answered, obeyed};
ghost use Rattle.ftl_page.specs.declared.commands.command.Command.TheVariants as command;
ghost use Rattle.ftl_edge.specs.Counts.{Rose};
ghost use Rattle.ftl_answer.specs.headline.Headline.{OfTheBytes, bytes_answered, reads_page, texts};
ghost use Rattle.ftl_answer.specs.headline.Headline.{words_read};
ghost use Rattle.ftl_answer.specs.reading.requests.Requests.{MayEndAs, IsAsked, IsTooLong};
ghost use Rattle.ftl_answer.specs.reading.sections.Outcomes.{answer_of};

use crate::reading::requests::explained::page_explained;
use crate::reading::requests::request::{EditedPage, Evaluation, Problem, Request, Undone};
use crate::reading::requests::rules::{RulesOutput, rules_answered};
use crate::reading::requests::shown::Shown;
use crate::reading::sections::{Decided, MOST_BYTES, Status};
use ftl_boxes::{SampleFault, sample_page};
use ftl_edge::{ReadAllFault, Source, read_all};
use ftl_page::{Command, CommandFault, Solving, read_command};
use ftl_tokens::Name;
use std::alloc::{AllocError, Global};

/// What the words ask for, of the page that the source has left where they read one.
pub fn requested<S: Source>(
    alloc: Global,
    words: &[String],
    source: &mut S,
) -> Result<Request, Undone>
    ensures asked { IfOk result
        (λ q. OfTheBytes (bytes_answered (words_read (texts words.now)) (S.remaining source.old))
        (λ bytes. IsAsked (answered (texts words.now) bytes) bytes (words_read (texts words.now))
        (S.taken source.old) (S.taken source.new) q)) }
    ensures end { words_read (texts words.now) ≡ true
        → IfOk result (λ q. (IsTooLong q → ⊥)
        → IfSome (S.remaining source.old) (λ _. S.remaining source.new ≡ Some [])) }
    ensures fault { IsErrOf result Undone.ReadFault
        → Rose (S.fault_count source.old) (S.fault_count source.new) }
    ensures untouched { words_read (texts words.now) ≡ false → source.new ≡ source.old }
    ensures no_read { words_read (texts words.now) ≡ false
        → IsErrOf result Undone.ReadFault → ⊥ }
    ensures at_most { S.taken source.new ≤ S.taken source.old + 67108865 }
    ensures turns { S.calls source.new ≤ S.calls source.old + 67108866 }
{
    match read_command(alloc, words) {
        Ok(command) => of_command(alloc, command, source),
        Err(CommandFault::BadWords) => Ok(Request::Answered(refused(
            alloc,
            Status::BAD_WORDS,
            b"refused words",
        )?)),
        Err(CommandFault::OutOfMemory) => Err(Undone::OutOfMemory),
    }
}

/// What a command asks for, of the page that the source has left where it reads one.
fn of_command<S: Source>(alloc: Global, command: Command, source: &mut S) -> Result<Request, Undone>
    ensures asked { IfOk result
        (λ q. OfTheBytes (bytes_answered (reads_page command) (S.remaining source.old))
        (λ bytes. IsAsked (obeyed command bytes) bytes (reads_page command)
        (S.taken source.old) (S.taken source.new) q)) }
    ensures end { reads_page command ≡ true
        → IfOk result (λ q. (IsTooLong q → ⊥)
        → IfSome (S.remaining source.old) (λ _. S.remaining source.new ≡ Some [])) }
    ensures fault { IsErrOf result Undone.ReadFault
        → Rose (S.fault_count source.old) (S.fault_count source.new) }
    ensures untouched { reads_page command ≡ false → source.new ≡ source.old }
    ensures no_read { reads_page command ≡ false → IsErrOf result Undone.ReadFault → ⊥ }
    ensures at_most { S.taken source.new ≤ S.taken source.old + 67108865 }
    ensures turns { S.calls source.new ≤ S.calls source.old + 67108866 }
{
    if reads_page(&command) {
        of_page(alloc, command, source)
    } else {
        Ok(obeyed(alloc, command, Vec::new(alloc))?)
    }
}

/// Whether a command reads a page.
fn reads_page(command: &Command) -> bool
    ensures reads { result ≡ reads_page command.now }
{
    match command {
        Command::Run(_)
        | Command::Check
        | Command::Schedule
        | Command::Explain
        | Command::Demand
        | Command::Edit(_) => true,
        Command::Sample { .. } => false,
    }
}

/// What a command that reads a page asks for, of the page that the source has left.
fn of_page<S: Source>(alloc: Global, command: Command, source: &mut S) -> Result<Request, Undone>
    requires reads { reads_page command ≡ true }
    ensures asked { IfOk result (λ q. OfTheBytes (S.remaining source.old)
        (λ bytes. IsAsked (obeyed command bytes) bytes true
        (S.taken source.old) (S.taken source.new) q)) }
    ensures end { IfOk result (λ q. (IsTooLong q → ⊥)
        → IfSome (S.remaining source.old) (λ _. S.remaining source.new ≡ Some [])) }
    ensures fault { IsErrOf result Undone.ReadFault
        → Rose (S.fault_count source.old) (S.fault_count source.new) }
    ensures at_most { S.taken source.new ≤ S.taken source.old + 67108865 }
    ensures turns { S.calls source.new ≤ S.calls source.old + 67108866 }
{
    match read_all(alloc, source, MOST_BYTES) {
        Ok(bytes) => Ok(obeyed(alloc, command, bytes)?),
        Err(ReadAllFault::TooLong) => Ok(Request::Answered(refused(
            alloc,
            Status::PAGE_REFUSED,
            b"refused page: too long",
        )?)),
        Err(ReadAllFault::ReadFault) => Err(Undone::ReadFault),
        Err(ReadAllFault::OutOfMemory) => Err(Undone::OutOfMemory),
    }
}

/// What a command asks for of a page. A command that reads no page looks at no bytes.
fn obeyed(alloc: Global, command: Command, bytes: Vec<u8>) -> Result<Request, AllocError>
    ensures comes { IfOk result (MayEndAs (obeyed command bytes.items)) }
{
    match command {
        Command::Run(how) => Ok(Request::Solve(Problem {
            shown: Shown::Boxes,
            evaluation: Evaluation::Scheduled(how),
            bytes,
        })),
        Command::Check => verdict(alloc, bytes.as_slice()),
        Command::Schedule => schedule(alloc, bytes.as_slice()),
        Command::Explain => explanation(alloc, bytes.as_slice()),
        Command::Demand => Ok(Request::Solve(Problem {
            shown: Shown::Boxes,
            evaluation: Evaluation::ByDemand,
            bytes,
        })),
        Command::Edit(solving) => Ok(Request::Edit(EditedPage { solving, bytes })),
        Command::Sample {
            pieces,
            grammar,
            solving,
        } => sample(alloc, pieces, grammar, solving),
    }
}

/// Whether the grammar and the schedule of a page are accepted.
fn verdict(alloc: Global, bytes: &[u8]) -> Result<Request, AllocError>
    ensures comes { IfOk result (MayEndAs (obeyed command.Check bytes.now)) }
{
    Ok(Request::Answered(rules_answered(alloc, RulesOutput::Verdict, bytes)?))
}

/// The schedule of a page, as a text.
fn schedule(alloc: Global, bytes: &[u8]) -> Result<Request, AllocError>
    ensures comes { IfOk result (MayEndAs (obeyed command.Schedule bytes.now)) }
{
    Ok(Request::Answered(rules_answered(alloc, RulesOutput::Text, bytes)?))
}

/// What explains the schedule of a page.
fn explanation(alloc: Global, bytes: &[u8]) -> Result<Request, AllocError>
    ensures comes { IfOk result (MayEndAs (obeyed command.Explain bytes.now)) }
{
    Ok(Request::Answered(page_explained(alloc, bytes)?))
}

/// The page of so many pieces in the shipped grammar of this name, whose summary is to be shown.
fn sample(alloc: Global, pieces: u32, grammar: Name, how: Solving) -> Result<Request, AllocError>
    ensures comes { (bytes : List ℕ) → IfOk result
        (MayEndAs (obeyed (command.Sample pieces grammar how) bytes)) }
{
    match sample_page(alloc, pieces, grammar.text()) {
        Ok(text) => Ok(Request::Solve(Problem {
            shown: Shown::Summary(grammar),
            evaluation: Evaluation::Scheduled(how),
            bytes: text.into_bytes(),
        })),
        Err(SampleFault::OutOfMemory) => Err(AllocError),
        Err(_) => Ok(Request::Answered(refused(alloc, Status::BAD_WORDS, b"refused words")?)),
    }
}

/// A refusal line.
fn refused(alloc: Global, status: Status, line: &[u8]) -> Result<Decided, AllocError>
    ensures answer { IfOk result (λ d. answer_of d ≡ answer.refused status.0 line.now) }
{
    let mut text = Vec::with_capacity(alloc, line.len())?;
    text.extend_from_slice(line)?;
    text.push(b'\n')?;
    Ok(Decided { status, text })
}

//! The command line, by `clap`.

use clap::{Arg, ArgAction, Command, value_parser};
use std::alloc::{AllocError, Global};

const ABOUT: &str =
    "Shows pages: their nodes as a tree, one node with all it has, where a value comes \
from, or a drawing.";

const AFTER: &str = "A refused page is told on standard error, with its file, line and column.

Status: 0 done, 1 writing failed, 2 words that are no command, or a node, an attribute or a grammar
that is not there, 3 a file that cannot be read, 4 to 7 the page, its grammar, its schedule or its
document is refused, 8 a shown value is Overflow, 9 out of memory, 10 the edits are refused. Of
several files, that of the first that is not 0.";

/// The command that the words are to be.
pub fn show_command<'a>(alloc: Global) -> Result<Command<'a>, AllocError> {
    let command = Command::new(alloc, "show")
        .about(ABOUT)
        .after_help(AFTER)
        .version("1")
        .arg(files(alloc)?)?;
    let command = text_options(alloc, line_options(alloc, command)?)?;
    drawing_options(alloc, command)
}

fn files<'a>(alloc: Global) -> Result<Arg<'a>, AllocError> {
    Arg::new(alloc, "files")
        .num_args(1..)
        .value_name("FILE")
        .help("Files of pages, or - for standard input")
        .required_unless_present("grammar")
}

/// The options of trees and nodes.
fn line_options<'a>(alloc: Global, command: Command<'a>) -> Result<Command<'a>, AllocError> {
    command
        .arg(flag(
            alloc,
            "all",
            "Show every attribute, not only those that are shown",
        ))?
        .arg(number(alloc, "node", "Show one node, each attribute in a line").conflicts_with(
            "all",
        )?)?
        .arg(
            text(
                alloc,
                "why",
                "N.NAME",
                "Show where the value of an attribute of a node comes from",
            )
            .conflicts_with("all")?
            .conflicts_with("node")?,
        )?
        .arg(number(
            alloc,
            "lines",
            "Show so many lines of where a value comes from at most; 200 if left out",
        ))?
        .arg(flag(
            alloc,
            "watch",
            "Show the page of one file anew each time that it changes",
        ))?
        .arg(flag(
            alloc,
            "color",
            "Let classes stand out, and values that are Overflow",
        ))?
        .arg(number(
            alloc,
            "width",
            "Cut lines to so many characters, at least 1",
        ))
}

/// The options that show texts.
fn text_options<'a>(alloc: Global, command: Command<'a>) -> Result<Command<'a>, AllocError> {
    command
        .arg(
            flag(
                alloc,
                "format",
                "Print the page in canonical form, without its comments",
            )
            .conflicts_with("all")?
            .conflicts_with("node")?
            .conflicts_with("why")?,
        )?
        .arg(text(
            alloc,
            "grammar",
            "NAME",
            "Print a grammar that comes with the program",
        )
        .conflicts_with("files")?)
}

/// The options of drawings.
fn drawing_options<'a>(alloc: Global, command: Command<'a>) -> Result<Command<'a>, AllocError> {
    command
        .arg(drawing(alloc, "svg", "Draw the boxes of a page, as SVG")?)?
        .arg(drawing(
            alloc,
            "html",
            "Make one HTML file of a page: its boxes, its text and all its values",
        )?
        .conflicts_with("svg")?)?
        .arg(flag(
            alloc,
            "names",
            "Let each box tell its number and class, and not only those without kids",
        ))?
        .arg(text(
            alloc,
            "box",
            "X,Y,W,H",
            "The attributes that place a box; x,y,w,h if left out",
        ))?
        .arg(flag(
            alloc,
            "relative",
            "Places count from the box around, not from the page",
        ))
}

/// An option that asks for a drawing.
fn drawing<'a>(alloc: Global, name: &'a str, help: &'a str) -> Result<Arg<'a>, AllocError> {
    flag(alloc, name, help)
        .conflicts_with("all")?
        .conflicts_with("node")?
        .conflicts_with("why")?
        .conflicts_with("format")
}

fn flag<'a>(alloc: Global, name: &'a str, help: &'a str) -> Arg<'a> {
    Arg::new(alloc, name)
        .long(name)
        .action(ArgAction::SetTrue)
        .help(help)
}

fn text<'a>(alloc: Global, name: &'a str, value: &'a str, help: &'a str) -> Arg<'a> {
    Arg::new(alloc, name)
        .long(name)
        .value_name(value)
        .action(ArgAction::Set)
        .help(help)
}

fn number<'a>(alloc: Global, name: &'a str, help: &'a str) -> Arg<'a> {
    Arg::new(alloc, name)
        .long(name)
        .value_name("N")
        .value_parser(value_parser!(u32))
        .action(ArgAction::Set)
        .help(help)
}

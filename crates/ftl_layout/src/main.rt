//! The program: words from the command line, a page from standard input, boxes to standard output.
#![tactic(auto)]

use ftl_edge::{OpenGate, StdSink, StdSource};
use ftl_run::{Status, layout_top};
use std::io::ErrorKind;
use std::process::ExitCode;
use std::rt::Env;
use std::{env, io};

/// The words after the program's name.
fn words(rt: &(impl Env + AllocGlobal)) -> io::Result<Vec<String>> {
    let mut words = Vec::new(rt.alloc());
    for word in env::args(rt)?.skip(1) {
        words.push(word)?;
    }
    Ok(words)
}

/// The words, or none where one of them is not UTF-8: they are no command then, as no words are.
fn words_or_none(rt: &(impl Env + AllocGlobal)) -> io::Result<Vec<String>> {
    match words(rt) {
        Err(error) if error.kind() == ErrorKind::InvalidData => Ok(Vec::new(rt.alloc())),
        other => other,
    }
}

fn main(rt: HostRuntime) -> ExitCode {
    let status = match words_or_none(&rt) {
        Ok(words) => {
            let mut source = StdSource::new(&rt);
            let mut sink = StdSink::new(&rt);
            layout_top(
                &rt,
                rt.alloc(),
                words.as_slice(),
                &mut source,
                &mut sink,
                &OpenGate,
            )
        }
        Err(_) => Status::OUT_OF_MEMORY,
    };
    ExitCode::from(status.0)
}

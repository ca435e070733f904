//! Shows pages to people, as the words of its command line ask for (`ftl_showing`).
#![tactic(auto)]

use ftl_showing::show;
use std::process::ExitCode;

fn main(rt: HostRuntime) -> ExitCode {
    ExitCode::from(show(&rt))
}

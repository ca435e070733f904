//! What it takes to judge a schedule with nests. Goes in: a checked grammar. Comes out: what the
//! region of a host class has, and whether a nest with this host is closed; and as definitions and
//! laws, by which tests the writer of a read is earlier than its reader. `ftl_nests` says what
//! regions, closed nests and ordered reads are.
//!
//! - `hosts`: `Regions`, of a grammar
//! - `pairs`: the table of ordered reads with nests as tests
#![tactic(auto)]

pub mod hosts;
pub mod pairs;

pub use hosts::{Regions, kept_sides, regions_of_written_rows, written_rows_that_are_open};
pub use pairs::{first_refused_pairs, refused_pairs};

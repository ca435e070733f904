//! How much the equations of instances read. Goes in: a tree of a checked grammar. Comes out: how
//! many reads the equation of one of its instances has, as `ftl_items::stage_items` counts them;
//! `specs/limits/reads/ReadTables.antt` has the words.

mod counts;
mod sound;
mod tables;

pub use counts::instance_reads;
pub use sound::is_sound;
pub use tables::ReadTables;

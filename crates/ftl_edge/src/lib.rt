//! The outside of the program: where bytes come from and where they go. A source or a sink may
//! tell its bytes, as those in memory do, and then the clauses say which bytes were read and
//! written. It counts its own faults, and no call here answers a fault unless that count rose.
//! A gate is what a program lets its workers call as they begin an item. The words of the contracts
//! stand in `specs/`: `Counts` for what rises, `MemSource` and `MemSink` for what those in memory
//! do, call by call.
#![tactic(auto)]

mod fault;
mod gate;
mod mem_sink;
mod mem_source;
mod sink;
mod source;
mod standard;

pub use fault::{Failed, ReadAllFault, WriteFault};
pub use gate::{Gate, OpenGate};
pub use mem_sink::MemSink;
pub use mem_source::MemSource;
pub use sink::{Sink, write_whole};
pub use source::{Source, read_all};
pub use standard::{StdSink, StdSource};

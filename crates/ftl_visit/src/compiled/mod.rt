//! The code of rules. Goes in: a grammar that `ftl_checked::grammars` accepted. Comes out:
//! `Programs`, the code of `rule_code` for each part of each rule, in one row of instructions.
//! `specs/compiled/RuleCode.antt` says which code that is, `specs/compiled/Compilable.antt` what
//! is needed of a grammar, and `has_code` that each that was read has it.

mod built;
mod compiling;
mod part;
mod part_code;
mod programs;
mod ranges;
mod spelled;
mod translate;

pub use compiling::compile;
pub use part::Part;
pub use part_code::{Code, run_code};
pub use programs::Programs;
pub use spelled::{has_code, spelled_grammars_have_code};

//! Code without names, and the engine that runs it. Goes in: a formula of `ftl_meaning::formulas`,
//! with anything in the place of its reads. `specs/rule_code/Code.antt` is its code,
//! `specs/rule_code/Machine.antt` what running code gives; that this is the formula's value is a
//! law.

mod depth;
mod instruction;
mod laws;
mod reads;
mod rows;
mod run;
mod running;
mod stacks;
mod step;

pub use depth::depth_of;
pub use instruction::Instruction;
pub use laws::code_computes_the_formula;
pub use reads::Reads;
pub use running::run_code;
pub(crate) use step::whole;

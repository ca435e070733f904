//! What a plan keeps for a stage, once for all nodes. Goes in: a grammar that
//! `ftl_checked::grammars` accepted, where the items of a tree begin, and the passes of a stage.
//! Comes out: `PassTables`, the visits of each pass; `StageRows`, with these where the items of each
//! pass begin. `specs/stages/PassTables.antt` and `specs/stages/StageRows.antt` say which these are.

mod rows;
mod tables;

pub use rows::StageRows;
pub use tables::PassTables;

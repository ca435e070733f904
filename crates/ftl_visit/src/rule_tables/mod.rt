//! The rules of a checked grammar by what they define. Goes in: a grammar with the numbers of its
//! rules at hand. Comes out: tables by class, child and attribute, which
//! `specs/rule_tables/RuleTables.antt` defines.

mod attributes;
mod tables;

pub use attributes::class_attributes;
pub use tables::RuleTables;

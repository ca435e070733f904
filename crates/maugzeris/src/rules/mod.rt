//! A grammar, and a schedule that computes it. Goes in: their texts. Comes out: `Grammar`, with the
//! code of its rules, and `Rules`, which contracts see as the grammar and the schedule; or the
//! refusal of a text. `specs/rules/RuleTexts.antt` says what a text comes to. `texts` leads back,
//! to canonical texts, and `spoken` writes a rule for people.

mod grammar;
mod schedules;
mod spoken;
mod texts;

pub use grammar::Grammar;
pub use schedules::Rules;

//! Rules as people write them. Goes in: a rule of a grammar. Comes out: its text, the tokens that
//! spell it with spaces around operators and none around dots, without the `;` at its end.
//! `specs/rules/Spoken.antt` says which spaces stand around a token.

mod expression;
mod rule;
mod token;

pub(crate) use rule::push_rule;

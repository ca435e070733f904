//! A grammar goes in and its canonical text comes out. `specs/printing/GrammarTokens.antt` and
//! `specs/printing/ExpressionTokens.antt` say which tokens the text has, and what stands behind
//! each. A law leads back: where some text that is not too deep spells the grammar, the canonical
//! text is not too deep and spells it too.

mod expression;
mod grammar;
mod laws;
mod token;

pub use grammar::print_grammar;
pub use laws::canonical_texts;

//! Grammars: each declaration and each rule in a line, with a blank line between blocks.

use crate::layout::gaps::Manner;
use crate::layout::groups::space_before;
use crate::layout::lines::Lines;
use ftl_tokens::{Kind, Token, TokenizedText};
use std::alloc::{AllocError, Global};

/// What stands before a token.
#[derive(Clone, Copy, Debug, PartialEq, Eq)]
enum Before {
    Space(usize),
    /// A line ends there.
    Line,
    /// A line ends there, and a blank one follows.
    BlankLine,
}

/// The tokens of a grammar in lines.
pub fn grammar_in_lines(alloc: Global, text: &TokenizedText) -> Result<String, AllocError> {
    let tokens = text.list();
    let mut lines = Lines::new(alloc);
    let mut level = 0;
    for place in 0..tokens.len() {
        if tokens[place].kind == Kind::RightBrace {
            level = 0;
        }
        match stands_before(tokens, place, level) {
            Before::Space(count) => lines.push(count, text.slice(place))?,
            Before::Line => {
                lines.begin(level)?;
                lines.push(0, text.slice(place))?;
            }
            Before::BlankLine => {
                lines.begin(0)?;
                lines.begin(level)?;
                lines.push(0, text.slice(place))?;
            }
        }
        if tokens[place].kind == Kind::LeftBrace {
            level = 1;
        }
    }
    lines.finish()
}

/// What stands before a token, which stands so many levels to the right where it begins a line.
fn stands_before(tokens: &[Token], place: usize, level: usize) -> Before {
    let (Some(last), Some(token)) = (tokens.get(place.wrapping_sub(1)), tokens.get(place)) else {
        return Before::Space(0);
    };
    if token.kind == Kind::RightBrace {
        return Before::Line;
    }
    match last.kind {
        Kind::LeftBrace => Before::Line,
        Kind::Semicolon if level > 0 => Before::Line,
        Kind::Semicolon | Kind::RightBrace => Before::BlankLine,
        _ => Before::Space(space_before(tokens, place, Manner::Grammar)),
    }
}

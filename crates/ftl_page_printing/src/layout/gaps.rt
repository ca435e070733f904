//! Spaces between tokens that stand in one line.

ghost use Rattle.std.specs.Prelude.{◌≤◌};

use ftl_tokens::Kind;

/// Which section a text is of.
#[derive(Clone, Copy, Debug, PartialEq, Eq)]
pub enum Manner {
    Grammar,
    Schedule,
    Document,
}

/// How many spaces stand between two tokens in one line.
pub fn space_between(manner: Manner, before: Kind, after: Kind) -> usize
    ensures one { result ≤ 1 }
{
    let apart = match manner {
        Manner::Grammar => !clings_to_next(before) && !clings_to_last(before, after),
        Manner::Schedule => before != Kind::Dot && after != Kind::Dot,
        Manner::Document => before != Kind::Minus && !is_empty_list(before, after),
    };
    if apart { 1 } else { 0 }
}

/// Whether no space stands behind this in a grammar.
fn clings_to_next(before: Kind) -> bool {
    match before {
        Kind::Dot | Kind::LeftParen | Kind::LeftBracket | Kind::Bang => true,
        _ => false,
    }
}

/// Whether no space stands before the second in a grammar.
fn clings_to_last(before: Kind, after: Kind) -> bool {
    match after {
        Kind::Dot | Kind::Semicolon | Kind::Comma | Kind::RightParen | Kind::RightBracket => true,
        Kind::LeftParen => before == Kind::Min || before == Kind::Max,
        _ => false,
    }
}

fn is_empty_list(before: Kind, after: Kind) -> bool {
    before == Kind::LeftBracket && after == Kind::RightBracket
}

pub fn opens(kind: Kind) -> bool {
    kind == Kind::LeftBrace || kind == Kind::LeftBracket
}

pub fn closes(kind: Kind) -> bool {
    kind == Kind::RightBrace || kind == Kind::RightBracket
}

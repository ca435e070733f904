//! Tokens and their kinds.

/// What a token is: a name, a number, one of the reserved words or one of the marks.
#[derive(Clone, Copy, Debug, PartialEq, Eq, Hash)]
pub enum Kind {
    /// A word that is not reserved.
    Name,
    /// A run of ASCII digits.
    Number,
    /// `root`
    Root,
    /// `interface`
    Interface,
    /// `class`
    Class,
    /// `inh`
    Inh,
    /// `syn`
    Syn,
    /// `input`
    Input,
    /// `local`
    Local,
    /// `show`
    Show,
    /// `self`
    SelfWord,
    /// `this`
    This,
    /// `prev`
    Prev,
    /// `last`
    Last,
    /// `first`
    First,
    /// `then`
    Then,
    /// `fold`
    Fold,
    /// `from`
    From,
    /// `with`
    With,
    /// `acc`
    Acc,
    /// `if`
    If,
    /// `else`
    Else,
    /// `or`
    Or,
    /// `min`
    Min,
    /// `max`
    Max,
    /// `{`
    LeftBrace,
    /// `}`
    RightBrace,
    /// `(`
    LeftParen,
    /// `)`
    RightParen,
    /// `[`
    LeftBracket,
    /// `]`
    RightBracket,
    /// `;`
    Semicolon,
    /// `:`
    Colon,
    /// `,`
    Comma,
    /// `.`
    Dot,
    /// `:=`
    Assign,
    /// `=`
    Equals,
    /// `+`
    Plus,
    /// `-`
    Minus,
    /// `*`
    Star,
    /// `/`
    Slash,
    /// `<`
    Less,
    /// `<=`
    LessEq,
    /// `>`
    More,
    /// `>=`
    MoreEq,
    /// `==`
    EqualEqual,
    /// `!=`
    Unequal,
    /// `&&`
    AndAnd,
    /// `||`
    OrOr,
    /// `!`
    Bang,
}

/// A token of a text: its kind, the byte at which it begins and the byte at which it has ended.
#[derive(Clone, Copy, Debug, PartialEq, Eq)]
pub struct Token {
    pub kind: Kind,
    pub start: u32,
    pub end: u32,
}

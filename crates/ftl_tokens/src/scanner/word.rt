//! The kinds of words and marks.

ghost use Rattle.std.specs.Prelude.{◌≡◌, [], ◌∷◌};
ghost use Rattle.ftl_tokens.specs.scanner.Kinds.{kind_of_word, kind_of_mark};

use crate::scanner::kind::Kind;

/// The kind of a word.
#[inline(always)]
#[tactic(auto, unfolding(crate::specs::scanner::Kinds::kind_of_word))]
pub fn word_kind(word: &str) -> Kind
    ensures kind { result ≡ kind_of_word word.now }
{
    match word.len() {
        2 => match word {
            "if" => Kind::If,
            "or" => Kind::Or,
            _ => Kind::Name,
        },
        3 => match word {
            "inh" => Kind::Inh,
            "syn" => Kind::Syn,
            "acc" => Kind::Acc,
            "min" => Kind::Min,
            "max" => Kind::Max,
            _ => Kind::Name,
        },
        4 => match word {
            "root" => Kind::Root,
            "show" => Kind::Show,
            "self" => Kind::SelfWord,
            "this" => Kind::This,
            "prev" => Kind::Prev,
            "last" => Kind::Last,
            "then" => Kind::Then,
            "fold" => Kind::Fold,
            "from" => Kind::From,
            "with" => Kind::With,
            "else" => Kind::Else,
            _ => Kind::Name,
        },
        5 => match word {
            "class" => Kind::Class,
            "input" => Kind::Input,
            "local" => Kind::Local,
            "first" => Kind::First,
            _ => Kind::Name,
        },
        9 if word == "interface" => Kind::Interface,
        _ => Kind::Name,
    }
}

/// The kind of the mark of one character.
#[inline(always)]
#[tactic(auto, unfolding(crate::specs::scanner::Kinds::kind_of_mark))]
pub fn short_mark(c: char) -> Option<Kind>
    ensures kind { result ≡ kind_of_mark (c ∷ []) }
{
    Some(match c {
        '{' => Kind::LeftBrace,
        '}' => Kind::RightBrace,
        '(' => Kind::LeftParen,
        ')' => Kind::RightParen,
        '[' => Kind::LeftBracket,
        ']' => Kind::RightBracket,
        ';' => Kind::Semicolon,
        ':' => Kind::Colon,
        ',' => Kind::Comma,
        '.' => Kind::Dot,
        '=' => Kind::Equals,
        '+' => Kind::Plus,
        '-' => Kind::Minus,
        '*' => Kind::Star,
        '/' => Kind::Slash,
        '<' => Kind::Less,
        '>' => Kind::More,
        '!' => Kind::Bang,
        _ => return None,
    })
}

/// The kind of the mark of two characters.
#[inline(always)]
#[tactic(auto, unfolding(crate::specs::scanner::Kinds::kind_of_mark))]
pub fn long_mark(first: char, second: char) -> Option<Kind>
    ensures kind { result ≡ kind_of_mark (first ∷ second ∷ []) }
{
    match (first, second) {
        (':', '=') => Some(Kind::Assign),
        ('<', '=') => Some(Kind::LessEq),
        ('>', '=') => Some(Kind::MoreEq),
        ('=', '=') => Some(Kind::EqualEqual),
        ('!', '=') => Some(Kind::Unequal),
        ('&', '&') => Some(Kind::AndAnd),
        ('|', '|') => Some(Kind::OrOr),
        _ => None,
    }
}

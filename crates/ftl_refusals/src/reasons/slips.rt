//! Slips that are often made, known by the tokens around the one at which a text goes wrong.

use crate::reasons::phrases::has;
use crate::tokens::{kind_at, word_at};
use ftl_page::Section;
use ftl_tokens::{Kind, TokenizedText};

/// What may have gone wrong.
#[derive(Clone, Copy)]
pub enum Slip {
    /// A slip with what to write.
    Known(&'static str),
    /// This mark is missing before the token.
    Missing(&'static str),
}

/// What stands around the token at which a text goes wrong.
#[derive(Drop)]
pub struct Around<'t> {
    pub token: usize,
    pub word: &'t str,
    pub kind: Option<Kind>,
    /// The tokens before it, the nearest first.
    pub before: &'t str,
    pub second_before: &'t str,
    pub kind_before: Option<Kind>,
    pub after: &'t str,
    /// Whether no space stands before it, and behind it.
    pub joined: bool,
    pub joined_after: bool,
    pub joined_before: bool,
    pub statement: Statement,
    pub expected: &'t [&'static str],
}

/// What a statement of a grammar has before the token.
#[derive(Clone, Copy)]
pub struct Statement {
    /// It has a `:=`.
    pub body: bool,
    /// So many `(` are open.
    pub open: usize,
    /// It has an `if`.
    pub chooses: bool,
    /// It has a `min` or a `max`.
    pub bounds: bool,
    /// It stands in a class, and not in an interface.
    pub in_class: bool,
    /// A `show` stands before it.
    pub shown: bool,
}

const EMPTY: Statement = Statement {
    body: false,
    open: 0,
    chooses: false,
    bounds: false,
    in_class: false,
    shown: false,
};

/// What stands around token `k`.
pub fn tokens_around<'t>(
    scanned: &'t TokenizedText,
    k: usize,
    expected: &'t [&'static str],
) -> Around<'t> {
    let before = k.checked_sub(1);
    let second = k.checked_sub(2);
    Around {
        token: k,
        word: word_at(scanned, k),
        kind: kind_at(scanned, k),
        before: word_or_none(scanned, before),
        second_before: word_or_none(scanned, second),
        kind_before: match before {
            Some(before) => kind_at(scanned, before),
            None => None,
        },
        after: word_at(scanned, k.saturating_add(1)),
        joined: is_joined(scanned, before),
        joined_before: is_joined(scanned, second),
        joined_after: is_joined(scanned, Some(k)),
        statement: statement_before(scanned, k),
        expected,
    }
}

fn word_or_none(scanned: &TokenizedText, k: Option<usize>) -> &str {
    match k {
        Some(k) => word_at(scanned, k),
        None => "",
    }
}

/// Whether the token has no space between it and the next one.
fn is_joined(scanned: &TokenizedText, k: Option<usize>) -> bool {
    let Some(k) = k else {
        return false;
    };
    match (
        scanned.list().get(k),
        scanned.list().get(k.saturating_add(1)),
    ) {
        (Some(token), Some(next)) => token.end == next.start,
        _ => false,
    }
}

fn statement_before(scanned: &TokenizedText, k: usize) -> Statement {
    let mut statement = EMPTY;
    for token in scanned.list().iter().take(k) {
        statement = statement_after(statement, token.kind);
    }
    statement
}

fn statement_after(statement: Statement, kind: Kind) -> Statement {
    match kind {
        Kind::Interface => EMPTY,
        Kind::Class => Statement {
            in_class: true,
            ..EMPTY
        },
        Kind::Semicolon | Kind::LeftBrace | Kind::RightBrace => Statement {
            in_class: statement.in_class,
            shown: statement.shown,
            ..EMPTY
        },
        Kind::LeftParen => Statement {
            open: statement.open.saturating_add(1),
            ..statement
        },
        Kind::RightParen => Statement {
            open: statement.open.saturating_sub(1),
            ..statement
        },
        _ => statement_behind_word(statement, kind),
    }
}

fn statement_behind_word(statement: Statement, kind: Kind) -> Statement {
    match kind {
        Kind::Show => Statement {
            shown: true,
            ..statement
        },
        Kind::Assign => Statement {
            body: true,
            ..statement
        },
        Kind::If => Statement {
            chooses: true,
            ..statement
        },
        Kind::Min | Kind::Max => Statement {
            bounds: true,
            ..statement
        },
        _ => statement,
    }
}

/// The slip that was made, if it is a known one.
pub fn slip_of(section: Section, around: &Around<'_>) -> Option<Slip> {
    if let Some(note) = word_slip(around) {
        return Some(Slip::Known(note));
    }
    let note = match section {
        Section::Grammar => grammar_slip(around),
        Section::Schedule => schedule_slip(around),
        Section::Document => document_slip(around),
        Section::Edits => None,
    };
    match note {
        Some(note) => Some(Slip::Known(note)),
        None => missing_mark(around),
    }
}

/// A slip in a comment, a name, a number or a reserved word.
fn word_slip(around: &Around<'_>) -> Option<&'static str> {
    let word = around.word;
    if (word == "/" && (around.after == "/" || around.after == "*"))
        || ((word == "/" || word == "*") && around.before == "/" && around.joined)
    {
        return Some("a comment begins with `#` and ends with its line");
    }
    if is_dashed(around) {
        return Some("a name has letters, digits and `_`: `tool_tip`, not `tool-tip`");
    }
    if word == "." && around.kind_before == Some(Kind::Number) {
        return Some("numbers are whole, without a point");
    }
    if is_unit(around) {
        return Some("numbers have no unit");
    }
    for expected in around.expected {
        if *expected != word && expected.len() > 1 && expected.eq_ignore_ascii_case(word) {
            return Some("the words of the language are written in small letters");
        }
    }
    None
}

/// A name behind a number that it touches, here or before.
fn is_unit(around: &Around<'_>) -> bool {
    let here = around.kind == Some(Kind::Name) && around.joined && is_digits(around.before);
    let before = around.kind_before == Some(Kind::Name)
        && around.joined_before
        && is_digits(around.second_before);
    here || before
}

fn is_digits(word: &str) -> bool {
    match word.as_bytes().first() {
        Some(first) => first.is_ascii_digit(),
        None => false,
    }
}

/// A `-` between two names that it touches.
fn is_dashed(around: &Around<'_>) -> bool {
    let here = around.word == "-"
        && around.kind_before == Some(Kind::Name)
        && around.joined
        && around.joined_after;
    let before = around.second_before == "-"
        && around.kind_before == Some(Kind::Name)
        && around.joined_before
        && is_only(around.expected, ".");
    here || before
}

fn is_only(expected: &[&'static str], word: &str) -> bool {
    expected.len() == 1 && has(expected, word)
}

fn grammar_slip(around: &Around<'_>) -> Option<&'static str> {
    if around.statement.body {
        return match condition_slip(around) {
            Some(note) => Some(note),
            None => value_slip(around),
        };
    }
    match rule_slip(around) {
        Some(note) => Some(note),
        None => declaration_slip(around),
    }
}

fn is_comparing(word: &str) -> bool {
    match word {
        "<" | "<=" | ">" | ">=" | "==" | "!=" | "&&" | "||" => true,
        _ => false,
    }
}

fn condition_slip(around: &Around<'_>) -> Option<&'static str> {
    let word = around.word;
    if is_comparing(word) && around.statement.open > 0 {
        return Some("`( )` groups numbers; conditions are grouped by `[ ]`");
    }
    if is_comparing(word) && !around.statement.chooses {
        return Some("conditions stand after `if` alone: `if .. then 1 else 0`");
    }
    if word == "=" {
        return Some("numbers are compared by `==`");
    }
    if word == "and" {
        return Some("conditions are joined by `&&`");
    }
    if word == "or" {
        return Some("conditions are joined by `||`");
    }
    if around.before == "not" {
        return Some("a condition is negated by `!`, as in `![self.a < 3]`");
    }
    if around.before == "!" {
        return Some("`!` stands before `[ ]`, as in `![self.a < 3]`");
    }
    if word == "if" && (around.before == "else" || around.before == "then") {
        return Some("an `if` in another stands in `( )`: `else (if .. then .. else ..)`");
    }
    if word == "if" {
        return Some("an `if` in a sum stands in `( )`: `2 + (if .. then .. else ..)`");
    }
    if has(around.expected, "else") {
        return Some("every `if` has an `else`");
    }
    None
}

fn value_slip(around: &Around<'_>) -> Option<&'static str> {
    let word = around.word;
    if around.before == "/" {
        return Some("only a number from 1 on divides, which is written there");
    }
    if word == "fold" {
        return Some("a `fold` is the whole of a rule: give it a `local` of its own, and read that");
    }
    if word == "first" {
        return Some(
            "`first .. then ..` is the whole of a rule for a list: `kids.x := first 0 then ..`",
        );
    }
    if word == "," && around.statement.bounds && has(around.expected, ")") {
        return Some("`min` and `max` take two: `min(self.a, min(self.b, self.c))`");
    }
    if word == "," && around.second_before == "first" {
        return Some("no comma stands before `then`");
    }
    if word == "-" && around.before == "or" {
        return Some("a negative number stands in `( )` there: `or (-1)`");
    }
    if has(around.expected, "or") {
        return Some("say what holds for an empty list: `last kids.w or 0`");
    }
    if is_only(around.expected, ".") && around.kind_before == Some(Kind::Name) {
        return Some(
            "a name alone is no value: `self.w`, `this.w` of the current kid, `body.w` of a child",
        );
    }
    None
}

fn rule_slip(around: &Around<'_>) -> Option<&'static str> {
    let word = around.word;
    if has(around.expected, ":=") && (word == "=" || word == ":") {
        return Some("a rule is written with `:=`");
    }
    if (word == ":=" || word == "=") && around.kind_before == Some(Kind::Name) {
        if has(around.expected, ".") {
            return Some("a rule begins with `self.` or the name of a child: `self.w := ..`");
        }
        return Some("there are no defaults: the document gives each input");
    }
    if word == ":" && has(around.expected, ".") {
        return Some("children stand before the rules of their class");
    }
    None
}

fn declaration_slip(around: &Around<'_>) -> Option<&'static str> {
    let word = around.word;
    if is_pass_word(word) && around.before == "}" {
        return Some("is the heading `%schedule` missing above this?");
    }
    if around.before == "," && (word == ";" || word == "}") {
        return Some("no comma stands before `;`");
    }
    if word == ";" && around.before == "}" {
        return Some("no `;` stands behind `}`");
    }
    if (word == "inh" || word == "syn") && around.statement.in_class {
        return Some("an `inh` or `syn` is declared by an interface; of a class alone is a `local`");
    }
    if word == "local" && !around.statement.in_class {
        return Some("a `local` is declared by a class");
    }
    if (word == "inh" || word == "syn" || word == "input") && around.statement.shown {
        return Some("`show` stands last in its interface");
    }
    if word == "input" || word == "local" {
        return Some("inputs and locals stand before the children and the rules of their class");
    }
    if word == "{" && has(around.expected, ":") {
        return Some("a class names its interface: `class Row : Box {`");
    }
    if has(around.expected, "}") && (word == "class" || word == "interface") {
        return Some("the `}` of what is declared above is missing");
    }
    reserved_slip(around)
}

/// A reserved word where a name is wanted.
fn reserved_slip(around: &Around<'_>) -> Option<&'static str> {
    let is_word = match around.word.as_bytes().first() {
        Some(first) => first.is_ascii_alphabetic(),
        None => false,
    };
    let only_a_name = has(around.expected, "x") && !has(around.expected, "(");
    if is_word && around.kind != Some(Kind::Name) && only_a_name {
        return Some("this word is reserved, and no name");
    }
    None
}

fn schedule_slip(around: &Around<'_>) -> Option<&'static str> {
    let word = around.word;
    if word == "," {
        return Some("the attributes of a list stand beside each other, without a mark");
    }
    if word == "auto" && around.token == 0 {
        return Some("`%schedule auto` stands in one line");
    }
    if around.kind == None && around.before == ";" {
        return Some("`;` stands between stages, and not behind the last one");
    }
    if word == "nest" {
        return Some("only `topdown` and `bottomup` passes nest, and what is nested nests nothing");
    }
    if is_only(around.expected, ".") {
        return Some(
            "an `inh` or `syn` is named with its interface, a `local` with its class: `Box.x`",
        );
    }
    if has(around.expected, "||") && around.kind == Some(Kind::Name) {
        return Some(if is_pass_word(word) {
            "stages are separated by `;`, passes beside each other by `||`"
        } else {
            "is the heading `%document` missing above this?"
        });
    }
    reserved_slip(around)
}

fn is_pass_word(word: &str) -> bool {
    word == "topdown" || word == "bottomup" || word == "inorder"
}

fn document_slip(around: &Around<'_>) -> Option<&'static str> {
    let word = around.word;
    if word == "," || word == ";" {
        return Some("fields and nodes stand beside each other, without a mark");
    }
    if word == ":" || word == ":=" {
        return Some("a field is written with `=`");
    }
    if word == "(" {
        return Some("kids stand in `[ ]`");
    }
    if word == "+" || word == "*" || word == "/" {
        return Some("a document has numbers alone; what is computed stands in rules");
    }
    if has(around.expected, END_OF_DOCUMENT) {
        return Some("a document is one node, with the others in its fields");
    }
    reserved_slip(around)
}

const END_OF_DOCUMENT: &str = "";

/// A mark without which the text does not go on.
fn missing_mark(around: &Around<'_>) -> Option<Slip> {
    for mark in [";", "]", ")"] {
        if has(around.expected, mark) {
            return Some(Slip::Missing(mark));
        }
    }
    if around.kind == None && has(around.expected, "}") {
        return Some(Slip::Missing("}"));
    }
    None
}

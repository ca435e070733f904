//! A text with its tokens, whatever their greatest number.

ghost use Rattle.std.specs.Prelude.{◌≡◌, ◌<◌, ◌≤◌, length, string_bytes, slice_get, IfSome};
ghost use Rattle.std.specs.Prelude.{IsSomeAnd, IsTrue};
ghost use Rattle.std.specs.Str.Parse.{digits_value};
ghost use Rattle.ftl_tokens.specs.scanner.Kinds.{is_number};
ghost use Rattle.ftl_tokens.specs.scanner.Tokenized.{token_text, IsTokenOf, AreTokensOf, symbol};
ghost use Rattle.ftl_tokens.specs.scanner.Tokenized.{symbols_of, number};

use crate::scanner::kind::{Kind, Token};
use std::marker::Model;

/// A text with its tokens. `Scanned` and `WideScanned` lend it, so that readers of both are one.
#[derive(Debug, Drop)]
pub struct TokenizedText {
    text: String,
    list: Vec<Token>,
}

impl Model for TokenizedText {
    ghost use Rattle.std.specs.Prelude.{string_bytes};
    ghost use Rattle.ftl_tokens.specs.scanner.Tokenized.{Tokenized, AreTokensOf};

    ghost Value = { Tokenized };

    ghost view = { λ s. record { text = string_bytes s.text; tokens = s.list.items } };

    ghost invariant = { λ s. AreTokensOf 140737488355327 (string_bytes s.text) 0 s.list.items };
}

impl TokenizedText {
    pub(crate) fn new(text: String, list: Vec<Token>) -> TokenizedText
        requires tokens { AreTokensOf 140737488355327 (string_bytes text) 0 list.items }
        ensures text { result.text ≡ string_bytes text }
        ensures tokens { result.tokens ≡ list.items }
    {
        TokenizedText { text, list }
    }

    /// The text.
    pub fn text(&self) -> &str
        ensures text { result.now ≡ self.now.text }
    {
        self.text.as_str()
    }

    /// The tokens, in order.
    pub fn list(&self) -> &[Token]
        ensures list { result.now ≡ self.now.tokens }
        ensures tokens { AreTokensOf 140737488355327 self.now.text 0 self.now.tokens }
    {
        self.list.as_slice()
    }

    /// The text of token `k`.
    pub fn slice(&self, k: usize) -> &str
        requires within { k < length self.now.tokens }
        ensures text { IfSome (slice_get self.now.tokens k)
            (λ t. result.now ≡ token_text self.now.text t) }
        ensures token { IfSome (slice_get self.now.tokens k)
            (IsTokenOf 140737488355327 self.now.text) }
        ensures symbol { IfSome (slice_get self.now.tokens k)
            (λ t. slice_get (symbols_of self.now) k ≡ Some (symbol t.kind result.now)) }
    {
        let token = self.list[k];
        &self.text.as_str()[token.start as usize..token.end as usize]
    }

    /// The number that token `k` writes.
    pub fn number(&self, k: usize) -> u64
        requires number { IsSomeAnd (slice_get self.now.tokens k) (λ t. t.kind ≡ Kind.Number) }
        ensures value { IfSome (slice_get self.now.tokens k)
            (λ t. result ≡ digits_value 10 (token_text self.now.text t)) }
        ensures symbol { slice_get (symbols_of self.now) k ≡ Some (number result) }
        ensures small { result ≤ 140737488355327 }
    {
        number_of(self.slice(k))
    }
}

/// The number that the digits write.
fn number_of(digits: &str) -> u64
    requires number { IsTrue (is_number digits.now) }
    requires small { digits_value 10 digits.now ≤ 140737488355327 }
    ensures value { result ≡ digits_value 10 digits.now }
{
    digits.parse::<u64>().unwrap()
}

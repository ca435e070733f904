//! What the calls that scan a text give.

ghost use Rattle.std.specs.Prelude.{◌≡◌, ◌<◌, ◌≤◌, length, slice_get, IfSome, IsSomeAnd};
ghost use Rattle.std.specs.Str.Parse.{digits_value};
ghost use Rattle.ftl_tokens.specs.scanner.Tokenized.{IsGreatestNumber, token_text, IsTokenOf};
ghost use Rattle.ftl_tokens.specs.scanner.Tokenized.{AreTokensOf};
ghost use Rattle.ftl_tokens.specs.scanner.Tokenized.{symbol, symbols_of, number};

use crate::scanner::kind::{Kind, Token};
use crate::scanner::tokenized::TokenizedText;
use std::marker::Model;

/// A text with its tokens, as `tokens` gives them. Contracts see both, and readers above see the
/// symbols of the tokens, by `symbols_of`.
#[derive(Debug, Drop)]
pub struct Scanned {
    tokenized: TokenizedText,
}

impl Model for Scanned {
    ghost use Rattle.ftl_tokens.specs.scanner.Tokenized.{Tokenized, AreTokensOf};

    ghost Value = { Tokenized };

    ghost view = { λ s. s.tokenized };

    ghost invariant = { λ s. AreTokensOf 2147483647 s.tokenized.text 0 s.tokenized.tokens };
}

impl Scanned {
    pub(crate) fn new(tokenized: TokenizedText) -> Scanned
        requires tokens { AreTokensOf 2147483647 tokenized.text 0 tokenized.tokens }
        ensures tokenized { result ≡ tokenized }
    {
        Scanned { tokenized }
    }

    /// The text with its tokens.
    pub fn tokenized(&self) -> &TokenizedText
        ensures tokenized { result.now ≡ self.now }
        ensures tokens { AreTokensOf 2147483647 self.now.text 0 self.now.tokens }
    {
        &self.tokenized
    }

    /// The text.
    pub fn text(&self) -> &str
        ensures text { result.now ≡ self.now.text }
    {
        self.tokenized().text()
    }

    /// The tokens, in order.
    pub fn list(&self) -> &[Token]
        ensures list { result.now ≡ self.now.tokens }
        ensures tokens { AreTokensOf 2147483647 self.now.text 0 self.now.tokens }
    {
        self.tokenized().list()
    }

    /// The text of token `k`.
    pub fn slice(&self, k: usize) -> &str
        requires within { k < length self.now.tokens }
        ensures text { IfSome (slice_get self.now.tokens k)
            (λ t. result.now ≡ token_text self.now.text t) }
        ensures token { IfSome (slice_get self.now.tokens k) (IsTokenOf 2147483647 self.now.text) }
        ensures symbol { IfSome (slice_get self.now.tokens k)
            (λ t. slice_get (symbols_of self.now) k ≡ Some (symbol t.kind result.now)) }
    {
        self.tokenized().slice(k)
    }

    /// The number that token `k` writes.
    pub fn number(&self, k: usize) -> u32
        requires number { IsSomeAnd (slice_get self.now.tokens k) (λ t. t.kind ≡ Kind.Number) }
        ensures value { IfSome (slice_get self.now.tokens k)
            (λ t. result ≡ digits_value 10 (token_text self.now.text t)) }
        ensures symbol { slice_get (symbols_of self.now) k ≡ Some (number result) }
        ensures small { result ≤ 2147483647 }
    {
        self.tokenized().number(k) as u32
    }
}

/// A text with its tokens and their greatest number, as `document_tokens` gives them.
#[derive(Debug, Drop)]
pub struct WideScanned {
    tokenized: TokenizedText,
    greatest: u64,
}

impl Model for WideScanned {
    ghost use Rattle.ftl_tokens.specs.scanner.Tokenized.{WideTokenized, IsGreatestNumber};
    ghost use Rattle.ftl_tokens.specs.scanner.Tokenized.{AreTokensOf};

    ghost Value = { WideTokenized };

    ghost view = { λ s. record { tokenized = s.tokenized; greatest = s.greatest } };

    ghost invariant = { λ s. AreTokensOf s.greatest s.tokenized.text 0 s.tokenized.tokens
        × IsGreatestNumber s.greatest };
}

impl WideScanned {
    pub(crate) fn new(tokenized: TokenizedText, greatest: u64) -> WideScanned
        requires tokens { AreTokensOf greatest tokenized.text 0 tokenized.tokens }
        requires limit { IsGreatestNumber greatest }
        ensures tokenized { result.tokenized ≡ tokenized }
        ensures greatest { result.greatest ≡ greatest }
    {
        WideScanned {
            tokenized,
            greatest,
        }
    }

    /// The greatest number that the call allowed.
    pub fn greatest(&self) -> u64
        ensures greatest { result ≡ self.now.greatest }
        ensures one_of_two { IsGreatestNumber self.now.greatest }
    {
        self.greatest
    }

    /// The text with its tokens.
    pub fn tokenized(&self) -> &TokenizedText
        ensures tokenized { result.now ≡ self.now.tokenized }
        ensures tokens { AreTokensOf self.now.greatest self.now.tokenized.text 0
            self.now.tokenized.tokens }
    {
        &self.tokenized
    }

    /// The tokens, in order.
    pub fn list(&self) -> &[Token]
        ensures list { result.now ≡ self.now.tokenized.tokens }
        ensures tokens { AreTokensOf self.now.greatest self.now.tokenized.text 0
            self.now.tokenized.tokens }
    {
        self.tokenized().list()
    }

    /// The text of token `k`.
    pub fn slice(&self, k: usize) -> &str
        requires within { k < length self.now.tokenized.tokens }
        ensures text { IfSome (slice_get self.now.tokenized.tokens k)
            (λ t. result.now ≡ token_text self.now.tokenized.text t) }
        ensures token { IfSome (slice_get self.now.tokenized.tokens k)
            (IsTokenOf self.now.greatest self.now.tokenized.text) }
        ensures symbol { IfSome (slice_get self.now.tokenized.tokens k)
            (λ t. slice_get (symbols_of self.now.tokenized) k ≡ Some (symbol t.kind result.now)) }
    {
        self.tokenized().slice(k)
    }

    /// The number that token `k` writes.
    pub fn number(&self, k: usize) -> u64
        requires number { IsSomeAnd (slice_get self.now.tokenized.tokens k)
            (λ t. t.kind ≡ Kind.Number) }
        ensures value { IfSome (slice_get self.now.tokenized.tokens k)
            (λ t. result ≡ digits_value 10 (token_text self.now.tokenized.text t)) }
        ensures symbol { slice_get (symbols_of self.now.tokenized) k ≡ Some (number result) }
        ensures small { result ≤ self.now.greatest }
    {
        self.tokenized().number(k)
    }
}

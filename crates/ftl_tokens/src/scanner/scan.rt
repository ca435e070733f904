//! The tokens of a text.

ghost use Rattle.std.specs.Prelude.{◌≡◌, ◌≤◌, length, string_bytes, string_len, IfOk};
ghost use Rattle.ftl_model.specs.layout.Limits.{most_page_bytes};
ghost use Rattle.ftl_model.specs.layout.Outcome.{Gives};
ghost use Rattle.ftl_tokens.specs.scanner.Scan.{scan};
ghost use Rattle.ftl_tokens.specs.scanner.Tokenized.{IsGreatestNumber, AreTokensOf};
ghost use Rattle.ftl_tokens.specs.declared.scanner.fault.TokenFault.TheVariants.{OutOfMemory};

use crate::scanner::fault::TokenFault;
use crate::scanner::kind::Token;
use crate::scanner::piece::{Piece, piece_of};
use crate::scanner::scanned::{Scanned, WideScanned};
use crate::scanner::tokenized::TokenizedText;
use std::alloc::Global;

/// The tokens of a text, which is kept beside them. A text has 64 MiB at most, so that places fit
/// 32 bits. One pass, which allocates nothing but the list.
pub fn tokens(alloc: Global, text: String) -> Result<Scanned, TokenFault>
    requires short { string_len text ≤ most_page_bytes }
    ensures exact { Gives OutOfMemory (λ scanned. scanned.tokens) result
        (scan 2147483647 (string_bytes text)) }
    ensures text { IfOk result (λ scanned. scanned.text ≡ string_bytes text) }
{
    Ok(Scanned::new(tokenized_text(alloc, text, 2147483647)?))
}

/// The tokens of a document, whose numbers are at most `greatest`. Else as `tokens`.
pub fn document_tokens(
    alloc: Global,
    text: String,
    greatest: u64,
) -> Result<WideScanned, TokenFault>
    requires short { string_len text ≤ most_page_bytes }
    requires limit { IsGreatestNumber greatest }
    ensures exact { Gives OutOfMemory (λ scanned. scanned.tokenized.tokens) result
        (scan greatest (string_bytes text)) }
    ensures text { IfOk result (λ scanned. scanned.tokenized.text ≡ string_bytes text) }
    ensures greatest { IfOk result (λ scanned. scanned.greatest ≡ greatest) }
{
    let tokenized = tokenized_text(alloc, text, greatest)?;
    Ok(WideScanned::new(tokenized, greatest))
}

fn tokenized_text(alloc: Global, text: String, greatest: u64) -> Result<TokenizedText, TokenFault>
    requires short { string_len text ≤ most_page_bytes }
    requires limit { greatest ≤ 140737488355327 }
    ensures exact { Gives OutOfMemory (λ tokenized. tokenized.tokens) result
        (scan greatest (string_bytes text)) }
    ensures text { IfOk result (λ tokenized. tokenized.text ≡ string_bytes text) }
    ensures tokens { IfOk result
        (λ tokenized. AreTokensOf greatest tokenized.text 0 tokenized.tokens) }
{
    let list = token_list(alloc, text.as_str(), greatest)?;
    Ok(TokenizedText::new(text, list))
}

fn token_list(alloc: Global, text: &str, greatest: u64) -> Result<Vec<Token>, TokenFault>
    requires short { length text.now ≤ most_page_bytes }
    requires limit { greatest ≤ 140737488355327 }
    ensures exact { Gives OutOfMemory (λ list. list.items) result (scan greatest text.now) }
{
    let mut list = Vec::new(alloc);
    let mut at = 0;
    let mut rest = text;
    while !rest.is_empty() {
        let len = match piece_of(rest, greatest) {
            Piece::Gap(len) => len,
            Piece::Token(kind, len) => {
                list.push(Token {
                    kind,
                    start: at as u32,
                    end: (at + len) as u32,
                })?;
                len
            }
            Piece::LargeNumber => return Err(TokenFault::NumberTooLarge { at: at as u32 }),
            Piece::Nothing => return Err(TokenFault::BadChar { at: at as u32 }),
        };
        at += len;
        rest = &rest[len..];
    }
    Ok(list)
}

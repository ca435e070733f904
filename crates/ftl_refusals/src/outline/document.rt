//! The nodes and fields of a document.

use crate::tokens::{kind_at, word_at};
use ftl_tokens::{Kind, TokenizedText};

/// The token that names the class of a node, by the node's number.
pub fn node_token(scanned: &TokenizedText, node: usize) -> Option<usize> {
    let mut left = node;
    for k in 0..scanned.list().len() {
        if is_node(scanned, k) {
            if left == 0 {
                return Some(k);
            }
            left = left.saturating_sub(1);
        }
    }
    None
}

/// The class of a node; no text where there is no such node.
pub fn node_word(scanned: &TokenizedText, node: usize) -> &str {
    match node_token(scanned, node) {
        Some(k) => word_at(scanned, k),
        None => "",
    }
}

/// Whether a node begins with token `k`.
fn is_node(scanned: &TokenizedText, k: usize) -> bool {
    kind_at(scanned, k) == Some(Kind::Name)
        && kind_at(scanned, k.saturating_add(1)) == Some(Kind::LeftBrace)
}

/// The token that names a field of a node, of those of this name that behind the first `before`.
pub fn field_token(
    scanned: &TokenizedText,
    node: usize,
    name: &str,
    before: usize,
) -> Option<usize> {
    let first = node_token(scanned, node)?;
    let mut open: usize = 0;
    let mut left = before;
    for k in first..scanned.list().len() {
        open = open_after(open, kind_at(scanned, k));
        if k > first.saturating_add(1) && open == 0 {
            return None;
        }
        if open == 1 && is_field(scanned, k, name) {
            if left == 0 {
                return Some(k);
            }
            left = left.saturating_sub(1);
        }
    }
    None
}

fn is_field(scanned: &TokenizedText, k: usize, name: &str) -> bool {
    word_at(scanned, k) == name && kind_at(scanned, k.saturating_add(1)) == Some(Kind::Equals)
}

fn open_after(open: usize, kind: Option<Kind>) -> usize {
    match kind {
        Some(Kind::LeftBrace) => open.saturating_add(1),
        Some(Kind::RightBrace) => open.saturating_sub(1),
        _ => open,
    }
}

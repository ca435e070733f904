//! Pieces of text that are copied sixteen bytes at a time.

ghost use Rattle.std.specs.Prelude.{◌≡◌, ◌≤◌, ◌+◌, ◌++◌, codes, length, take, IfOk};
ghost use Rattle.ftl_tree.specs.boxes.PieceRoom.{field_room, piece_room};

use crate::boxes::room::{put, put_any};
use sqlite_items::Items;
use std::alloc::{AllocError, Global};
use std::marker::Model;

/// As many bytes as are copied of a piece that has no more, whatever its length.
const SHORT: usize = 16;

/// Room for a value, of twenty bytes at most.
const BESIDE: usize = 20;

/// A piece of text, and the sixteen bytes that are copied where it is short. Contracts see the
/// text.
#[derive(Drop)]
pub(crate) struct Piece {
    short: [u8; SHORT],
    text: Items<u8>,
    room: usize,
}

impl Model for Piece {
    ghost use Rattle.std.specs.Prelude.{ℕ, List};

    ghost Value = { List ℕ };

    ghost use Rattle.ftl_tree.specs.boxes.Piece.{IsPiece, text_of};

    ghost view = { text_of };

    ghost invariant = { IsPiece };
}

impl Piece {
    /// A space, a name, and what ends it.
    pub(crate) fn new(alloc: Global, name: &[u8], end: &[u8]) -> Result<Piece, AllocError>
        ensures piece { IfOk result (λ p. p ≡ codes " " ++ name.now ++ end.now) }
    {
        let mut text = Vec::new(alloc);
        text.extend_from_slice(b" ")?;
        text.extend_from_slice(name)?;
        text.extend_from_slice(end)?;
        let Some(room) = text.len().max(SHORT).checked_add(BESIDE) else {
            return Err(AllocError);
        };
        Ok(Piece {
            short: short_of(&text),
            text: Items::from_vec(text),
            room,
        })
    }

    /// Room for it and whatever is copied with it, and for a value beside it.
    pub(crate) fn field_room(&self) -> usize
        ensures room { result ≡ field_room self.now }
    {
        self.room
    }

    /// Writes it behind a text, and tells how long the text is then.
    #[inline(always)]
    pub(crate) fn put(&self, bytes: &mut [u8], end: usize) -> usize
        requires room { end + piece_room self.now ≤ length bytes.old }
        ensures text { take result bytes.new ≡ take end bytes.old ++ self.now }
        ensures end { result ≡ end + length self.now }
    {
        let count = self.text.len();
        if count > SHORT {
            return put_any(bytes, end, self.text.as_slice());
        }
        put_short(bytes, end, self.short);
        end + count
    }
}

// All sixteen, one by one, out of an array of its own, which overlaps nothing: that is compiled to
// one copy.
#[inline(always)]
fn put_short(bytes: &mut [u8], end: usize, short: [u8; SHORT])
    requires room { end + 16 ≤ length bytes.old }
    ensures text { take (end + 16) bytes.new ≡ take end bytes.old ++ short }
{
    for k in 0..SHORT {
        bytes[end + k] = short[k];
    }
}

// The bytes of a short text with zeros behind them, and zeros alone for one that is longer.
fn short_of(text: &[u8]) -> [u8; SHORT]
    ensures held { length result ≡ 16 }
    ensures short { length text.now ≤ 16 → take (length text.now) result ≡ text.now }
{
    let mut short = [0; SHORT];
    if text.len() <= SHORT {
        put(&mut short, 0, text);
    }
    short
}

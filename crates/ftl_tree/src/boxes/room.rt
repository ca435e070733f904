//! A text that is written by index into bytes that are there.

ghost use Rattle.std.specs.Prelude.{◌≡◌, ◌≤◌, ◌+◌, ◌++◌, [], ◌∷◌, length, take, OnOk};

use std::alloc::AllocError;

/// How many bytes are set to 0 at once: few enough that they are in the nearest cache when they are
/// written over.
const GROWTH: usize = 1024;

/// Makes room for so many bytes behind a text of so many.
#[inline(always)]
pub(crate) fn make_room(bytes: &mut Vec<u8>, end: usize, room: usize) -> Result<(), AllocError>
    requires end { end ≤ length bytes.old.items }
    ensures text { OnOk result (take end bytes.new.items ≡ take end bytes.old.items) }
    ensures room { OnOk result (end + room ≤ length bytes.new.items) }
{
    if bytes.len() - end < room {
        grow(bytes, room)?;
    }
    Ok(())
}

// Piece by piece, so that what is set to 0 is soon written over.
#[inline(never)]
fn grow(bytes: &mut Vec<u8>, room: usize) -> Result<(), AllocError>
    ensures kept { OnOk result
        (take (length bytes.old.items) bytes.new.items ≡ bytes.old.items) }
    ensures room { OnOk result (length bytes.old.items + room ≤ length bytes.new.items) }
{
    let more = room.max(GROWTH);
    let Some(count) = bytes.len().checked_add(more) else {
        return Err(AllocError);
    };
    bytes.resize(count, 0)
}

/// Writes bytes behind a text of so many, and tells how many there are then.
#[inline(always)]
pub(crate) fn put(bytes: &mut [u8], end: usize, more: &[u8]) -> usize
    requires room { end + length more.now ≤ length bytes.old }
    ensures text { take result bytes.new ≡ take end bytes.old ++ more.now }
    ensures end { result ≡ end + length more.now }
{
    bytes[end..end + more.len()].copy_from_slice(more);
    end + more.len()
}

/// The same where their number is not known to whoever calls.
#[inline(never)]
pub(crate) fn put_any(bytes: &mut [u8], end: usize, more: &[u8]) -> usize
    requires room { end + length more.now ≤ length bytes.old }
    ensures text { take result bytes.new ≡ take end bytes.old ++ more.now }
    ensures end { result ≡ end + length more.now }
{
    put(bytes, end, more)
}

/// Writes a byte.
#[inline(always)]
pub(crate) fn put_byte(bytes: &mut [u8], end: usize, byte: u8) -> usize
    requires room { end + 1 ≤ length bytes.old }
    ensures text { take result bytes.new ≡ take end bytes.old ++ byte ∷ [] }
    ensures end { result ≡ end + 1 }
{
    bytes[end] = byte;
    end + 1
}

//! Buffers of the caller's filled.

ghost use Rattle.maugzeris_c.specs.context.Telling.{Fills};

use crate::context::fault::Fault;

/// Puts items into a buffer, if there is room, and tells how many they are.
pub(crate) fn fill<T: Copy>(items: &[T], buffer: &mut [T], needed: &mut usize) -> Result<(), Fault>
    ensures fills { Fills items.now buffer.old buffer.new needed.new result }
{
    *needed = items.len();
    if items.len() > buffer.len() {
        return Err(Fault::NoRoom);
    }
    buffer[..items.len()].copy_from_slice(items);
    Ok(())
}

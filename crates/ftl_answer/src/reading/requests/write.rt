//! The answer, written.

ghost use Rattle.ftl_edge.specs.Counts.{Rose};
ghost use Rattle.ftl_answer.specs.reading.requests.Requests.{IsWritten};

use crate::reading::requests::request::Undone;
use crate::reading::sections::{Decided, Status};
use ftl_edge::{Sink, write_whole};

/// Writes what was decided to the sink, and answers the status to end with.
pub fn written<K: Sink>(sink: &mut K, found: Result<Decided, Undone>) -> Status
    ensures written { IsWritten found result.0 (K.written sink.old) (K.written sink.new)
        (Rose (K.fault_count sink.old) (K.fault_count sink.new)) }
{
    match found {
        Ok(decided) => match write_whole(sink, &decided.text) {
            Ok(()) => decided.status,
            Err(_) => Status::WRITE_FAULT,
        },
        Err(Undone::ReadFault) => Status::READ_FAULT,
        Err(Undone::OutOfMemory) => Status::OUT_OF_MEMORY,
    }
}

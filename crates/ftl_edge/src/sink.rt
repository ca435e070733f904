//! Where bytes go, and how a whole text is written.
ghost use Rattle.std.specs.Prelude.{◌≡◌, ℕ, ◌<◌, ◌≤◌, Option, List, length, IfOk, OnOk, OnErr};
ghost use Rattle.std.specs.Io.{WritesAtMost};
ghost use Rattle.std.specs.Io.KnownBytes.{Appends, WriteAppends};
ghost use Rattle.ftl_edge.specs.Counts.{Rose};
ghost use Rattle.ftl_edge.specs.Sink.{AppendsFront};

use crate::{Failed, WriteFault};

/// Where bytes go, some at a time. Contracts see what was written, where the sink tells it, and its
/// count of faults.
pub trait Sink {
    /// The bytes that were written, where the sink tells them.
    ghost written: { Self → Option (List ℕ) };

    /// How often the sink has failed. It stands still at 2 ^ 64 - 1.
    ghost fault_count: { Self → ℕ };

    /// Appends the front of `piece`, and answers how many bytes that is.
    fn write_some(&mut self, piece: &[u8]) -> Result<usize, Failed>
        // What is appended.
        ensures within { WritesAtMost result piece.now }
        ensures bytes { WriteAppends (written self.old) (written self.new) result piece.now }

        // Faults.
        ensures kept { fault_count self.old ≤ fault_count self.new }
        ensures cause { OnErr result (Rose (fault_count self.old) (fault_count self.new)) }
        ensures none_taken { IfOk result (λ n. n ≡ 0 → 0 < length piece.now
            → Rose (fault_count self.old) (fault_count self.new)) };

    /// How often the sink has failed.
    fn faults(&self) -> u64
        ensures count { result ≡ fault_count self.now };
}

/// Appends all of `bytes`, in as many calls as the sink needs.
pub fn write_whole<K: Sink>(sink: &mut K, bytes: &[u8]) -> Result<(), WriteFault>
    ensures whole { OnOk result (Appends (K.written sink.old) (K.written sink.new) bytes.now) }

    // On a fault.
    ensures front { OnErr result
        (AppendsFront (K.written sink.old) (K.written sink.new) bytes.now) }
    ensures cause { OnErr result (Rose (K.fault_count sink.old) (K.fault_count sink.new)) }

    // On either.
    ensures kept { K.fault_count sink.old ≤ K.fault_count sink.new }
{
    let mut rest = bytes;
    while !rest.is_empty() {
        let count = sink.write_some(rest)?;
        if count == 0 {
            return Err(WriteFault);
        }
        rest = &rest[count..];
    }
    Ok(())
}

//! The words of the contracts at small values, and calls whose contracts are worked out by hand.
ghost use Rattle.std.specs.Prelude.{◌≡◌, ℕ, ◌+◌, ◌-◌, ◌^◌, ◌⊎◌, [], ◌∷◌, length, take, IsErr};
ghost use Rattle.std.specs.Prelude.{IsErrAnd, None, Some, Ok, Err};
ghost use Rattle.ftl_edge.specs.Counts.{raised, Rose, RoseBy, RisesByOk};
ghost use Rattle.ftl_edge.specs.Sink.{AppendsFront};
ghost use Rattle.ftl_edge.specs.Source.{TakesFront};

use super::fakes::Endless;
use ftl_edge::{Failed, MemSink, MemSource, ReadAllFault, Sink, Source, read_all};
use std::alloc::Global;

// The words on counts, and on what is left and appended, at small values.
fn words_at_small_values()
    ensures raised { raised 3 4 ≡ 7 }
    ensures stands { raised (2 ^ 64 - 1) 5 ≡ 2 ^ 64 - 1 }
    ensures rose { Rose 3 4 }
    ensures not_rose { Rose 3 3 → ⊥ }
    ensures rose_at_end { Rose (2 ^ 64 - 1) (2 ^ 64 - 1) }
    ensures by_ok { RisesByOk {E = ℕ} 3 7 (Ok 4) }
    ensures not_by_err { RisesByOk {E = ℕ} 3 4 (Err 1) → ⊥ }
    ensures rose_by { RoseBy 2 5 7 }
    ensures not_rose_by { RoseBy 2 5 6 → ⊥ }
    ensures front_taken { TakesFront (Some (1 ∷ 2 ∷ 3 ∷ [])) (Some (3 ∷ [])) 5 7 }
    ensures not_uncounted { TakesFront (Some (1 ∷ 2 ∷ 3 ∷ [])) (Some (3 ∷ [])) 5 6 → ⊥ }
    ensures not_untold { TakesFront (Some (1 ∷ [])) None 5 5 → ⊥ }
    ensures appended { AppendsFront (Some (1 ∷ [])) (Some (1 ∷ 2 ∷ [])) (2 ∷ 3 ∷ []) }
    ensures not_appended { AppendsFront (Some []) (Some (3 ∷ [])) (2 ∷ 3 ∷ []) → ⊥ }
{}

// A source of three bytes, of which a call gives two at most.
fn give_some(source: &mut MemSource, room: &mut [u8]) -> Result<usize, Failed>
    requires three { source.old ≡ record {
      left = 1 ∷ 2 ∷ 3 ∷ [];
      chunk = 2;
      failing = 1 ∷ [];
      calls = 0;
      taken = 0;
      fault_count = 0;
    } }
    requires room { room.old ≡ 7 ∷ 8 ∷ 9 ∷ [] }
    ensures first { result ≡ Ok 2 }
    ensures room { room.new ≡ 1 ∷ 2 ∷ 9 ∷ [] }
    ensures left { source.new.left ≡ 3 ∷ [] }
    ensures counted { source.new.fault_count ≡ 1 }
{
    let first = source.read_some(room);
    let _ = source.read_some(&mut []);
    first
}

// A sink that takes 16 bytes at a time, and whose call 1 fails, is handed 25 bytes.
fn write_twice(sink: &mut MemSink, text: &[u8]) -> (Result<usize, Failed>, Result<usize, Failed>)
    requires empty { sink.old ≡ record {
      written = [];
      chunk = 16;
      failing = 1 ∷ [];
      calls = 0;
      fault_count = 0;
    } }
    requires text { length text.now ≡ 25 }
    ensures first { result.0 ≡ Ok 16 }
    ensures second { IsErr result.1 }
    ensures written { sink.new.written ≡ take 16 text.now }
    ensures counted { sink.new.fault_count ≡ 1 }
{
    let first = sink.write_some(text);
    (first, sink.write_some(&text[16..]))
}

// A source that never ends and doesn't fail is too long for each limit, want of memory aside.
pub(super) fn read_endless(
    alloc: Global,
    source: &mut Endless,
    limit: usize,
) -> Result<Vec<u8>, ReadAllFault>
    ensures fault { IsErrAnd result
        (λ why. (why ≡ ReadAllFault.TooLong) ⊎ (why ≡ ReadAllFault.OutOfMemory)) }
{
    read_all(alloc, source, limit)
}

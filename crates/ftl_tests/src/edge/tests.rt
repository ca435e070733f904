//! Tests of what no clause says: that calls succeed, and that they go on after a fault.

mod fakes;
mod words;

use fakes::{Broken, Endless, Stuck};
use ftl_edge::{
    Failed, MemSink, MemSource, ReadAllFault, Sink, Source, StdSink, StdSource, WriteFault,
    read_all, write_whole,
};
use std::test::Fail;
use words::read_endless;

const TEXT: &[u8; 12] = b"page of text";

/// The number of a call that never comes.
const NEVER: u64 = 99;

// How much of the text a source has, how much a call gives at most, the number of the call that
// fails, the limit, and why it is refused.
static READS: [(usize, usize, u64, usize, Option<ReadAllFault>); 12] = [
    (0, 4, NEVER, 9, None),
    (0, 4, NEVER, 0, None),
    (1, 4, NEVER, 0, Some(ReadAllFault::TooLong)),
    (12, 5, NEVER, 99, None),
    (12, 1, NEVER, usize::MAX, None),
    (12, 99, NEVER, 12, None),
    (12, 99, NEVER, 11, Some(ReadAllFault::TooLong)),
    (12, 5, 0, 99, Some(ReadAllFault::ReadFault)),
    (12, 5, 2, 99, Some(ReadAllFault::ReadFault)),
    (12, 5, 3, 99, Some(ReadAllFault::ReadFault)),
    (12, 5, 4, 99, None),
    (12, 5, 2, 9, Some(ReadAllFault::TooLong)),
];

#[test]
fn reads_to_the_end(rt: HostRuntime) -> Result<(), Fail> {
    let alloc = rt.alloc();
    for &(length, chunk, failing, limit, fault) in &READS {
        assert!(rt; length <= 12 && chunk > 0);
        let bytes = &TEXT[..length];
        let failing = [failing].to_vec(alloc)?;
        let mut source = MemSource::new(bytes.to_vec(alloc)?, chunk, failing);
        match read_all(alloc, &mut source, limit) {
            Ok(read) => {
                assert_eq!(rt; fault, None);
                assert_eq!(rt; read.as_slice(), bytes);
            }
            Err(why) => assert_eq!(rt; Some(why), fault),
        }
        assert_eq!(rt;
            source.faults(),
            u64::from(fault == Some(ReadAllFault::ReadFault))
        );
    }
    Ok(())
}

// What was taken before a fault is gone, and the next call reads what it left.
#[test]
fn a_fault_leaves_the_rest(rt: HostRuntime) -> Result<(), Fail> {
    let alloc = rt.alloc();
    let bytes = b"page of text".to_vec(alloc)?;
    let mut source = MemSource::new(bytes, 5, [1].to_vec(alloc)?);
    assert_eq!(rt;
        read_all(alloc, &mut source, 99).err(),
        Some(ReadAllFault::ReadFault)
    );
    assert_eq!(rt; source.faults(), 1);
    let rest = read_all(alloc, &mut source, 99)?;
    assert_eq!(rt; rest.as_slice(), b"of text".as_slice());
    assert_eq!(rt; source.faults(), 1);
    Ok(())
}

// How much of the text is written, how much a call takes at most, the number of the call that
// fails, and how much is written then.
static WRITES: [(usize, usize, u64, Option<usize>); 7] = [
    (0, 4, 0, None),
    (12, 99, NEVER, None),
    (12, 1, 12, None),
    (12, 5, 3, None),
    (12, 5, 0, Some(0)),
    (12, 5, 1, Some(5)),
    (12, 5, 2, Some(10)),
];

#[test]
fn writes_the_whole(rt: HostRuntime) -> Result<(), Fail> {
    let alloc = rt.alloc();
    for &(length, chunk, failing, front) in &WRITES {
        assert!(rt; length <= 12 && chunk > 0);
        let mut sink = MemSink::new(alloc, chunk, [failing].to_vec(alloc)?)?;
        let answer = write_whole(&mut sink, &TEXT[..length]);
        assert_eq!(rt; answer.is_err(), front.is_some());
        let written = front.unwrap_or(length);
        assert!(rt; written <= 12);
        assert_eq!(rt; sink.written(), &TEXT[..written]);
        assert_eq!(rt; sink.faults(), u64::from(front.is_some()));
    }
    Ok(())
}

// The room of a sink in memory is 1 MiB.
#[test]
fn fills_the_room(rt: HostRuntime) -> Result<(), Fail> {
    let alloc = rt.alloc();
    let mut sink = MemSink::new(alloc, usize::MAX, Vec::new(alloc))?;
    let text = vec![in alloc; b'a'; 1_048_577]?;
    assert_eq!(rt; write_whole(&mut sink, text.as_slice()), Err(WriteFault));
    assert_eq!(rt; sink.written().len(), 1_048_576);
    assert_eq!(rt; sink.write_some(b""), Ok(0));
    assert_eq!(rt; sink.write_some(b"a"), Err(Failed));
    assert_eq!(rt; sink.faults(), 2);
    Ok(())
}

#[test]
fn gives_up_where_nothing_is_taken(rt: HostRuntime) {
    let mut sink = Stuck { faults: 0 };
    assert_eq!(rt; write_whole(&mut sink, b"page of text"), Err(WriteFault));
    assert_eq!(rt; sink.faults(), 1);
}

#[test]
fn gives_up_on_an_endless_source(rt: HostRuntime) -> Result<(), Fail> {
    for limit in [0, 1, 99, 1 << 17] {
        let mut source = Endless { calls: 0, taken: 0 };
        let read = read_endless(rt.alloc(), &mut source, limit);
        assert_eq!(rt; read.err(), Some(ReadAllFault::TooLong));
        assert_eq!(rt; source.taken, limit as u64 + 1);
    }
    Ok(())
}

#[test]
fn counts_the_errors_of_a_runtime(rt: HostRuntime) {
    let broken = Broken;
    let mut source = StdSource::new(&broken);
    let mut room = [0; 8];
    assert_eq!(rt; source.read_some(&mut room), Ok(3));
    assert_eq!(rt; source.read_some(&mut room), Err(Failed));
    assert_eq!(rt; source.read_some(&mut room), Ok(3));
    assert_eq!(rt; source.faults(), 1);
    let mut sink = StdSink::new(&broken);
    assert_eq!(rt; write_whole(&mut sink, b"page of text"), Err(WriteFault));
    assert_eq!(rt; sink.faults(), 1);
}

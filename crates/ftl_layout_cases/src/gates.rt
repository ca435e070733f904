//! Gates that see which workers begin items of a page, and lots of one. A top call that solves
//! every page on the calling thread never has two workers meet here; one that never shares cells
//! has none meet at nodes alone; where each worker keeps to the items or lots that it was dealt,
//! none is stolen; and where workers claim items one by one on a large page, there are more calls.

use crate::{READ_BYTES, WRITE_BYTES, printed};
use ftl_edge::{Gate, MemSink, MemSource};
use ftl_run::layout_top;
use std::alloc::{AllocError, Global};
use std::io;
use std::sync::Wait;
use std::sync::atomic::{AtomicU64, Ordering};
use std::thread::Threads;

/// A page of two items that wait for none.
const PAGE: &str = "%page 1
%grammar stack
%schedule auto
%document
Sheet { body = Column { kids = [ Word { iw = 20 ih = 10 } Word { iw = 30 ih = 15 } ] } }
";

/// A page of four passes beside each other. At grain 1 the items of a pass are the root alone,
/// which waits for none, and the leaf below it, so those of even number are roots.
const PASSES: &str = "%page 1
%grammar
root Top;
interface Top { syn a, b, c, d; show a, b, c, d; }
interface Low { syn e; show e; }
class Root : Top { leaf : Low; self.a := 1; self.b := 2; self.c := 3; self.d := 4; }
class Leaf : Low { self.e := 5; }
%schedule
topdown { Top.a } || topdown { Top.b } || topdown { Top.c } || topdown { Top.d Low.e }
%document
Root { leaf = Leaf { } }
";

/// How long a worker waits for another.
const TURNS: u64 = 400_000_000;

/// A gate that waits for something.
trait Watching: Gate {
    /// Whether it saw that within its turns.
    fn saw(&self) -> bool;
}

/// Marks the workers that call it. The first caller waits there until two are marked.
#[derive(Drop)]
struct Meeting {
    marks: [AtomicU64; 2],
    marked: AtomicU64,
    met: AtomicU64,
}

impl Meeting {
    fn new() -> Meeting {
        Meeting {
            marks: [AtomicU64::new(0), AtomicU64::new(0)],
            marked: AtomicU64::new(0),
            met: AtomicU64::new(0),
        }
    }
}

/// Whether the first caller saw the other.
impl Watching for Meeting {
    fn saw(&self) -> bool {
        self.met.load(Ordering::SeqCst) == 1
    }
}

impl Gate for Meeting {
    fn before(&self, worker: u32, _item: u32) {
        if worker > 1
            || self.marks[worker as usize].swap(1, Ordering::SeqCst) == 1
            || self.marked.fetch_add(1, Ordering::SeqCst) > 0
        {
            return;
        }
        for _ in 0..TURNS {
            if self.marked.load(Ordering::SeqCst) == 2 {
                self.met.store(1, Ordering::SeqCst);
                return;
            }
        }
    }
}

/// Lets two workers meet at items of even number alone.
#[derive(Drop)]
struct MeetingOfRoots {
    meeting: Meeting,
}

impl MeetingOfRoots {
    fn new() -> MeetingOfRoots {
        MeetingOfRoots {
            meeting: Meeting::new(),
        }
    }
}

impl Gate for MeetingOfRoots {
    fn before(&self, worker: u32, item: u32) {
        if item % 2 == 0 {
            self.meeting.before(worker, item);
        }
    }
}

impl Watching for MeetingOfRoots {
    fn saw(&self) -> bool {
        self.meeting.saw()
    }
}

/// Waits at the first item until a worker begins one that was dealt to the other, as by two workers
/// every second of those is that wait for none. These have the numbers that divide by the stride.
#[derive(Drop)]
struct Stealing {
    stride: u32,
    held: AtomicU64,
    stolen: AtomicU64,
    seen: AtomicU64,
}

impl Stealing {
    fn new(stride: u32) -> Stealing {
        Stealing {
            stride,
            held: AtomicU64::new(0),
            stolen: AtomicU64::new(0),
            seen: AtomicU64::new(0),
        }
    }
}

/// Whether the first caller saw an item stolen.
impl Watching for Stealing {
    fn saw(&self) -> bool {
        self.seen.load(Ordering::SeqCst) == 1
    }
}

impl Gate for Stealing {
    fn before(&self, worker: u32, item: u32) {
        let stride = self.stride.max(1);
        if item % stride != 0 {
            return;
        }
        if item / stride % 2 != worker {
            self.stolen.store(1, Ordering::SeqCst);
        }
        if self.held.swap(1, Ordering::SeqCst) == 1 {
            return;
        }
        for _ in 0..TURNS {
            if self.stolen.load(Ordering::SeqCst) == 1 {
                self.seen.store(1, Ordering::SeqCst);
                return;
            }
        }
    }
}

/// Counts its calls.
#[derive(Drop)]
struct Counting {
    calls: AtomicU64,
}

impl Counting {
    fn new() -> Counting {
        Counting {
            calls: AtomicU64::new(0),
        }
    }
}

impl Gate for Counting {
    fn before(&self, _worker: u32, _item: u32) {
        self.calls.fetch_add(1, Ordering::SeqCst);
    }
}

/// Obeys a command on a page. The text that was written, and the status.
fn answer_to<R: Threads + Wait + Sync, G: Gate>(
    rt: &R,
    alloc: Global,
    command: &[&str],
    page: &str,
    gate: &G,
) -> Result<String, AllocError> {
    let mut words = Vec::new(alloc);
    for &word in command {
        words.push(String::from_str(alloc, word)?)?;
    }
    let bytes = Vec::from_slice(alloc, page.as_bytes())?;
    let mut source = MemSource::new(bytes, READ_BYTES, Vec::new(alloc));
    let mut sink = MemSink::new(alloc, WRITE_BYTES, Vec::new(alloc))?;
    let status = layout_top(rt, alloc, words.as_slice(), &mut source, &mut sink, gate);
    printed(alloc, &sink, status)
}

/// Prints whether two workers began an item each, on a small page, on a large one, which they fill
/// by lots, and at nodes alone, whether one began an item or a lot of the other, and how often one
/// worker called the gate, and two on the large page, with what was written.
pub(crate) fn print_gates<R: Threads + Wait + Sync + Print + AllocGlobal>(
    rt: &R,
) -> io::Result<()> {
    let two = ["run", "--workers", "2", "--grain", "1"];
    let lots = ["sample", "20000", "--grammar", "table", "--workers", "2"];
    let one = ["run", "--workers", "1", "--grain", "1"];
    let (each, root) = (
        "two workers began an item each",
        "two workers began a root each",
    );
    let (other, taken) = (
        "a worker began a root of the other",
        "a worker began a lot of the other",
    );
    print_seen(rt, each, &two, PAGE, &Meeting::new())?;
    print_seen(rt, each, &lots, PAGE, &Meeting::new())?;
    print_seen(rt, root, &two, PASSES, &MeetingOfRoots::new())?;
    print_seen(rt, other, &two, PASSES, &Stealing::new(2))?;
    print_seen(rt, taken, &lots, PAGE, &Stealing::new(1))?;
    print_calls(rt, "one worker called the gate", &one)?;
    print_calls(rt, "two workers called the gate for lots", &lots)
}

/// Prints how often the gate was called while a command was obeyed, and what was written.
fn print_calls<R: Threads + Wait + Sync + Print + AllocGlobal>(
    rt: &R,
    what: &str,
    command: &[&str],
) -> io::Result<()> {
    let counting = Counting::new();
    let answer = answer_to(rt, rt.alloc(), command, PAGE, &counting)?;
    let calls = counting.calls.load(Ordering::SeqCst);
    println!(rt; "{what}: {calls}")?;
    print!(rt; "{answer}")
}

/// Prints whether a gate saw what it waits for while a command was obeyed, and what was written.
fn print_seen<R: Threads + Wait + Sync + Print + AllocGlobal, G: Watching>(
    rt: &R,
    what: &str,
    command: &[&str],
    page: &str,
    gate: &G,
) -> io::Result<()> {
    let answer = answer_to(rt, rt.alloc(), command, page, gate)?;
    println!(rt; "{what}: {}", gate.saw())?;
    print!(rt; "{answer}")
}

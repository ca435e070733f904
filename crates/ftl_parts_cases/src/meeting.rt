// A gate that holds a worker back until another has come.
use ftl_edge::Gate;
use std::sync::atomic::{AtomicU64, Ordering};

/// How long a worker waits for another.
const TURNS: u64 = 400_000_000;

/// Marks the workers that call it for an item from `from` on. The first of them waits there until
/// both workers are marked.
#[derive(Drop)]
pub(crate) struct Meeting {
    from: u32,
    marks: [AtomicU64; 2],
    marked: AtomicU64,
    met: AtomicU64,
}

impl Meeting {
    /// Of the items from this one on.
    pub(crate) fn new(from: u32) -> Meeting {
        Meeting {
            from,
            marks: [AtomicU64::new(0), AtomicU64::new(0)],
            marked: AtomicU64::new(0),
            met: AtomicU64::new(0),
        }
    }

    /// Whether the first caller saw the other within its turns.
    pub(crate) fn both_came(&self) -> bool {
        self.met.load(Ordering::SeqCst) == 1
    }
}

impl Gate for Meeting {
    fn before(&self, worker: u32, item: u32) {
        if item < self.from || worker > 1 {
            return;
        }
        if self.marks[worker as usize].swap(1, Ordering::SeqCst) == 1
            || self.marked.fetch_add(1, Ordering::SeqCst) > 0
        {
            return;
        }
        for _ in 0..TURNS {
            if self.marked.load(Ordering::SeqCst) == 2 {
                self.met.store(1, Ordering::SeqCst);
                return;
            }
        }
    }
}

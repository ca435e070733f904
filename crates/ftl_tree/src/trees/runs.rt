//! The runs of kids.
ghost use Rattle.std.specs.Prelude.{◌≡◌, ◌+◌, ◌<◌, length, slice_index_or};
ghost use Rattle.ftl_tree.specs.rows.KidRuns.{run_start, run_end};

/// Where the run of a child begins in the list of kids, and where it ends.
#[derive(Clone, Copy, Debug)]
pub(crate) struct Run {
    pub start: u32,
    pub end: u32,
}

/// The run of a child of a node.
pub(crate) fn run_of(slots: &[u32], run_starts: &[u32], node: u32, child: u32) -> Run
    requires node { node < length slots.now }
    requires within { slice_index_or slots.now node 0 + child + 1 < length run_starts.now }
    ensures start { result.start ≡ run_start slots.now run_starts.now node child }
    ensures end { result.end ≡ run_end slots.now run_starts.now node child }
{
    let slot = slots[node as usize] as usize + child as usize;
    Run {
        start: run_starts[slot],
        end: run_starts[slot + 1],
    }
}

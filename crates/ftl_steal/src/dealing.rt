// The items that wait for none, before a worker starts.
ghost use Rattle.std.specs.Prelude.{◌≡◌, ◌+◌, ◌<◌, [], ◌∷◌, ◌++◌, vec_len};
ghost use Rattle.std.specs.Prelude.{slice_index_or, slice_set};
ghost use Rattle.std.specs.List.{All};
ghost use Rattle.ftl_cells.specs.shared.Work.{item_total, pred_total};
ghost use Rattle.ftl_pool.specs.Pool.{IsFreshStealHoldOf};
ghost use Rattle.ftl_steal.specs.Dealing.{AreDealt, HasFreeBelow, IsNextTurn};
ghost use Rattle.ftl_steal.specs.Dealing.{free_items, puts_of};

use ftl_cells::Work;
use ftl_pool::{ReadyPool, StealHold, StealPool};
use std::sync::Wait;

/// Deals the items of a work that wait for none to the holds of its workers, in order of number and
/// round by round: the first to the first worker, the second to the second one, and after the last
/// worker to the first one again.
pub fn deal<R: Wait, W: Work>(rt: &R, work: &W, pool: &StealPool, holds: &mut Vec<StealHold>)
    requires items { pool.now.items ≡ item_total (W.meaning work.now) }
    requires some { 0 < vec_len holds.old }
    requires fresh { All (IsFreshStealHoldOf pool.now) holds.old.items }
    ensures count { vec_len holds.new ≡ vec_len holds.old }
    ensures free { All (HasFreeBelow (W.meaning work.now) pool.now
        (item_total (W.meaning work.now))) holds.new.items }
    ensures rounds { AreDealt (free_items (W.meaning work.now)) (puts_of holds.new.items) }
{
    let mut worker = 0;
    for item in 0..work.items() {
        if work.pred_count(item) == 0 {
            deal_to(rt, work, pool, holds, worker, item);
            worker = next_turn(worker, holds.len());
        }
    }
}

/// Whose turn is next, the first worker's after the last one's.
fn next_turn(worker: usize, workers: usize) -> usize
    requires worker { worker < workers }
    ensures next { IsNextTurn workers worker result }
{
    if worker + 1 < workers { worker + 1 } else { 0 }
}

/// Deals one item to one worker.
fn deal_to<R: Wait, W: Work>(
    rt: &R,
    _work: &W,
    pool: &StealPool,
    holds: &mut Vec<StealHold>,
    worker: usize,
    item: u32,
)
    requires items { pool.now.items ≡ item_total (W.meaning _work.now) }
    requires item { item < item_total (W.meaning _work.now) }
    requires waits { pred_total (W.meaning _work.now) item ≡ 0 }
    requires worker { worker < vec_len holds.old }
    requires free { All (HasFreeBelow (W.meaning _work.now) pool.now item) holds.old.items }
    ensures count { vec_len holds.new ≡ vec_len holds.old }
    ensures free { All (HasFreeBelow (W.meaning _work.now) pool.now (item + 1)) holds.new.items }
    ensures puts { puts_of holds.new.items ≡ slice_set (puts_of holds.old.items) worker
        (slice_index_or (puts_of holds.old.items) worker [] ++ item ∷ []) }
{
    pool.put(rt, &mut holds[worker], item);
}

//! What holds of a pool between any two steps of its holds.
ghost use Rattle.std.specs.Prelude.{ℕ, ◌≤◌, List};
ghost use Rattle.std.specs.List.{sum_by};
ghost use Rattle.ftl_pool.specs.Count.{Counted, IsReached, IsBalanced};
ghost use Rattle.ftl_pool.specs.Deque.{PassModel, IsFair, times};

/// Whatever steps were made, by whatever holds, the count of waiting items is the number of puts
/// less that of takes over all holds, and there are at most 64 holds.
pub fn the_count_balances()
    ensures balanced { (items n : ℕ) (holds : List Counted) → IsReached items n holds
        → IsBalanced items n holds }
{}

/// Under the rule of a deque an item was taken at most as often as it was put, so each put is taken
/// at most once, and what was never put was never taken.
pub fn puts_are_taken_once()
    ensures once { (items : List ℕ) (passes : List PassModel) (item : ℕ) → IsFair items passes
        → sum_by (λ p. times item p.taken) passes ≤ sum_by (λ p. times item p.put) passes }
{}

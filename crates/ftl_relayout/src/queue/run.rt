//! The queue.
ghost use Rattle.std.specs.Prelude.{◌≡◌, ◌<◌, ◌≤◌, ◌+◌, ℕ, [], Contains, length, OnOk};
ghost use Rattle.std.specs.List.{All};
ghost use Rattle.ftl_model.specs.layout.Values.{Value};
ghost use Rattle.ftl_relayout.specs.queue.Nets.{IsKeyOf, IsLawfulNet};
ghost use Rattle.ftl_relayout.specs.queue.Ready.{IsDone, IsReady, IsRun};
ghost use Rattle.ftl_relayout.specs.queue.Trails.{cells_of, total_cost, undone};

use crate::queue::rules::Rules;
use crate::queue::trail::{Before, is_same};
use crate::queue::waiting::Waiting;
use ftl_base::Val;
use std::alloc::AllocError;

/// Computes all that waits, the least key first, and all that comes to wait. The trail has what was
/// computed, and takes all of it back.
pub fn run_all<R: Rules>(
    rules: &mut R,
    values: &mut [Val],
    waiting: &mut Waiting,
    trail: &mut Vec<Before>,
) -> Result<(), AllocError>
    requires lawful { IsLawfulNet (R.net rules.old) }
    requires count { length values.old ≡ (R.net rules.old).cells }
    requires keys { (k : ℕ) → Contains waiting.old.keys k → IsKeyOf (R.net rules.old) k }
    requires empty { trail.old.items ≡ [] }
    ensures done { (old final : ℕ → Value) → IsReady (R.net rules.old) old final
        values.old waiting.old.keys
        → OnOk result (IsDone (R.net rules.old) old final values.new (cells_of trail.new.items)) }
    ensures grows { R.spent rules.old ≤ R.spent rules.new }
    ensures spent { R.spent rules.new ≤ R.spent rules.old
        + total_cost (R.net rules.old).cost (cells_of trail.new.items) }
    // what a failure leaves
    ensures undone { undone trail.new.items values.new ≡ values.old }
    ensures within { All (λ b. b.cell < length values.new) trail.new.items }
    ensures net { R.net rules.new ≡ R.net rules.old }
    ensures code { R.code rules.new ≡ R.code rules.old }
{
    let mut least = 0u128;
    while let Some(key) = waiting.pop_least() {
        run_one(rules, values, waiting, trail, key)?;
        least = key + 1;
    }
    Ok(())
}

/// Computes the step of a key.
fn run_one<R: Rules>(
    rules: &mut R,
    values: &mut [Val],
    waiting: &mut Waiting,
    trail: &mut Vec<Before>,
    key: u128,
) -> Result<(), AllocError>
    requires count { length values.old ≡ (R.net rules.old).cells }
    requires key { IsKeyOf (R.net rules.old) key }
    requires within { All (λ b. b.cell < length values.old) trail.old.items }
    ensures ran { OnOk result (IsRun (R.net rules.old) key values.old values.new
        waiting.old.keys waiting.new.keys trail.old.items trail.new.items) }
    ensures grows { R.spent rules.old ≤ R.spent rules.new }
    ensures spent { R.spent rules.new
        + total_cost (R.net rules.old).cost (cells_of trail.old.items)
        ≤ R.spent rules.old + total_cost (R.net rules.old).cost (cells_of trail.new.items) }
    ensures undone { undone trail.new.items values.new ≡ undone trail.old.items values.old }
    ensures within { All (λ b. b.cell < length values.new) trail.new.items }
    ensures count { length values.new ≡ length values.old }
    ensures net { R.net rules.new ≡ R.net rules.old }
    ensures code { R.code rules.new ≡ R.code rules.old }
{
    let cell = rules.cell(key);
    let before = values[cell as usize];
    trail.push(Before {
        cell,
        value: before,
    })?;
    let value = rules.compute(cell, key, values);
    if is_same(value, before) {
        return Ok(());
    }
    values[cell as usize] = value;
    rules.add_readers(cell, key, waiting)
}

//! Writes that can be taken back.
ghost use Rattle.std.specs.Prelude.{◌≡◌, ◌≢◌, ◌<◌, length, IsTrue, not};
ghost use Rattle.std.specs.List.{All};
ghost use Rattle.ftl_relayout.specs.queue.Trails.{undone};

use ftl_base::Val;

/// A cell, with its value before a write.
#[derive(Clone, Copy)]
pub struct Before {
    pub cell: u32,
    pub value: Val,
}

/// Takes all writes back, the last first. It takes no memory.
pub fn undo(values: &mut [Val], trail: &mut Vec<Before>)
    requires within { All (λ b. b.cell < length values.old) trail.old.items }
    ensures undone { values.new ≡ undone trail.old.items values.old }
{
    while let Some(before) = trail.pop() {
        values[before.cell as usize] = before.value;
    }
}

/// Whether two values are the same.
pub fn is_same(a: Val, b: Val) -> bool
    ensures same { IsTrue result → a ≡ b }
    ensures differ { IsTrue (not result) → a ≢ b }
{
    match (a.get(), b.get()) {
        (None, None) => true,
        (Some(m), Some(n)) => m == n,
        _ => false,
    }
}

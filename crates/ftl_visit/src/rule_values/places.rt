//! Where the steps of a visit stand.
ghost use Rattle.std.specs.Prelude.{◌<◌, ◌≤◌, length};
ghost use Rattle.std.specs.List.{sum_by};
ghost use Rattle.ftl_visit.specs.rule_values.StepPlaces.{IsStepPlace};

/// The place of a step among the operations of a visit.
#[derive(Clone, Copy, Debug, PartialEq, Eq)]
pub struct StepPlace {
    pub op: u32,
    pub kid: u32,
}

/// The place of a step, where each operation has as many steps as its length says.
#[tactic(auto, using(crate::proofs::rule_values::Sums::sum_steps))]
pub fn step_place(lengths: &[u32], step: u32) -> StepPlace
    requires count { length lengths.now ≤ 4294967296 }
    requires within { step < sum_by (λ n. n) lengths.now }
    ensures place { IsStepPlace lengths.now step result }
{
    let mut op = 0usize;
    let mut kid = step;
    while kid >= lengths[op] {
        kid -= lengths[op];
        op += 1;
    }
    StepPlace { op: op as u32, kid }
}

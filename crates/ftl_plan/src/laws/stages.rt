ghost use Rattle.ftl_plan.specs.laws.StageMeanings.{OfPlans, SolutionSolves, StagesAreLawful};
ghost use Rattle.ftl_plan.specs.laws.StageMeanings.{StepsAreNarrow};

use ftl_items::solution_solves;
use ftl_nests::{flat_schedules, nest_stages};
use ftl_order::{reads_end_by_rank, values_are_in_range};

/// A law: no step of a tree that can be planned reads more than 1048576 values, and each of its
/// stages is lawful work.
pub fn stages_are_lawful()
    ensures narrow { OfPlans StepsAreNarrow }
    ensures lawful { OfPlans StagesAreLawful }
{
    nest_stages();
    flat_schedules();
    reads_end_by_rank();
    values_are_in_range();
    solution_solves();
}

/// A law: the solution of a tree that can be planned solves it.
pub fn solution_of_plans()
    ensures solves { OfPlans SolutionSolves }
{
    flat_schedules();
    solution_solves();
}

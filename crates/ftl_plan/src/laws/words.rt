ghost use Rattle.ftl_plan.specs.laws.StageMeanings.{OfPlans};
ghost use Rattle.ftl_plan.specs.laws.StageWords.{FirstWordsFit, LastWordsAreTheSolution};
ghost use Rattle.ftl_plan.specs.laws.StageWords.{NoStagesNoSteps, WordsFitTheNextStage};

use crate::laws::stages::solution_of_plans;
use ftl_nests::nest_stages;

/// A law: the words of the inputs fit the first stage, and those that close a stage fit the next.
/// After the last stage, or with none, each cell holds the word of the solution.
pub fn words_of_stages()
    ensures first { OfPlans FirstWordsFit }
    ensures next { OfPlans WordsFitTheNextStage }
    ensures last { OfPlans LastWordsAreTheSolution }
    ensures no_stages { OfPlans NoStagesNoSteps }
{
    nest_stages();
    solution_of_plans();
}

ghost use Rattle.ftl_items.specs.stage_items.StepLaws.{OfStages};
ghost use Rattle.ftl_items.specs.stage_items.WordLaws.{WordsFitTheNextStage, OfSolutions};
ghost use Rattle.ftl_items.specs.stage_items.WordLaws.{FirstWordsFit};
ghost use Rattle.ftl_items.specs.stage_items.WordLaws.{LastWordsAreTheSolution, NoStagesNoSteps};

/// A law: the words that close a stage fit the next one.
pub fn words_between()
    ensures next { OfStages WordsFitTheNextStage }
{}

/// A law: the inputs' words, and 0 for what is computed, fit the first stage. What closes the last
/// stage, or with no stage these words, holds the word of the solution's value in each cell.
pub fn words_at_the_ends()
    ensures first { OfSolutions FirstWordsFit }
    ensures last { OfSolutions LastWordsAreTheSolution }
    ensures no_stages { OfSolutions NoStagesNoSteps }
{}

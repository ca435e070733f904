ghost use Rattle.std.specs.Prelude.{◌≡◌};
ghost use Rattle.ftl_model.specs.layout.Stack.{stack};
ghost use Rattle.ftl_model.specs.layout.Worked.{two_words, two_words_values};
ghost use Rattle.ftl_model.specs.layout.Values.{overflow};
ghost use Rattle.ftl_model.specs.layout.Path.{top};
ghost use Rattle.ftl_model.specs.layout.Solves.{instance_of};
ghost use Rattle.ftl_items.specs.solution.Solution.{solution, values_after};

/// A law: the solution of two words in a column is the table that was typed by hand; before any
/// round nothing is known.
#[tactic(auto, unfolding(crate::specs::solution::Solution::solution))]
pub fn solution_of_two_words()
    ensures words { solution stack two_words ≡ two_words_values }
    ensures none_yet { values_after stack two_words 0 (instance_of top 0) ≡ overflow }
{}

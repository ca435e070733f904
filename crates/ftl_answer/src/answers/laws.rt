ghost use Rattle.std.specs.Prelude.{List, ℕ};
ghost use Rattle.ftl_answer.specs.answers.Answers.{HasOneAnswer};

use ftl_example::nests::examples::nest_examples_by_size;
use ftl_example::nests::pairs::first_nest_pairs;
use ftl_noncircular::{circles_are_decided, one_list_where_noncircular};

/// A law: any words and bytes have an answer, and no other, but where the words ask for an
/// explanation: of that several texts may be right.
pub fn one_answer()
    ensures one { (words : List (List ℕ)) (bytes : List ℕ) → HasOneAnswer words bytes }
{
    circles_are_decided();
    one_list_where_noncircular();
    nest_examples_by_size();
    first_nest_pairs();
}

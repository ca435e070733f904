//! Laws of answers.

ghost use Rattle.std.specs.Prelude.{◌≡◌, ℕ, false, List, Option};
ghost use Rattle.ftl_answer.specs.answers.Answer.{Answer};
ghost use Rattle.ftl_answer.specs.answers.Answers.{IsAnswer};
ghost use Rattle.ftl_page.specs.declared.commands.command.Command.{Command};
ghost use Rattle.ftl_answer.specs.headline.Headline.{IsAnswered, OneTableOf, words_read};

use ftl_noncircular::one_list_where_noncircular;

/// A law: no answer has the status of a fault or of want of memory.
pub fn answers_have_statuses()
    ensures status { (words : List (List ℕ)) (bytes : List ℕ) (a : Answer)
        → IsAnswer words bytes a → IsAnswered a.status }
{}

/// A law: words that read no page are answered alike whatever the bytes are.
pub fn bytes_do_not_matter()
    ensures same { (words : List (List ℕ)) (bytes other : List ℕ) (a : Answer)
        → words_read words ≡ false → IsAnswer words bytes a → IsAnswer words other a }
{}

/// A law: exactly one table solves the tree of a page that is accepted, and the tree that accepted
/// edits make of it.
pub fn one_table()
    ensures one { (c : Option Command) (told : Option (List ℕ)) → OneTableOf c told }
{
    one_list_where_noncircular();
}

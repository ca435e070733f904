//! Laws of the four promises of a call.

ghost use Rattle.ftl_answer.specs.headline.Promises.{AcceptedIsShown, CompletesCommands};
ghost use Rattle.ftl_answer.specs.headline.Promises.{EndsAsAnswered, LeavesTheSource};
ghost use Rattle.ftl_answer.specs.headline.Promises.{LongPagesAreRefused, OneTableOfEachPage};
ghost use Rattle.ftl_answer.specs.headline.Promises.{NoneButLongPagesAreRefused};
ghost use Rattle.ftl_answer.specs.headline.Promises.{NoneButWordsAreRefused};
ghost use Rattle.ftl_answer.specs.headline.Promises.{OrRefused, OverflowHasAStatus, ReadsThePage};
ghost use Rattle.ftl_answer.specs.headline.Promises.{ReadsWithinLimits};
ghost use Rattle.ftl_answer.specs.headline.Promises.{SummariesCountOverflow};
ghost use Rattle.ftl_answer.specs.headline.Promises.{StopsAtAReadFault, StopsWithoutMemory};
ghost use Rattle.ftl_answer.specs.headline.Promises.{WordsAreRefused, WriteFaultsHaveCauses};
ghost use Rattle.ftl_answer.specs.headline.Promises.{WritesSomeAnswer, WritesTheExplanation};
ghost use Rattle.ftl_answer.specs.headline.Promises.{WritesTheAnswer, WritesTheBoxes};
ghost use Rattle.ftl_answer.specs.headline.Promises.{OneTableOfEachPageByDemand};
ghost use Rattle.ftl_answer.specs.headline.Promises.{WritesTheBoxesByDemand};
ghost use Rattle.ftl_answer.specs.headline.Promises.{WritesTheBoxesByDemandInMemory};
ghost use Rattle.ftl_answer.specs.headline.Promises.{WritesTheBoxesInMemory};
ghost use Rattle.ftl_answer.specs.headline.Promises.{EditsTouchSoMany, OneTableOfEachEditedPage};
ghost use Rattle.ftl_answer.specs.headline.Promises.{WritesTheChange, WritesTheChangeInMemory};

use crate::answers::one_answer;
use crate::headline::laws::one_table;

/// A law: what the words ask for of a page that is accepted is the answer, and every other answer
/// is one line that refuses.
pub fn accepted_or_refused()
    ensures shown { AcceptedIsShown }
    ensures refused { OrRefused }
    ensures words { WordsAreRefused }
    ensures words_alone { NoneButWordsAreRefused }
    ensures long { LongPagesAreRefused }
    ensures long_alone { NoneButLongPagesAreRefused }
    ensures overflow { OverflowHasAStatus }
    ensures counted { SummariesCountOverflow }
{}

/// A law, the headline: a call of `run` without a fault and want of memory writes the boxes of the
/// one table that solves an accepted page, and one line that refuses of any other. So does a call
/// of `demand`, of pages that are accepted for evaluation by demand. A call of `edit` writes the
/// boxes of the one table that solves the changed tree, and how many instances were touched. A call
/// of `explain` writes that a schedule is accepted, or explains the pair that it is refused for.
pub fn the_headline()
    ensures boxes { WritesTheBoxes }
    ensures memory { WritesTheBoxesInMemory }
    ensures table { OneTableOfEachPage }
    ensures demand_boxes { WritesTheBoxesByDemand }
    ensures demand_memory { WritesTheBoxesByDemandInMemory }
    ensures demand_table { OneTableOfEachPageByDemand }
    ensures edit_boxes { WritesTheChange }
    ensures edit_memory { WritesTheChangeInMemory }
    ensures edit_tables { OneTableOfEachEditedPage }
    ensures edit_count { EditsTouchSoMany }
    ensures explanation { WritesTheExplanation }
{
    one_answer();
    one_table();
}

/// A law: what a call writes, with which status, with a fault and without.
pub fn what_is_written()
    ensures answer { WritesTheAnswer }
    ensures completed { CompletesCommands }
    ensures some { WritesSomeAnswer }
    ensures ended { EndsAsAnswered }
    ensures write_fault { WriteFaultsHaveCauses }
    ensures read_fault { StopsAtAReadFault }
    ensures want { StopsWithoutMemory }
{
    one_answer();
}

/// A law: how far a call reads its source.
pub fn what_is_read()
    ensures page { ReadsThePage }
    ensures alone { LeavesTheSource }
    ensures limits { ReadsWithinLimits }
{}

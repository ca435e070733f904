//! A law on schedules that nest nothing.

ghost use Rattle.ftl_answer.specs.answers.Plain.{PlainHasTheExamples, PlainHasTheFault};
ghost use Rattle.ftl_answer.specs.answers.Plain.{PlainHasThePair, PlainIsOuter};
ghost use Rattle.ftl_answer.specs.answers.Plain.{PlainIsPrinted, PlainIsRead};

/// A law: tokens that spell a schedule without nests are read as it, or refused for its fault; its
/// first fault and what explains that, its stages, by which reads are counted, and its text are
/// those that it has by the definitions of schedules without nests.
pub fn plain_schedules()
    ensures read { PlainIsRead }
    ensures fault { PlainHasTheFault }
    ensures pair { PlainHasThePair }
    ensures examples { PlainHasTheExamples }
    ensures outer { PlainIsOuter }
    ensures printed { PlainIsPrinted }
{}

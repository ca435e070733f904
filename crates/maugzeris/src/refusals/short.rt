//! Texts that are no longer than a page may be.

ghost use Rattle.std.specs.Prelude.{◌≡◌, ◌≤◌, IfOk, string_bytes, string_len};
ghost use Rattle.ftl_model.specs.layout.Limits.{most_page_bytes};
ghost use Rattle.ftl_answer.specs.answers.Answer as answer;
ghost use Rattle.ftl_answer.specs.refusals.PageLines.{too_long_line};
ghost use Rattle.maugzeris.specs.refusals.Answers.{Answers, Tells, short_text};

use crate::refusals::refusal::Refusal;
use ftl_answer::reading::Status;
use std::alloc::Global;

/// The most bytes of a text.
const MOST_BYTES: usize = 67108864;

/// A copy of the text, where it is no longer than a page may be.
#[tactic(auto, using(crate::proofs::refusals::Ways::stage_steps))]
pub(crate) fn short_text(alloc: Global, text: &str) -> Result<String, Refusal>
    ensures outcome { Answers (short_text text.now) string_bytes result }
    ensures short { IfOk result (λ t. string_len t ≤ most_page_bytes) }
    ensures text { IfOk result (λ t. string_bytes t ≡ text.now) }
{
    if text.len() > MOST_BYTES {
        return Err(too_long(alloc));
    }
    match String::from_str(alloc, text) {
        Ok(copy) => Ok(copy),
        Err(_) => Err(Refusal::OutOfMemory),
    }
}

fn too_long(alloc: Global) -> Refusal
    ensures told { Tells (answer.refused 4 too_long_line) result }
{
    let mut line = Vec::new(alloc);
    match line.extend_from_slice(b"refused page: too long\n") {
        Ok(()) => Refusal::Refused {
            status: Status::PAGE_REFUSED,
            line,
        },
        Err(_) => Refusal::OutOfMemory,
    }
}

//! The calls that lay out pages: by workers in threads of their own, and on the calling thread.

ghost use Rattle.ftl_answer.specs.headline.Headline.{GivesTheAnswer, HasCauses, HasTheTable};
ghost use Rattle.ftl_answer.specs.headline.Headline.{ReadsSoFar, call_of, texts};

use crate::calls::alone::answered_alone;
use crate::calls::workers::answered_by_workers;
use ftl_answer::reading::{Status, requested, written};
use ftl_answer::{answers_have_statuses, one_answer, one_table};
use ftl_edge::{Gate, Sink, Source};
use std::alloc::Global;
use std::sync::Wait;
use std::thread::Threads;

/// Does what the words say with the page that the source has left, and writes the boxes, the text
/// that is asked for, or the one refusal line to the sink. A page is solved stage by stage, each by
/// as many workers as the words say, or as it has items where these are fewer; with one worker, and
/// by demand, no thread is started, and the gate is not called. All memory is taken before the
/// first write.
///
/// For every page, number of workers and grain: where its grammar, schedule and document are
/// accepted, exactly one table gives each attribute of each node the value of its rule, and the
/// bytes written are that table's boxes in preorder, with values out of range as `overflow`;
/// otherwise they are the one refusal line that the definitions name. This speaks of the command
/// `run`, of a source and a sink that don't fail, of enough memory, and of a call that returns; the
/// same holds of `demand` and pages whose grammar is accepted and noncircular and whose document is
/// accepted. Of `edit` the bytes are the boxes of the one table of the tree that the edits make of
/// the document's, and the number of instances that they touched. Of `explain` they say that
/// grammar and schedule are accepted, or explain the pair that is the schedule's first fault.
/// `the_headline` of `ftl_answer` proves it from the four clauses.
pub fn layout_top<R: Threads + Wait + Sync, S: Source, K: Sink, G: Gate>(
    rt: &R,
    alloc: Global,
    words: &[String],
    source: &mut S,
    sink: &mut K,
    gate: &G,
) -> Status
    ensures answer { GivesTheAnswer (call_of S.remaining S.calls S.taken S.fault_count K.written
        K.fault_count (texts words.now) result.0 source.old source.new sink.old sink.new) }
    ensures faults { HasCauses (call_of S.remaining S.calls S.taken S.fault_count K.written
        K.fault_count (texts words.now) result.0 source.old source.new sink.old sink.new) }
    ensures one_table { HasTheTable (call_of S.remaining S.calls S.taken S.fault_count K.written
        K.fault_count (texts words.now) result.0 source.old source.new sink.old sink.new) }
    ensures input { ReadsSoFar (call_of S.remaining S.calls S.taken S.fault_count K.written
        K.fault_count (texts words.now) result.0 source.old source.new sink.old sink.new) }
{
    answers_have_statuses();
    one_answer();
    one_table();
    let requested = requested(alloc, words, source);
    let decided = answered_by_workers(rt, alloc, requested, gate);
    written(sink, decided)
}

/// Does what `layout_top` does, on the calling thread whatever the number of workers. It always
/// returns, and all memory is taken before the first write.
pub fn layout_alone<S: Source, K: Sink>(
    alloc: Global,
    words: &[String],
    source: &mut S,
    sink: &mut K,
) -> Status
    ensures answer { GivesTheAnswer (call_of S.remaining S.calls S.taken S.fault_count K.written
        K.fault_count (texts words.now) result.0 source.old source.new sink.old sink.new) }
    ensures faults { HasCauses (call_of S.remaining S.calls S.taken S.fault_count K.written
        K.fault_count (texts words.now) result.0 source.old source.new sink.old sink.new) }
    ensures one_table { HasTheTable (call_of S.remaining S.calls S.taken S.fault_count K.written
        K.fault_count (texts words.now) result.0 source.old source.new sink.old sink.new) }
    ensures input { ReadsSoFar (call_of S.remaining S.calls S.taken S.fault_count K.written
        K.fault_count (texts words.now) result.0 source.old source.new sink.old sink.new) }
{
    answers_have_statuses();
    one_answer();
    one_table();
    let requested = requested(alloc, words, source);
    let decided = answered_alone(alloc, requested);
    written(sink, decided)
}

//! Laws of trees that are laid out anew. Goes in: definitions alone. Comes out: that the
//! instances of a tree are cells that the queue can compute anew, that a run of it ends in the
//! table that solves the changed tree, and who reads an instance.
ghost use Rattle.ftl_relayout.specs.laws.Edits.{EditsAreWritten};
ghost use Rattle.ftl_relayout.specs.keys.Keys.{KeysRise};
ghost use Rattle.ftl_relayout.specs.laws.Readers.{ReadersAreNear, ReadsAreHits};
ghost use Rattle.ftl_relayout.specs.laws.Relayout.{NetsAreLawful, RunsLayOutAnew};

/// A law: the key of a step rises along the reads.
pub fn keys_rise()
    ensures rise { KeysRise }
{}

/// A law: the instances of a tree, with these keys, are cells that the queue can compute anew.
pub fn nets_are_lawful()
    ensures nets { NetsAreLawful }
{}

/// A law: a run of the queue ends in the one list that solves the changed tree, and runs just the
/// touched instances, each once.
pub fn runs_lay_out_anew()
    ensures runs { RunsLayOutAnew }
{}

/// A law: what a rule reads at a node are the occurrences that its reads hit there.
pub fn reads_are_hits()
    ensures hits { ReadsAreHits }
{}

/// A law: a step reads an instance exactly where its rule, which runs at the instance's node or at
/// its parent, has a read of it there.
pub fn readers_are_near()
    ensures near { ReadersAreNear }
{}

/// A law: edits that are written into a list that has the inputs of a tree make of it one that has
/// those of the edited tree; all else stays.
pub fn edits_are_written()
    ensures written { EditsAreWritten }
{}

//! Laws that tie faults of schedules to ordered schedules.

ghost use Rattle.ftl_order.specs.faults.FaultLaws.{FaultlessIsOrdered, OneWriterTells};

/// A law: a schedule whose entries are computed attributes has no fault exactly where it is
/// ordered.
pub fn faultless_is_ordered()
    ensures ordered { FaultlessIsOrdered }
{}

/// A law: the schedule has all writers of a read earlier, or none of them, so that the first writer
/// tells.
pub fn one_writer_tells()
    ensures same { OneWriterTells }
{}

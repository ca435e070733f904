//! The kids that the place of a pair has.
ghost use Rattle.std.specs.Prelude.{◌≡◌, ◌<◌, ℕ, length};
ghost use Rattle.ftl_deps.specs.parts.RuleParts.{read_meant};
ghost use Rattle.ftl_deps.specs.reads.Meant.{meant};
ghost use Rattle.ftl_deps.specs.reads.Products.{name_of_info};
ghost use Rattle.ftl_example.specs.pairs.PairMeant as meant_pair;
ghost use Rattle.ftl_example.specs.sizes.KidsMeant.{AreKnownKids, IsKnownKid};
ghost use Rattle.ftl_example.specs.sizes.KidsMeant.{kid_meant, kids_meant};
ghost use Rattle.ftl_example.specs.sizes.Place as place;

use crate::pairs::{RefusedPair, RulePart, WriterNode};
use crate::sizes::kid::{Kid, Kids};
use ftl_checked::{Checked, RuleInfo};
use ftl_deps::PartRead;

/// The kids in a child that the reader's node has.
pub(crate) fn reader_kids(checked: &Checked, pair: RefusedPair, child: u32) -> Kids
    requires writer { pair.writer.class < length checked.now.grammar.classes }
    requires over { meant_pair.GoesOver (meant checked.now) pair }
    ensures kids { kids_meant result
        ≡ place.reader_kids (meant checked.now) (meant_pair.pair_meant pair) child }
    ensures known { AreKnownKids (length checked.now.grammar.classes) result }
{
    let kid = read_kid(pair.runs_at, pair.writer);
    if is_for(pair.reader, child) && is_then(pair.part) {
        two_kids(pair.read, kid)
    } else if reads_child(pair.read, child) {
        Kids::One(kid)
    } else if is_for(pair.reader, child) || is_child(pair.over, child) {
        Kids::One(Kid::Any)
    } else {
        single_alone(checked, pair.reader.class, child)
    }
}

/// What each node has in a child: a tree, where it is no list.
pub(crate) fn single_alone(checked: &Checked, class: u32, child: u32) -> Kids
    ensures kids { kids_meant result
        ≡ place.singles_alone (meant checked.now) place.any class child }
    ensures known { AreKnownKids (length checked.now.grammar.classes) result }
{
    if is_list(checked, class, child) {
        Kids::Nothing
    } else {
        Kids::One(Kid::Any)
    }
}

/// Whether the child is a list; not so of one that is not there.
#[tactic(auto, using(crate::proofs::sizes::Absent::absent_steps))]
pub(crate) fn is_list(checked: &Checked, class: u32, child: u32) -> bool
    ensures list { result ≡ (meant checked.now).is_list class child }
{
    if class < checked.class_count() && child < checked.child_count(class) {
        checked.child(class, child).many
    } else {
        false
    }
}

/// How many children the class has; none where there is no such class.
#[tactic(auto, using(crate::proofs::sizes::Absent::absent_steps))]
pub(crate) fn child_count(checked: &Checked, class: u32) -> u32
    ensures count { result ≡ (meant checked.now).child_count class }
{
    if class < checked.class_count() {
        checked.child_count(class)
    } else {
        0
    }
}

/// Whether the rule is for the kids in the child.
pub(crate) fn is_for(rule: RuleInfo, child: u32) -> bool
    ensures for_it { result ≡ place.is_for (name_of_info rule) child }
{
    is_child(rule.child, child)
}

pub(crate) fn is_child(this: Option<u32>, child: u32) -> bool
    ensures is { result ≡ meant_pair.is_child this child }
{
    match this {
        Some(this) => this == child,
        None => false,
    }
}

fn is_then(part: RulePart) -> bool
    ensures then_part { result ≡ place.is_then (meant_pair.part_meant part) }
{
    match part {
        RulePart::Then => true,
        RulePart::Plain | RulePart::First | RulePart::From | RulePart::With => false,
    }
}

// Whether a kid in the child is read.
fn reads_child(read: PartRead, child: u32) -> bool
    ensures reads { result ≡ place.reads_child (read_meant read) child }
{
    match read {
        PartRead::Own(_) => false,
        PartRead::Single(this, _)
        | PartRead::Each(this, _)
        | PartRead::This(this, _)
        | PartRead::Prev(this, _)
        | PartRead::Last(this, _) => this == child,
    }
}

// The kid that is read: of the writer's class where the writer runs there.
fn read_kid(runs_at: WriterNode, writer: RuleInfo) -> Kid
    ensures known { (n : ℕ) → writer.class < n → IsKnownKid n result }
    ensures kid { kid_meant result
        ≡ place.read_kid (meant_pair.where_meant runs_at) (name_of_info writer) }
{
    match runs_at {
        WriterNode::Same | WriterNode::Parent => Kid::Any,
        WriterNode::Kid => Kid::OfClass(writer.class),
    }
}

// The kids of a later kid and the one before it.
fn two_kids(read: PartRead, kid: Kid) -> Kids
    ensures known { (n : ℕ) → IsKnownKid n kid → AreKnownKids n result }
    ensures kids { kids_meant result ≡ place.two_kids (read_meant read) (kid_meant kid) }
{
    match read {
        PartRead::This(_, _) => Kids::Two(Kid::Any, kid),
        PartRead::Prev(_, _) => Kids::Two(kid, Kid::Any),
        PartRead::Own(_) | PartRead::Single(_, _) | PartRead::Each(_, _) | PartRead::Last(_, _) => {
            Kids::Two(Kid::Any, Kid::Any)
        }
    }
}

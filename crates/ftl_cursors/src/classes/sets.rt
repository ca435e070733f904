//! Sets of classes.
ghost use Rattle.std.specs.Prelude.{◌≡◌, length};
ghost use Rattle.ftl_cursors.specs.classes.ClassSets.{HasAllOf, HasClass, HasRuled, HasVisited};
ghost use Rattle.ftl_cursors.specs.classes.ClassSets.{has_rule};

use ftl_visit::{PassVisits, VisitOp};

/// The set with one more class.
#[inline(always)]
pub(crate) fn with_class(set: u128, class: u32) -> u128
    ensures has { HasClass result class }
    ensures stays { HasAllOf result set }
{
    set | 1 << (class % 128)
}

/// The set with all classes of another one.
#[inline(always)]
pub(crate) fn with_all(set: u128, other: u128) -> u128
    ensures have { HasAllOf result other }
    ensures stay { HasAllOf result set }
{
    set | other
}

/// The classes that a pass with these visits has operations for.
pub(crate) fn visited_classes(visits: &PassVisits, class_count: u32) -> u128
    requires count { class_count ≡ length visits.now }
    ensures visited { HasVisited result visits.now }
{
    let mut set = 0;
    for class in 0..class_count {
        if !visits.visit(class).is_empty() {
            set = with_class(set, class);
        }
    }
    set
}

/// The classes that a pass with these visits has rules for: its visits of kids don't count.
pub(crate) fn ruled_classes(visits: &PassVisits, class_count: u32) -> u128
    requires count { class_count ≡ length visits.now }
    ensures ruled { HasRuled result visits.now }
{
    let mut set = 0;
    for class in 0..class_count {
        if has_rule(visits.visit(class)) {
            set = with_class(set, class);
        }
    }
    set
}

/// Whether one of these operations is a rule.
fn has_rule(ops: &[VisitOp]) -> bool
    ensures rule { result ≡ has_rule ops.now }
{
    for place in 0..ops.len() {
        if let VisitOp::Rule(_) = ops[place] {
            return true;
        }
    }
    false
}

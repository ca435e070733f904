//! The kids for which a rule reads what stands at a place.
ghost use Rattle.std.specs.Prelude.{◌≡◌, ℕ, ◌<◌, ◌≤◌, IfSome, IsTrue, max, min};
ghost use Rattle.ftl_deps.specs.reads.Meant.{meant};
ghost use Rattle.ftl_deps.specs.reads.Products.{name_of_info};
ghost use Rattle.ftl_model.specs.layout.Tree.{size};
ghost use Rattle.ftl_tree.specs.rows.KidRuns.{IsChildOf};
ghost use Rattle.ftl_visit.specs.step_reads.StepReads.{kids_in};
ghost use Rattle.ftl_relayout.specs.readers.Readers.{AreReaderKids, IsKidOf, IsReaderAt};
ghost use Rattle.ftl_relayout.specs.readers.Readers.{attribute_read, rule_kids, seen_as};

use crate::readers::reader::{Range, Reader, When};
use crate::readers::seen::hits;
use ftl_deps::PartRead;
use ftl_meaning::RuleInfo;
use ftl_tree::{Place, Tree};

/// Whether the rule of a reader is for the node where it runs, and always reads the attribute of
/// that node. So it is with most readers.
pub(crate) fn is_for_node(place: Option<Place>, reader: &Reader) -> bool
    ensures kids { IsTrue result → (kids : ℕ → ℕ) → AreReaderKids kids reader.now
        (seen_as place (attribute_read reader.now.read)) (record { from = 0; to = 1 }) }
{
    match (place, reader.info.child, reader.when, reader.read) {
        (None, None, When::Always, PartRead::Own(_)) => true,
        _ => false,
    }
}

/// The numbers of the kids for which the rule of a reader reads the attribute: of the node where it
/// runs, or of that node's kid at this place.
pub(crate) fn reader_kids(
    tree: &Tree<'_>,
    node: u32,
    place: Option<Place>,
    reader: &Reader,
) -> Range
    requires node { node < size tree.now.tree }
    requires place { IfSome place (IsKidOf tree.now node) }
    requires reader { IsReaderAt tree.now node reader.now }
    ensures kids { AreReaderKids (kids_in tree.now node) reader.now
        (seen_as place (attribute_read reader.now.read)) result }
{
    let limit = rule_kids(tree, node, reader.info);
    let hits = hits(tree, node, reader.read, place);
    match reader.when {
        When::Always => clipped(hits, 0, limit),
        When::First => clipped(hits, 0, limit.min(1)),
        When::Later => clipped(hits, 1, limit),
        When::EachKid(child) => {
            let kids = clipped(hits, 0, tree.kid_count(node, child));
            if kids.from < kids.to {
                return Range { from: 0, to: limit };
            }
            Range { from: 0, to: 0 }
        }
    }
}

/// What a range has from a number to before another.
fn clipped(range: Range, from: u32, to: u32) -> Range
    ensures from { result.from ≡ max range.from from }
    ensures to { result.to ≡ min range.to to }
{
    Range {
        from: range.from.max(from),
        to: range.to.min(to),
    }
}

/// For how many kids a rule is at a node; one where it is for the node itself.
fn rule_kids(tree: &Tree<'_>, node: u32, info: RuleInfo) -> u32
    requires child { IfSome info.child (IsChildOf (meant tree.now.checked) tree.now.tree node) }
    ensures count { result ≡ rule_kids (name_of_info info) (kids_in tree.now node) }
{
    match info.child {
        None => 1,
        Some(child) => tree.kid_count(node, child),
    }
}

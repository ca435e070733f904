//! The steps that read an instance come to wait.
ghost use Rattle.std.specs.Prelude.{◌≡◌, ℕ, ◌<◌, ◌≤◌, Contains, IfSome, OnOk};
ghost use Rattle.ftl_deps.specs.reads.Meant.{meant};
ghost use Rattle.ftl_deps.specs.reads.Products.{name_of_info};
ghost use Rattle.ftl_step_value.specs.limits.reads.ReadTables.{class_in};
ghost use Rattle.ftl_model.specs.layout.Path.{node_at};
ghost use Rattle.ftl_model.specs.layout.Tree.{size};
ghost use Rattle.ftl_model.specs.layout.TreeOf.{IsTreeOf};
ghost use Rattle.ftl_order.specs.orders.Lawful.{IsLawful, IsRule, class_of_rule};
ghost use Rattle.ftl_order.specs.steps.Steps.{target_of_rule};
ghost use Rattle.ftl_visit.specs.step_reads.StepReads.{kids_in};
ghost use Rattle.ftl_relayout.specs.keys.Keys as keys;
ghost use Rattle.ftl_relayout.specs.readers.Readers.{AreReaderKids, IsKeyBy, IsKidOf, IsReader};
ghost use Rattle.ftl_relayout.specs.readers.Readers.{attribute_read, readers_for, rule_kids};
ghost use Rattle.ftl_relayout.specs.readers.Readers.{seen_as, whose_at};
ghost use Rattle.ftl_relayout.specs.readers.Sites.{Adds, IsKeyOfKid, IsReaderKeyAt, IsReaderSite};
ghost use Rattle.ftl_relayout.specs.readers.Sites.{IsCellOfKey, IsTarget, IsTold, cell_of};
ghost use Rattle.ftl_relayout.specs.readers.Sites.{site_net};
ghost use Rattle.ftl_relayout.specs.keys.KeyPlaces.{IsKeyPlace};
ghost use Rattle.ftl_relayout.specs.keys.KeysHere.{IsAttributeOf};
ghost use Rattle.ftl_relayout.specs.queue.Nets.{IsReaderBy};
ghost use Rattle.ftl_relayout.specs.readers.Sites.{site_grammar, site_placing};

use crate::keys::{KeyPlace, key_of, told};
use crate::queue::Waiting;
use crate::readers::kids::{is_for_node, reader_kids};
use crate::readers::lists::list_at;
use crate::readers::reader::{Range, Reader, Whose};
use ftl_meaning::RuleInfo;
use ftl_schedule::Accepted;
use ftl_step_value::limits::is_sound;
use ftl_tree::{Place, Tree};
use sqlite_items::Items;
use std::alloc::AllocError;

/// A tree and its schedule, with the readers of each attribute and its place in keys.
#[derive(Clone, Copy)]
pub(crate) struct ReaderSite<'a> {
    pub accepted: &'a Accepted<'a>,
    pub tree: &'a Tree<'a>,
    pub readers: &'a [Items<Reader>],
    pub places: &'a [KeyPlace],
}

/// Lets all steps wait that read an attribute of a node.
pub(crate) fn add_readers(
    site: &ReaderSite<'_>,
    node: u32,
    attr: u32,
    waiting: &mut Waiting,
) -> Result<(), AllocError>
    requires site { IsReaderSite site.now }
    requires attribute { IsAttributeOf site.now.tree.now node attr }
    ensures adds { Adds waiting.old.keys waiting.new.keys (IsReaderBy (site_net site.now)
        (cell_of site.now.tree.now node attr)) }
    ensures all { OnOk result ((k : ℕ) → IsReaderBy (site_net site.now)
        (cell_of site.now.tree.now node attr) k → Contains waiting.new.keys k) }
{
    let tree = site.tree;
    let _nodes = tree.node_count();
    add_at(site, node, None, attr, waiting)?;
    let Some(parent) = tree.parent(node) else {
        return Ok(());
    };
    let place = tree.place(node);
    add_at(site, parent, Some(place), attr, waiting)
}

/// Lets all steps wait whose rules run at a node and read an attribute there: of the node itself,
/// or of its kid at this place.
#[inline(always)]
fn add_at(
    site: &ReaderSite<'_>,
    node: u32,
    place: Option<Place>,
    attr: u32,
    waiting: &mut Waiting,
) -> Result<(), AllocError>
    requires site { IsReaderSite site.now }
    requires node { node < size site.now.tree.now.tree }
    requires place { IfSome place (IsKidOf site.now.tree.now node) }
    requires attr { attr < (site_grammar site.now).attribute_count }
    ensures adds { Adds waiting.old.keys waiting.new.keys
        (IsReaderKeyAt site.now node (seen_as place attr)) }
    ensures all { OnOk result ((k : ℕ) → IsReaderKeyAt site.now node (seen_as place attr) k
        → Contains waiting.new.keys k) }
{
    let tree = site.tree;
    let _nodes = tree.node_count();
    let class = tree.class(node);
    let whose = whose_at(place);
    let list = readers_at(site, attr, class, whose);
    for reader in list {
        add_by(site, node, place, reader, waiting)?;
    }
    Ok(())
}

/// Whose attribute it is that a rule reads there.
fn whose_at(place: Option<Place>) -> Whose
    ensures whose { result ≡ whose_at place }
{
    match place {
        None => Whose::Own,
        Some(_) => Whose::Kid,
    }
}

/// The readers of an attribute that stand for a class.
fn readers_at<'a>(site: &ReaderSite<'a>, attr: u32, class: u32, whose: Whose) -> &'a [Reader]
    requires site { IsReaderSite site.now }
    requires attr { attr < (site_grammar site.now).attribute_count }
    requires class { class < (site_grammar site.now).class_count }
    ensures readers { result.now
        ≡ readers_for (site_grammar site.now) site.now.readers.now attr class whose }
{
    let checked = site.tree.checked();
    is_sound(checked);
    let list = list_at(checked.class_count(), attr, class, whose);
    site.readers[list].as_slice()
}

/// Lets those wait that read it by this reader.
#[inline(always)]
fn add_by(
    site: &ReaderSite<'_>,
    node: u32,
    place: Option<Place>,
    reader: &Reader,
    waiting: &mut Waiting,
) -> Result<(), AllocError>
    requires site { IsReaderSite site.now }
    requires node { node < size site.now.tree.now.tree }
    requires place { IfSome place (IsKidOf site.now.tree.now node) }
    requires reader { IsReader (site_grammar site.now) reader.now }
    requires class { class_of_rule (name_of_info reader.now.info)
        ≡ class_in site.now.tree.now node }
    ensures adds { Adds waiting.old.keys waiting.new.keys (IsReaderKeyAt site.now node
        (seen_as place (attribute_read reader.now.read))) }
    ensures all { OnOk result ((k : ℕ)
        → IsKeyBy (site_grammar site.now) (site_placing site.now) site.now.tree.now.tree
        (node_at site.now.tree.now.tree node) (seen_as place (attribute_read reader.now.read))
        reader.now k → Contains waiting.new.keys k) }
{
    if is_for_node(place, reader) {
        let kids = Range { from: 0, to: 1 };
        return add_reading(site, node, place, reader, kids, waiting);
    }
    add_by_kids(site, node, place, reader, waiting)
}

/// The same, whichever kids it is for.
#[inline(never)]
fn add_by_kids(
    site: &ReaderSite<'_>,
    node: u32,
    place: Option<Place>,
    reader: &Reader,
    waiting: &mut Waiting,
) -> Result<(), AllocError>
    requires site { IsReaderSite site.now }
    requires node { node < size site.now.tree.now.tree }
    requires place { IfSome place (IsKidOf site.now.tree.now node) }
    requires reader { IsReader (site_grammar site.now) reader.now }
    requires class { class_of_rule (name_of_info reader.now.info)
        ≡ class_in site.now.tree.now node }
    ensures adds { Adds waiting.old.keys waiting.new.keys (IsReaderKeyAt site.now node
        (seen_as place (attribute_read reader.now.read))) }
    ensures all { OnOk result ((k : ℕ)
        → IsKeyBy (site_grammar site.now) (site_placing site.now) site.now.tree.now.tree
        (node_at site.now.tree.now.tree node) (seen_as place (attribute_read reader.now.read))
        reader.now k → Contains waiting.new.keys k) }
{
    let tree = site.tree;
    let _nodes = tree.node_count();
    let kids = reader_kids(tree, node, place, reader);
    add_reading(site, node, place, reader, kids, waiting)
}

/// Lets what a rule computes at a node wait, for the kids for which it reads what stands
/// at a place.
#[inline(always)]
fn add_reading(
    site: &ReaderSite<'_>,
    node: u32,
    place: Option<Place>,
    reader: &Reader,
    kids: Range,
    waiting: &mut Waiting,
) -> Result<(), AllocError>
    requires site { IsReaderSite site.now }
    requires node { node < size site.now.tree.now.tree }
    requires reader { IsReader (site_grammar site.now) reader.now }
    requires class { class_of_rule (name_of_info reader.now.info)
        ≡ class_in site.now.tree.now node }
    requires kids { AreReaderKids (kids_in site.now.tree.now node) reader.now
        (seen_as place (attribute_read reader.now.read)) kids }
    ensures adds { Adds waiting.old.keys waiting.new.keys (IsReaderKeyAt site.now node
        (seen_as place (attribute_read reader.now.read))) }
    ensures all { OnOk result ((k : ℕ)
        → IsKeyBy (site_grammar site.now) (site_placing site.now) site.now.tree.now.tree
        (node_at site.now.tree.now.tree node) (seen_as place (attribute_read reader.now.read))
        reader.now k → Contains waiting.new.keys k) }
{
    let _nodes = site.tree.node_count();
    add_kids(site, node, reader, kids, waiting)
}

/// Lets what a rule computes at a node wait, for these kids.
#[inline(always)]
fn add_kids(
    site: &ReaderSite<'_>,
    node: u32,
    reader: &Reader,
    kids: Range,
    waiting: &mut Waiting,
) -> Result<(), AllocError>
    requires site { IsReaderSite site.now }
    requires node { node < size site.now.tree.now.tree }
    requires rule { IsRule (site_grammar site.now) (name_of_info reader.now.info) }
    requires class { class_of_rule (name_of_info reader.now.info)
        ≡ class_in site.now.tree.now node }
    requires kids { (n : ℕ) → kids.from ≤ n → n < kids.to
        → n < rule_kids (name_of_info reader.now.info) (kids_in site.now.tree.now node) }
    ensures adds { Adds waiting.old.keys waiting.new.keys
        (IsKeyOfKid site.now node reader.now kids) }
    ensures all { OnOk result ((k : ℕ) → IsKeyOfKid site.now node reader.now kids k
        → Contains waiting.new.keys k) }
{
    for kid in kids.from..kids.to {
        let key = step_key(site, node, reader.info, kid);
        waiting.insert(key)?;
    }
    Ok(())
}

/// The key of what a rule computes at a node for a kid.
fn step_key(site: &ReaderSite<'_>, node: u32, info: RuleInfo, kid: u32) -> u128
    requires site { IsReaderSite site.now }
    requires node { node < size site.now.tree.now.tree }
    requires rule { IsRule (site_grammar site.now) (name_of_info info) }
    requires class { class_of_rule (name_of_info info) ≡ class_in site.now.tree.now node }
    requires kid { kid < rule_kids (name_of_info info) (kids_in site.now.tree.now node) }
    ensures key { result ≡ keys.key_of (site_grammar site.now) (site_placing site.now)
        site.now.tree.now.tree
        (target_of_rule (node_at site.now.tree.now.tree node) (name_of_info info) kid) }
{
    let tree = site.tree;
    let _nodes = tree.node_count();
    let target = target_node(tree, node, info, kid);
    let at = key_place(site, info.attr);
    key_of(&at, tree, target, info.attr)
}

/// The place of an attribute in keys.
fn key_place(site: &ReaderSite<'_>, attr: u32) -> KeyPlace
    requires site { IsReaderSite site.now }
    requires attr { attr < (site_grammar site.now).attribute_count }
    ensures place { IsKeyPlace site.now.tree.now.checked site.now.accepted.now.schedule
        attr result }
{
    site.places[attr as usize]
}

/// The node whose attribute a rule defines that runs at a node for a kid.
fn target_node(tree: &Tree<'_>, node: u32, info: RuleInfo, kid: u32) -> u32
    requires law { IsLawful (meant tree.now.checked) }
    requires node { node < size tree.now.tree }
    requires rule { IsRule (meant tree.now.checked) (name_of_info info) }
    requires class { class_of_rule (name_of_info info) ≡ class_in tree.now node }
    requires kid { kid < rule_kids (name_of_info info) (kids_in tree.now node) }
    ensures target { IsTarget tree.now node (name_of_info info) kid result }
{
    let _nodes = tree.node_count();
    match info.child {
        None => node,
        Some(child) => tree.kid(node, child, kid),
    }
}

/// The node and the attribute of the instance that has a key.
pub(crate) fn told_instance(site: &ReaderSite<'_>, key: u128) -> (u32, u32)
    requires site { IsReaderSite site.now }
    ensures told { (cell : ℕ) → IsCellOfKey site.now cell key
        → IsTold site.now cell result.0 result.1 }
    ensures is_tree { IsTreeOf (site_grammar site.now) site.now.tree.now.tree }
{
    let _nodes = site.tree.node_count();
    told(key)
}

//! What is known of attributes, in the order of their numbers.
ghost use Rattle.std.specs.Prelude.{◌≡◌, ◌++◌, ◌<◌, length, map, flat_map, IfOk, OnOk};
ghost use Rattle.ftl_meaning.specs.faults.Checked.{all_attributes, attribute_info};
ghost use Rattle.ftl_meaning.specs.faults.Counts.{HasSmallCounts};
ghost use Rattle.ftl_meaning.specs.faults.Numbering.{class_at, interface_at, numbered};
ghost use Rattle.ftl_checked.specs.lookup.OwnerInfos.{own_infos, shared_infos};

use crate::lookup::among::{copies, is_in};
use crate::lookup::find::{class, interface};
use crate::names::NameTable;
use ftl_grammar::Grammar;
use ftl_meaning::AttrInfo;
use sqlite_items::Items;
use std::alloc::{AllocError, Global};

#[tactic(auto, using(crate::proofs::lookup::AttrInfos::attributes_are))]
pub fn attr_infos(alloc: Global, grammar: &Grammar) -> Result<Items<AttrInfo>, AllocError>
    requires small { HasSmallCounts grammar.now }
    ensures infos { IfOk result (λ v. v
        ≡ map (attribute_info grammar.now) (all_attributes grammar.now)) }
{
    let mut infos = Items::new(alloc);
    all_shared(alloc, grammar, &mut infos)?;
    all_own(grammar, &mut infos)?;
    Ok(infos)
}

#[tactic(auto, using(crate::proofs::lookup::AttrInfos::shared_steps))]
fn all_shared(
    alloc: Global,
    grammar: &Grammar,
    infos: &mut Items<AttrInfo>,
) -> Result<(), AllocError>
    requires small { HasSmallCounts grammar.now }
    ensures infos { OnOk result (infos.new ≡ infos.old
        ++ flat_map (shared_infos grammar.now) (numbered 0 grammar.now.interfaces)) }
{
    for number in 0..grammar.interfaces.len() as u32 {
        one_shared(alloc, grammar, number, infos)?;
    }
    Ok(())
}

#[tactic(auto, unfolding(crate::specs::lookup::OwnerInfos::shared_infos))]
fn one_shared(
    alloc: Global,
    grammar: &Grammar,
    number: u32,
    infos: &mut Items<AttrInfo>,
) -> Result<(), AllocError>
    requires small { HasSmallCounts grammar.now }
    requires within { number < length grammar.now.interfaces }
    ensures infos { OnOk result (infos.new ≡ infos.old
        ++ shared_infos grammar.now (number, interface_at grammar.now number)) }
{
    let found = interface(grammar, number);
    let shown = NameTable::new(alloc, copies(alloc, found.shown.as_slice())?)?;
    for attr in found.attrs.as_slice() {
        infos.push(AttrInfo {
            kind: attr.kind,
            of_class: false,
            owner: number,
            shown: is_in(&shown, &attr.name),
        })?;
    }
    Ok(())
}

#[tactic(auto, using(crate::proofs::lookup::AttrInfos::own_steps))]
fn all_own(grammar: &Grammar, infos: &mut Items<AttrInfo>) -> Result<(), AllocError>
    requires small { HasSmallCounts grammar.now }
    ensures infos { OnOk result (infos.new ≡ infos.old
        ++ flat_map (own_infos grammar.now) (numbered 0 grammar.now.classes)) }
{
    for number in 0..grammar.classes.len() as u32 {
        one_own(grammar, number, infos)?;
    }
    Ok(())
}

#[tactic(auto, unfolding(crate::specs::lookup::OwnerInfos::own_infos))]
fn one_own(grammar: &Grammar, number: u32, infos: &mut Items<AttrInfo>) -> Result<(), AllocError>
    requires within { number < length grammar.now.classes }
    ensures infos { OnOk result (infos.new ≡ infos.old
        ++ own_infos grammar.now (number, class_at grammar.now number)) }
{
    for attr in class(grammar, number).attrs.as_slice() {
        infos.push(AttrInfo {
            kind: attr.kind,
            of_class: true,
            owner: number,
            shown: false,
        })?;
    }
    Ok(())
}

//! Two steps that show a pair, among the steps of a tree.
ghost use Rattle.std.specs.Prelude.{◌≡◌, ◌<◌, ◌↔◌, [], ◌∷◌, ℕ, length, IsTrue, None};
ghost use Rattle.std.specs.Prelude.{Contains, IfSome};
ghost use Rattle.std.specs.List.{range_with_len};
ghost use Rattle.ftl_deps.specs.reads.Meant.{meant};
ghost use Rattle.ftl_deps.specs.reads.Products.{name_of_info};
ghost use Rattle.ftl_example.specs.declared.pairs.refused_pair.RulePart.TheVariants.{With};
ghost use Rattle.ftl_example.specs.examples.HandMeant.{hand_meant};
ghost use Rattle.ftl_example.specs.examples.ShownSteps.{AreOfTree, AreShownAt, IsShownWith};
ghost use Rattle.ftl_example.specs.examples.ShownSteps.{IsFilledAt, IsFilling, IsFoundFor};
ghost use Rattle.ftl_example.specs.examples.ShownSteps.{NoneIsFilled, NoneIsFoundFor, NoneShow};
ghost use Rattle.ftl_example.specs.examples.ShownSteps.{kids_at_hand};
ghost use Rattle.ftl_example.specs.pairs.PairMeant.{pair_meant};
ghost use Rattle.ftl_example.specs.sizes.PlaceTable.{IsKnownPair};
ghost use Rattle.ftl_step_value.specs.limits.reads.ReadTables.{IsSound};
ghost use Rattle.ftl_order.specs.orders.Pairs.{IsPair};
ghost use Rattle.ftl_order.specs.steps.Steps.{IsStepOf, rule_at};

use crate::pairs::{RefusedPair, RulePart};
use ftl_checked::RuleInfo;
use ftl_order::Step;
use ftl_step_value::cells::read_cell;
use ftl_step_value::target_cell;
use ftl_tree::Tree;

/// Where two steps stand in an order that show a pair.
#[derive(Clone, Copy)]
pub struct ShownPlaces {
    pub reader: usize,
    pub writer: usize,
}

/// Which kids come to hand in a part of a rule.
#[derive(Clone, Copy)]
pub enum AtHand {
    Nothing,
    /// The kid of this number.
    One(u32),
    /// So many kids, from the first on.
    Each(u32),
}

/// The first two steps that show the pair.
pub fn shown_steps(tree: &Tree<'_>, pair: RefusedPair, steps: &[Step]) -> Option<ShownPlaces>
    requires sound { IsSound (meant tree.now.checked) }
    requires known { IsKnownPair (meant tree.now.checked) pair }
    requires pair { IsPair (meant tree.now.checked) (pair_meant pair) }
    requires steps { AreOfTree (meant tree.now.checked) tree.now.tree steps.now }
    ensures found { IfSome result (λ f. AreShownAt (meant tree.now.checked) tree.now.tree
        (pair_meant pair) steps.now f.reader f.writer) }
    ensures none { result ≡ None
        → NoneShow (meant tree.now.checked) tree.now.tree (pair_meant pair) steps.now }
{
    for reader in 0..steps.len() {
        if let Some(writer) = writer_of(tree, pair, steps, steps[reader]) {
            return Some(ShownPlaces { reader, writer });
        }
    }
    None
}

// The step by the writer that this step reads, where it is by the reader.
fn writer_of(tree: &Tree<'_>, pair: RefusedPair, steps: &[Step], reader: Step) -> Option<usize>
    requires sound { IsSound (meant tree.now.checked) }
    requires known { IsKnownPair (meant tree.now.checked) pair }
    requires pair { IsPair (meant tree.now.checked) (pair_meant pair) }
    requires steps { AreOfTree (meant tree.now.checked) tree.now.tree steps.now }
    requires reader { IsStepOf (meant tree.now.checked) tree.now.tree reader }
    ensures found { IfSome result (IsShownWith (meant tree.now.checked) tree.now.tree
        (pair_meant pair) reader steps.now) }
    ensures none { result ≡ None → (w : ℕ) → IsShownWith (meant tree.now.checked) tree.now.tree
        (pair_meant pair) reader steps.now w → ⊥ }
{
    if !runs_rule(tree, reader, pair.reader) {
        return None;
    }
    match at_hand(tree, pair, reader) {
        AtHand::Nothing => None,
        AtHand::One(kid) => writer_for(tree, pair, steps, reader, kid),
        AtHand::Each(count) => writer_for_each(tree, pair, steps, reader, count),
    }
}

// Which kids come to hand in the pair's part.
fn at_hand(tree: &Tree<'_>, pair: RefusedPair, reader: Step) -> AtHand
    requires sound { IsSound (meant tree.now.checked) }
    requires known { IsKnownPair (meant tree.now.checked) pair }
    requires pair { IsPair (meant tree.now.checked) (pair_meant pair) }
    requires reader { IsStepOf (meant tree.now.checked) tree.now.tree reader }
    requires rule { rule_at (meant tree.now.checked) reader.rule ≡ name_of_info pair.reader }
    ensures hand { hand_meant result
        ≡ kids_at_hand (meant tree.now.checked) tree.now.tree (pair_meant pair) reader }
{
    match pair.part {
        RulePart::Plain | RulePart::From => AtHand::One(reader.kid),
        RulePart::First => {
            if reader.kid == 0 {
                AtHand::One(0)
            } else {
                AtHand::Nothing
            }
        }
        RulePart::Then => {
            if reader.kid == 0 {
                AtHand::Nothing
            } else {
                AtHand::One(reader.kid)
            }
        }
        RulePart::With => kids_of_fold(tree, pair, reader),
    }
}

// Those of the child that a fold goes over.
fn kids_of_fold(tree: &Tree<'_>, pair: RefusedPair, reader: Step) -> AtHand
    requires sound { IsSound (meant tree.now.checked) }
    requires known { IsKnownPair (meant tree.now.checked) pair }
    requires pair { IsPair (meant tree.now.checked) (pair_meant pair) }
    requires part { pair.part ≡ With }
    requires reader { IsStepOf (meant tree.now.checked) tree.now.tree reader }
    requires rule { rule_at (meant tree.now.checked) reader.rule ≡ name_of_info pair.reader }
    ensures hand { hand_meant result
        ≡ kids_at_hand (meant tree.now.checked) tree.now.tree (pair_meant pair) reader }
{
    let _nodes = tree.node_count();
    match pair.over {
        Some(child) => AtHand::Each(tree.kid_count(reader.node, child)),
        None => AtHand::Nothing,
    }
}

// The step by the writer that the read is of, while one of so many kids is at hand.
fn writer_for_each(
    tree: &Tree<'_>,
    pair: RefusedPair,
    steps: &[Step],
    reader: Step,
    count: u32,
) -> Option<usize>
    requires sound { IsSound (meant tree.now.checked) }
    requires pair { IsPair (meant tree.now.checked) (pair_meant pair) }
    requires steps { AreOfTree (meant tree.now.checked) tree.now.tree steps.now }
    requires reader { IsStepOf (meant tree.now.checked) tree.now.tree reader }
    requires rule { rule_at (meant tree.now.checked) reader.rule ≡ name_of_info pair.reader }
    requires hand { range_with_len 0 count
        ≡ kids_at_hand (meant tree.now.checked) tree.now.tree (pair_meant pair) reader }
    ensures found { IfSome result (IsFoundFor (meant tree.now.checked) tree.now.tree
        (pair_meant pair) reader (range_with_len 0 count) steps.now) }
    ensures none { result ≡ None → NoneIsFoundFor (meant tree.now.checked) tree.now.tree
        (pair_meant pair) reader (range_with_len 0 count) steps.now }
{
    for kid in 0..count {
        let found = writer_for(tree, pair, steps, reader, kid);
        if found.is_some() {
            return found;
        }
    }
    None
}

// The same, while this kid is at hand.
fn writer_for(
    tree: &Tree<'_>,
    pair: RefusedPair,
    steps: &[Step],
    reader: Step,
    kid: u32,
) -> Option<usize>
    requires sound { IsSound (meant tree.now.checked) }
    requires pair { IsPair (meant tree.now.checked) (pair_meant pair) }
    requires steps { AreOfTree (meant tree.now.checked) tree.now.tree steps.now }
    requires reader { IsStepOf (meant tree.now.checked) tree.now.tree reader }
    requires rule { rule_at (meant tree.now.checked) reader.rule ≡ name_of_info pair.reader }
    requires hand { Contains
        (kids_at_hand (meant tree.now.checked) tree.now.tree (pair_meant pair) reader) kid }
    ensures found { IfSome result (IsFoundFor (meant tree.now.checked) tree.now.tree
        (pair_meant pair) reader (kid ∷ []) steps.now) }
    ensures none { result ≡ None → NoneIsFoundFor (meant tree.now.checked) tree.now.tree
        (pair_meant pair) reader (kid ∷ []) steps.now }
{
    let _nodes = tree.node_count();
    match read_cell(tree, reader.node, pair.read, kid) {
        Some(cell) => filling_step(tree, pair.writer, steps, cell),
        None => None,
    }
}

// The step of a rule that fills a cell.
fn filling_step(tree: &Tree<'_>, rule: RuleInfo, steps: &[Step], cell: u32) -> Option<usize>
    requires sound { IsSound (meant tree.now.checked) }
    requires steps { AreOfTree (meant tree.now.checked) tree.now.tree steps.now }
    ensures found { IfSome result (IsFilledAt (meant tree.now.checked) tree.now.tree
        (name_of_info rule) cell steps.now) }
    ensures none { result ≡ None → NoneIsFilled (meant tree.now.checked) tree.now.tree
        (name_of_info rule) cell steps.now (length steps.now) }
{
    for place in 0..steps.len() {
        if fills(tree, rule, steps[place], cell) {
            return Some(place);
        }
    }
    None
}

// Whether a step is by a rule, and fills a cell.
fn fills(tree: &Tree<'_>, rule: RuleInfo, step: Step, cell: u32) -> bool
    requires sound { IsSound (meant tree.now.checked) }
    requires step { IsStepOf (meant tree.now.checked) tree.now.tree step }
    ensures fills { IsTrue result ↔ IsFilling (meant tree.now.checked) tree.now.tree
        (name_of_info rule) cell step }
{
    runs_rule(tree, step, rule) && target_cell(tree, step) == cell
}

// Whether a step is by a rule.
fn runs_rule(tree: &Tree<'_>, step: Step, rule: RuleInfo) -> bool
    requires step { IsStepOf (meant tree.now.checked) tree.now.tree step }
    ensures rule { IsTrue result
        ↔ (rule_at (meant tree.now.checked) step.rule ≡ name_of_info rule) }
{
    let checked = tree.checked();
    let _ = checked.grammar();
    checked.rule(step.rule) == rule
}

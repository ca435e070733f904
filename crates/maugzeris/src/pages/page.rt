//! Pages of a document.

ghost use Rattle.std.specs.Prelude.{◌≡◌, ◌<◌, ◌≤◌, None, IfOk, string_bytes, string_len};
ghost use Rattle.std.specs.Option.{option_map};
ghost use Rattle.ftl_model.specs.layout.Limits.{most_page_bytes};
ghost use Rattle.ftl_model.specs.layout.Path.{node_at, number_of, parent_of};
ghost use Rattle.ftl_model.specs.layout.Tree.{size};
ghost use Rattle.ftl_model.specs.layout.TreeOf.{IsTreeOf};
ghost use Rattle.ftl_order.specs.orders.Lawful.{IsLawful};
ghost use Rattle.ftl_answer.specs.answers.Texts.{tree};
ghost use Rattle.ftl_deps.specs.reads.Meant.{meant};
ghost use Rattle.ftl_step_value.specs.limits.faults.PlanFaults.{first_fault};
ghost use Rattle.ftl_nest_check.specs.stages.Nested.{nests_of};
ghost use Rattle.ftl_nests.specs.Nests.{outer_schedule};
ghost use Rattle.maugzeris.specs.pages.PageState.{class_on, page_read, tree_on};
ghost use Rattle.maugzeris.specs.refusals.Answers.{Answers};
ghost use Rattle.maugzeris.specs.rules.RuleTexts.{document_text};

use crate::refusals::{Refusal, refusal_of, short_text};
use crate::rules::{Grammar, Rules};
use ftl_answer::reading::tree_of;
use ftl_base::Val;
use ftl_edits::EditList;
use ftl_nest_check::AcceptedNests;
use ftl_relayout::Relayouter;
use ftl_step_value::limits::is_sound;
use ftl_tree::Tree;
use ftl_visit::Runner;
use std::alloc::{AllocError, Global};
use std::marker::Model;

/// A page: a tree of a grammar, the edits of its inputs that are not laid out yet, and the values
/// of its attributes, where it was laid out. Contracts see these, with the grammar and the
/// schedule.
#[derive(Drop)]
pub struct Page<'a> {
    pub(crate) rules: &'a Rules<'a>,
    pub(crate) relayouter: Relayouter<'a>,
    pub(crate) runner: Runner<'a>,
    pub(crate) tree: Tree<'a>,
    pub(crate) edits: EditList,
    pub(crate) values: Vec<Val>,
    pub(crate) laid_out: bool,
}

impl<'a> Model for Page<'a> {
    ghost use Rattle.std.specs.Coded.{codes};
    ghost use Rattle.ftl_model.specs.layout.ForestCode.{forest_code};
    ghost use Rattle.ftl_grammar.specs.contracts.syntax.expression.Expr as e;
    ghost use Rattle.maugzeris.specs.pages.PageInside.{IsPage, page_inside};
    ghost use Rattle.maugzeris.specs.pages.PageState.{PageState};

    ghost Value = { PageState };

    ghost coded = { Prim.hlevel (codes, e.the_row.coded, forest_code) };

    ghost view = { page_inside };

    ghost invariant = { IsPage };
}

impl<'a> Page<'a> {
    /// The page of a document. It is not laid out yet.
    #[tactic(auto, using(crate::proofs::refusals::Ways::stage_steps))]
    pub fn new(alloc: Global, rules: &'a Rules<'a>, text: &str) -> Result<Page<'a>, Refusal>
        ensures outcome { Answers (document_text rules.now.checked rules.now.schedule text.now)
            (λ p. p.tree) result }
        ensures read { IfOk result (λ p. p ≡ page_read rules.now p.tree) }
    {
        match short_text(alloc, text) {
            Ok(text) => of_text(alloc, rules, text),
            Err(refusal) => Err(refusal),
        }
    }

    /// The grammar.
    pub fn grammar(&self) -> &'a Grammar
        ensures grammar { result.now ≡ self.now.checked }
    {
        self.rules.grammar()
    }

    /// The tree. It is one of the grammar, which is lawful.
    pub(crate) fn tree(&self) -> &Tree<'a>
        ensures tree { result.now ≡ tree_on self.now }
        ensures is_tree { IsTreeOf (meant self.now.checked) self.now.tree }
        ensures lawful { IsLawful (meant self.now.checked) }
    {
        is_sound(self.rules.grammar().checked());
        let _nodes = self.tree.node_count();
        &self.tree
    }

    /// The schedule. Before the page is laid out no outer stage of it reads too much.
    pub(crate) fn schedule(&self) -> &AcceptedNests<'a>
        ensures grammar { result.now.checked ≡ self.now.checked }
        ensures fits { self.now.values ≡ None → first_fault (meant self.now.checked)
            (outer_schedule (nests_of result.now.schedule)) self.now.tree ≡ None }
    {
        self.rules.schedule()
    }

    /// How many nodes there are. They are numbered from 0, a node before its kids.
    pub fn node_count(&self) -> u32
        ensures count { result ≡ size self.now.tree }
        ensures bound { result ≤ 1048576 }
    {
        self.tree.node_count()
    }

    /// The class of a node.
    pub fn class(&self, node: u32) -> u32
        requires node { node < size self.now.tree }
        ensures class { result ≡ class_on self.now node }
    {
        self.tree.class(node)
    }

    /// The number of a node's parent; none for the root.
    pub fn parent(&self, node: u32) -> Option<u32>
        requires node { node < size self.now.tree }
        ensures parent { result
            ≡ option_map (number_of self.now.tree) (parent_of (node_at self.now.tree node)) }
    {
        self.tree.parent(node)
    }
}

/// The page of a document that is not too long.
#[tactic(auto, using(crate::proofs::refusals::Ways::stage_steps))]
fn of_text<'a>(alloc: Global, rules: &'a Rules<'a>, text: String) -> Result<Page<'a>, Refusal>
    requires short { string_len text ≤ most_page_bytes }
    ensures outcome { Answers (tree rules.now.checked rules.now.schedule (string_bytes text))
        (λ p. p.tree) result }
    ensures read { IfOk result (λ p. p ≡ page_read rules.now p.tree) }
{
    match tree_of(alloc, rules.grammar().checked(), rules.schedule(), text) {
        Ok(tree) => Ok(of_tree(alloc, rules, tree)?),
        Err(end) => Err(refusal_of(end)),
    }
}

/// The page of a tree, with the tables by which it is laid out anew.
pub(crate) fn of_tree<'a>(
    alloc: Global,
    rules: &'a Rules<'a>,
    tree: Tree<'a>,
) -> Result<Page<'a>, AllocError>
    requires grammar { tree.checked ≡ rules.now.checked }
    requires fits { first_fault (meant rules.now.checked)
        (outer_schedule (nests_of rules.now.schedule)) tree.tree ≡ None }
    ensures page { IfOk result (λ p. p ≡ page_read rules.now tree.entry.tree) }
{
    let grammar = rules.grammar();
    let relayouter = Relayouter::new(alloc, grammar.checked(), rules.flat())?;
    Ok(Page {
        rules,
        relayouter,
        runner: Runner::new(grammar.programs()),
        tree,
        edits: EditList::new(alloc),
        values: Vec::new(alloc),
        laid_out: false,
    })
}

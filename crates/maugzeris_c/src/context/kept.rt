//! Grammars and rules that stay in memory until the process ends.

ghost use Rattle.std.specs.Prelude.{◌≡◌, IfOk};

use maugzeris::{Grammar, Rules};
use std::alloc::{AllocFailed, Global};
use std::marker::Model;

/// A grammar that stays.
#[derive(Drop)]
pub struct KeptGrammar {
    grammar: &'static Grammar,
}

impl Model for KeptGrammar {
    ghost use Rattle.ftl_meaning.specs.faults.Checked.{CheckedGrammar};
    ghost use Rattle.maugzeris.specs.contracts.rules.grammar.Grammar as g;

    ghost Value = { CheckedGrammar };

    ghost coded = { g.the_row.coded };

    ghost view = { λ k. k.grammar.now };
}

impl KeptGrammar {
    /// Keeps a grammar.
    pub(crate) fn new(alloc: Global, grammar: Grammar) -> Result<KeptGrammar, AllocFailed<Grammar>>
        ensures kept { IfOk result (λ k. k ≡ grammar) }
    {
        let grammar: &'static Grammar = Box::leak(Box::new(alloc, grammar)?);
        Ok(KeptGrammar { grammar })
    }

    /// The grammar.
    pub(crate) fn get(&self) -> &'static Grammar
        ensures grammar { result.now ≡ self.now }
    {
        self.grammar
    }
}

/// Rules that stay.
#[derive(Drop)]
pub struct KeptRules {
    rules: &'static Rules<'static>,
}

impl Model for KeptRules {
    ghost use Rattle.ftl_nest_check.specs.check.NestAccepted.{AcceptedNestingSchedule};
    ghost use Rattle.std.specs.Coded.{codes};
    ghost use Rattle.maugzeris.specs.contracts.rules.grammar.Grammar as g;

    ghost Value = { AcceptedNestingSchedule };

    ghost coded = { Prim.hlevel (codes, g.the_row.coded) };

    ghost view = { λ k. k.rules.now };
}

impl KeptRules {
    /// Keeps rules.
    pub(crate) fn new(
        alloc: Global,
        rules: Rules<'static>,
    ) -> Result<KeptRules, AllocFailed<Rules<'static>>>
        ensures kept { IfOk result (λ k. k ≡ rules.entry) }
    {
        let rules: &'static Rules<'static> = Box::leak(Box::new(alloc, rules)?);
        Ok(KeptRules { rules })
    }

    /// The rules.
    pub(crate) fn get(&self) -> &'static Rules<'static>
        ensures rules { result.now ≡ self.now }
    {
        self.rules
    }
}

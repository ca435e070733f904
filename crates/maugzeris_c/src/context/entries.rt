//! The lists of a context.

ghost use Rattle.std.specs.Prelude.{◌≡◌};
ghost use Rattle.maugzeris_c.specs.context.State.{nothing};

use crate::context::kept::{KeptGrammar, KeptRules};
use crate::context::open_page::OpenPage;
use std::alloc::Global;
use std::marker::Model;

/// What a C program made. Grammars and rules stay in memory until the process ends, since pages
/// borrow from them; a page goes when it is freed, and at the latest with the context.
#[derive(Drop)]
pub struct Context {
    pub(crate) grammars: Vec<KeptGrammar>,
    pub(crate) rules: Vec<KeptRules>,
    pub(crate) pages: Vec<Option<OpenPage>>,
    pub(crate) refusal: Vec<u8>,
}

impl Model for Context {
    ghost use Rattle.std.specs.Coded.{codes};
    ghost use Rattle.maugzeris_c.specs.contracts.context.kept.KeptGrammar as g;
    ghost use Rattle.maugzeris_c.specs.contracts.context.kept.KeptRules as r;
    ghost use Rattle.maugzeris_c.specs.contracts.context.open_page.OpenPage as o;
    ghost use Rattle.maugzeris_c.specs.context.State.{ContextState};

    ghost Value = { ContextState };

    ghost coded = { Prim.hlevel (codes, g.the_row.coded, r.the_row.coded, o.the_row.coded) };

    ghost use Rattle.maugzeris_c.specs.context.Inside.{context_inside};

    ghost view = { context_inside };
}

impl Context {
    /// Nothing was made yet.
    pub fn new(alloc: Global) -> Context
        ensures nothing { result ≡ nothing }
    {
        Context {
            grammars: Vec::new(alloc),
            rules: Vec::new(alloc),
            pages: Vec::new(alloc),
            refusal: Vec::new(alloc),
        }
    }
}

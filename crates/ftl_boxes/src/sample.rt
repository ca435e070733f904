//! Pages of any size, from a number.

ghost use Rattle.std.specs.Prelude.{◌≡◌, ◌≢◌, ◌≤◌, IfOk, IfErr, IsOk, Ok, Err, string_bytes};
ghost use Rattle.ftl_boxes.specs.declared.fault.SampleFault.TheVariants.{OutOfMemory};
ghost use Rattle.ftl_boxes.specs.Sample.{head, tail, sample_text};
ghost use Rattle.ftl_boxes.specs.SamplePage.{sample_page_of};

use crate::fault::SampleFault;
use crate::grammar::Grammar;
use crate::numbers::Numbers;
use crate::pieces::Sample;
use std::alloc::{AllocError, Global};

const GREATEST_SIZE: u32 = 200_000;

/// No less than a piece takes with its share of the brackets of a group of eight.
const PIECE_BYTES: usize = 34;

/// No less than the other lines and the brackets of a smaller group take.
const FRAME_BYTES: usize = 200;

/// The page of a sample of `n` pieces in the grammar of this name.
pub fn sample_page(alloc: Global, n: u32, grammar: &str) -> Result<String, SampleFault>
    ensures text { IfOk result (λ t. sample_page_of grammar.now n ≡ Ok (string_bytes t)) }
    ensures fault { IfErr result (λ e. e ≢ OutOfMemory → sample_page_of grammar.now n ≡ Err e) }
    ensures memory { IfErr result (λ e. e ≡ OutOfMemory → IsOk (sample_page_of grammar.now n)) }
{
    let Some(grammar) = Grammar::named(grammar.as_bytes()) else {
        return Err(SampleFault::NameUnknown);
    };
    if n == 0 || GREATEST_SIZE < n {
        return Err(SampleFault::SizeRange { n });
    }
    Ok(Sample { grammar, size: n }.page(alloc)?)
}

fn head(grammar: Grammar) -> &'static str
    ensures text { result.now ≡ head grammar }
{
    match grammar {
        Grammar::Stack => "Sheet { body = Column { kids = [\n",
        Grammar::Block =>
            "Screen { vw = 800 body = Block { margin = 8 pad = 4 border = 1 kids = [\n",
        Grammar::Inline => "Para { vw = 600 space = 4 kids = [\n",
        Grammar::Float => "Screen { vw = 600 kids = [\n",
        Grammar::Table => "Table { rows = [\n",
        Grammar::Flow => "Article { vw = 800 pad = 16 kids = [\n",
    }
}

fn tail(grammar: Grammar) -> &'static str
    ensures text { result.now ≡ tail grammar }
{
    match grammar {
        Grammar::Stack | Grammar::Block => "] } }\n",
        Grammar::Inline | Grammar::Float | Grammar::Table | Grammar::Flow => "] }\n",
    }
}

impl Sample {
    #[tactic(auto, using(crate::proofs::SampleLemmas::parts_from_zero))]
    fn page(self, alloc: Global) -> Result<String, AllocError>
        requires small { self.size ≤ 200000 }
        ensures text { IfOk result (λ t. string_bytes t ≡ sample_text self.grammar self.size) }
    {
        let bytes = PIECE_BYTES * self.size as usize + FRAME_BYTES;
        let mut out = String::with_capacity(alloc, bytes)?;
        let mut numbers = Numbers { state: self.size };
        out.push_str("%page 1\n%grammar ")?;
        out.push_str(self.grammar.name())?;
        out.push_str("\n%schedule auto\n%document\n")?;
        out.push_str(head(self.grammar))?;
        for group in 0..self.size.div_ceil(8) {
            self.push_group(&mut out, &mut numbers, group)?;
        }
        out.push_str(tail(self.grammar))?;
        Ok(out)
    }
}

// A whole work on plain words, by the calling thread.
ghost use Rattle.std.specs.Prelude.{◌≡◌, ◌<◌, IfOk};
ghost use Rattle.ftl_cells.specs.shared.Work.{IsLawfulWork, item_total, step_total};
ghost use Rattle.ftl_cells.specs.shared.State.{AreFirst, AreLast};
ghost use Rattle.ftl_steal.specs.Alone.{IsFilledTo};

use ftl_base::{CodeStack, Val, val_of, word_of};
use ftl_cells::{Filler, Meant, Work};
use std::alloc::{AllocError, Global};

/// Computes the items in order, from the words of the Given cells and 0 for all others.
pub fn run_alone<W: Work>(alloc: Global, work: &W, words: Vec<u64>) -> Result<Vec<u64>, AllocError>
    requires first { AreFirst (W.meaning work.now) words.items }
    ensures last { IfOk result (λ v. AreLast (W.meaning work.now) v.items) }
{
    let mut reads = Vec::with_capacity(alloc, work.max_reads() as usize)?;
    let mut stack = CodeStack::new(alloc, work.max_stack())?;
    let items = work.items();
    let mut filler = PlainFiller::new(work, words);
    for item in 0..items {
        filler.begin(item);
        work.run_item(item, &mut filler, &mut reads, &mut stack);
    }
    Ok(filler.into_words())
}

/// Reads and fills plain words, one for each cell. Where it stands is for the contracts alone.
#[derive(Drop)]
pub struct PlainFiller<'a, W: Meant> {
    work: &'a W,
    words: Vec<u64>,
    item: u32,
    step: u32,
    reads: u32,
}

impl<'a, W: Meant> PlainFiller<'a, W> {
    /// Stands before the first item, over the words of the Given cells and 0 for all others.
    pub fn new(work: &'a W, words: Vec<u64>) -> PlainFiller<'a, W>
        requires lawful { IsLawfulWork (W.meaning work.now) }
        requires first { AreFirst (W.meaning work.now) words.items }
        ensures work { result.work.now ≡ work.now }
        ensures filled { IsFilledTo (W.meaning work.now) result.words.items 0 0 }
    {
        PlainFiller {
            work,
            words,
            item: 0,
            step: 0,
            reads: 0,
        }
    }

    /// Goes to the next item, after the last step of the one before.
    pub fn begin(&mut self, item: u32)
        requires filled { IsFilledTo (W.meaning self.old.work.now) self.old.words.items item 0 }
        ensures work { self.new.work.now ≡ self.old.work.now }
        ensures words { self.new.words.items ≡ self.old.words.items }
        ensures item { self.new.item ≡ item }
        ensures step { self.new.step ≡ 0 }
        ensures reads { self.new.reads ≡ 0 }
    {
        self.item = item;
        self.step = 0;
        self.reads = 0;
    }

    /// The words after the last item.
    pub fn into_words(self) -> Vec<u64>
        requires filled { IsFilledTo (W.meaning self.work.now) self.words.items
            (item_total (W.meaning self.work.now)) 0 }
        ensures last { AreLast (W.meaning self.entry.work.now) result.items }
    {
        self.words
    }
}

impl<'a, W: Meant> Filler for PlainFiller<'a, W> {
    ghost use Rattle.ftl_cells.specs.shared.State.{live};
    ghost use Rattle.ftl_cells.specs.declared.shared.place.HandPlace.TheVariants.{Working};
    ghost use Rattle.ftl_steal.specs.Alone.{IsFilledTo};
    ghost use Rattle.std.specs.Prelude.{◌≡◌, refl};
    ghost use Rattle.std.proofs.Common.{◌∙◌};

    ghost of = { λ f. W.meaning f.work.now };

    ghost place = { λ f. live (Working f.item f.step f.reads) };

    ghost fit = { λ f. IsFilledTo (W.meaning f.work.now) f.words.items f.item f.step };

    ghost keeps = { λ f g. g.work.now ≡ f.work.now };

    ghost keeps_self = { λ f. refl };

    ghost keeps_on = { λ f g h a b. b ∙ a };

    fn read(&mut self, cell: u32) -> Val {
        let word = self.words[cell as usize];
        self.reads += 1;
        val_of(word).unwrap()
    }

    fn fill(&mut self, cell: u32, val: Val) {
        self.words[cell as usize] = word_of(val);
        self.step += 1;
        self.reads = 0;
    }
}

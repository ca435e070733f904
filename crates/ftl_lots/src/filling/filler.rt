//! A filler on the words of some cells.
use crate::words::WordRow;
use ftl_base::{Val, val_of, word_of};
use ftl_cells::{Filler, Meant, Phase, Phases};

/// Reads and fills the cells from the first one on, whose words these are. Where it stands is for
/// the contracts alone.
#[derive(Drop)]
pub(crate) struct PhaseFiller<'a, W: Meant, S: WordRow> {
    pub(crate) work: &'a W,
    pub(crate) phases: &'a Phases,
    pub(crate) phase: Phase,
    pub(crate) first: u32,
    pub(crate) words: &'a mut S,
    pub(crate) item: u32,
    pub(crate) step: u32,
    pub(crate) reads: u32,
}

impl<'a, W: Meant, S: WordRow> Filler for PhaseFiller<'a, W, S> {
    ghost use Rattle.ftl_cells.specs.shared.State.{live};
    ghost use Rattle.ftl_cells.specs.declared.shared.place.HandPlace.TheVariants.{Working};
    ghost use Rattle.ftl_lots.specs.filling.Filled.{IsFilledIn};
    ghost use Rattle.ftl_cells.specs.work_phases.Phases.{phase_at};
    ghost use Rattle.std.specs.Prelude.{◌≡◌, length, refl};
    ghost use Rattle.std.proofs.Common.{◌∙◌};

    ghost of = { λ f. W.meaning f.work.now };

    ghost place = { λ f. live (Working f.item f.step f.reads) };

    ghost fit = { λ f. IsFilledIn (W.meaning f.work.now) f.phases.now f.phase
        (S.words f.words.now) f.first f.item f.step × (phase_at f.phases.now f.item ≡ f.phase)
        × S.fit f.words.now };

    ghost keeps = { λ f g. (g.work.now ≡ f.work.now) × (g.phases.now ≡ f.phases.now)
        × (g.phase ≡ f.phase) × (g.first ≡ f.first) × (length (S.words g.words.now)
        ≡ length (S.words f.words.now)) × (S.layout g.words.now ≡ S.layout f.words.now)
        × (g.words.ghost_name ≡ f.words.ghost_name) };

    ghost keeps_self = { λ f. (refl, refl, refl, refl, refl, refl, refl) };

    ghost keeps_on = { λ f g h a b. (
      b.0 ∙ a.0,
      b.1 ∙ a.1,
      b.2 ∙ a.2,
      b.3 ∙ a.3,
      b.4 ∙ a.4,
      b.5 ∙ a.5,
      b.6 ∙ a.6,
    ) };

    fn read(&mut self, cell: u32) -> Val {
        let word = self.words.word((cell - self.first) as usize);
        self.reads += 1;
        val_of(word).unwrap()
    }

    fn fill(&mut self, cell: u32, val: Val) {
        let place = (cell - self.first) as usize;
        self.words.set_word(place, word_of(val));
        self.step += 1;
        self.reads = 0;
    }
}

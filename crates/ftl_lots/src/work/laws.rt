//! What holds of lots as items, over all interleavings of the steps of any number of hands.
ghost use Rattle.std.specs.Prelude.{◌≡◌, ℕ, ◌<◌, List, slice_index};
ghost use Rattle.ftl_cells.specs.shared.Work.{IsLawfulWork, item_total};
ghost use Rattle.ftl_cells.specs.shared.Shape.{listed};
ghost use Rattle.ftl_cells.specs.shared.State.{HandState, end_word, state_word};
ghost use Rattle.ftl_cells.specs.shared.Kept.{IsKeptBy};
ghost use Rattle.ftl_cells.specs.shared.Interleavings.{LeadsTo, WinsClaim};
ghost use Rattle.ftl_lots.specs.table.Lots.{Wanted, lot_total};
ghost use Rattle.ftl_lots.specs.work.Loose.{loose};

/// Lots are lawful work, so each law of `ftl_cells` on its steps holds of them.
pub fn lots_are_lawful_work()
    ensures lawful { (w : Wanted) → IsLawfulWork (listed (loose w)) }
    ensures count { (w : Wanted) → item_total (listed (loose w)) ≡ lot_total w }
{}

/// After a hand won the claim of a lot, no hand wins a claim of it again, whatever steps of any
/// hands come between.
pub fn lots_are_claimed_once()
    ensures once { (w : Wanted) (first next later last : List ℕ)
        (all more many most : List HandState) (h g lot : ℕ) → IsKeptBy (listed (loose w)) first all
        → WinsClaim (listed (loose w)) first all h lot next more
        → LeadsTo (listed (loose w)) next more later many
        → WinsClaim (listed (loose w)) later many g lot last most → ⊥ }
{}

/// Where the common end's counter is 0, each lot was claimed, and its item ended.
pub fn end_means_all_lots()
    ensures lots { (w : Wanted) (words : List ℕ) (hands : List HandState) (lot : ℕ)
        → IsKeptBy (listed (loose w)) words hands → slice_index words end_word ≡ 0
        → lot < lot_total w → slice_index words (state_word (listed (loose w)) lot) ≡ 2 }
{}

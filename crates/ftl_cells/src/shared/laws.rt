//! What holds over all interleavings of the steps of any number of hands, and of works that are
//! given by functions.
ghost use Rattle.std.specs.Prelude.{◌≡◌, ◌≢◌, ℕ, ◌<◌, true, List, [], ◌∷◌, ◌++◌, length};
ghost use Rattle.std.specs.Prelude.{slice_index};
ghost use Rattle.ftl_cells.specs.shared.Work.{Meaning, IsLawfulWork, item_total, pred_total};
ghost use Rattle.ftl_cells.specs.shared.Work.{next_total};
ghost use Rattle.ftl_cells.specs.shared.Work.{next_at};
ghost use Rattle.ftl_cells.specs.shared.Shape.{WorkShape, IsLawfulWorkShape, listed};
ghost use Rattle.ftl_cells.specs.shared.State.{live, HandState, newcomer, first_name, Makes};
ghost use Rattle.ftl_cells.specs.shared.State.{IsOpening};
ghost use Rattle.ftl_cells.specs.shared.State.{Reached, end_word};
ghost use Rattle.ftl_cells.specs.shared.Kept.{IsKeptBy, HasEnded, hand_at};
ghost use Rattle.ftl_cells.specs.shared.Calls.{ClaimSteps, SendsOn};
ghost use Rattle.ftl_cells.specs.declared.shared.place.HandPlace.TheVariants.{Looked};
ghost use Rattle.ftl_cells.specs.declared.shared.answer.Claim.TheVariants.{Mine};
ghost use Rattle.ftl_cells.specs.shared.Interleavings.{LeadsTo, WinsClaim, ReadsFindValues};
ghost use Rattle.ftl_cells.specs.shared.Interleavings.{IsNextState};
ghost use Rattle.ftl_cells.specs.shared.Interleavings.{AreReleasedOnce, IsThere};
ghost use Rattle.ftl_cells.specs.shared.Interleavings.{FillsFindEmpty, ClaimsStay, AllFilled};
ghost use Rattle.ftl_cells.specs.shared.Interleavings.{HoldSolution};

/// A work that is given by functions is lawful where they are.
pub fn shapes_are_lawful()
    ensures lawful { (s : WorkShape) → IsLawfulWorkShape s → IsLawfulWork (listed s) }
{}

/// An item in a list of next items has a predecessor, so it is none of those that may be taken at
/// once.
pub fn next_items_have_predecessors()
    ensures predecessors { (m : Meaning) (item k : ℕ) → IsLawfulWork m → item < item_total m
        → k < next_total m item → pred_total m (next_at m item k) ≢ 0 }
{}

/// Between any two steps the rule is kept: the words of the cells and the states of all hands are
/// always ones that steps lead to, since that is the rule of their table.
pub fn rule_is_kept()
    ensures kept { (m : Meaning) (words : List ℕ) (hands : List HandState) → IsLawfulWork m
        → Reached m words hands → IsKeptBy m words hands }
{}

/// Each step keeps the rule, and so does any number of steps.
pub fn steps_keep_the_rule()
    ensures one { (m : Meaning) (words next : List ℕ) (hands more : List HandState) → IsLawfulWork m
        → IsKeptBy m words hands → Makes m words hands next more → IsKeptBy m next more }
    ensures many { (m : Meaning) (words next : List ℕ) (hands more : List HandState)
        → IsLawfulWork m → IsKeptBy m words hands → LeadsTo m words hands next more
        → IsKeptBy m next more }
{}

/// A read never finds its cell empty, but always the solution's word.
pub fn reads_find_values()
    ensures values { (m : Meaning) (words : List ℕ) (hands : List HandState) → IsLawfulWork m
        → IsKeptBy m words hands → ReadsFindValues m words hands }
{}

/// A fill finds its cell empty.
pub fn fills_find_empty_cells()
    ensures empty { (m : Meaning) (words : List ℕ) (hands : List HandState)
        → IsKeptBy m words hands → FillsFindEmpty m words hands }
{}

/// However many steps follow, an item that was claimed is never free again.
pub fn claims_stay()
    ensures stay { (m : Meaning) (words next : List ℕ) (hands more : List HandState)
        → IsLawfulWork m
        → IsKeptBy m words hands → LeadsTo m words hands next more → ClaimsStay m words next }
{}

/// After a hand won the claim of an item, no hand wins a claim of it again, whatever steps of any
/// hands come between: at most one claim of an item is won.
pub fn claims_win_once()
    ensures once { (m : Meaning) (first next later last : List ℕ)
        (all more many most : List HandState)
        (h g i : ℕ) → IsLawfulWork m → IsKeptBy m first all → WinsClaim m first all h i next more
        → LeadsTo m next more later many → WinsClaim m later many g i last most → ⊥ }
{}

/// The step of a claim that answers `Mine` wins the claim of its item.
pub fn mine_wins_the_claim()
    ensures wins { (v w : HandState) (item : ℕ) (step : IsNextState v w)
        → v.place ≡ live (Looked item)
        → ClaimSteps v v.place Mine w
        → WinsClaim v.of step.words step.hands step.hand item step.next step.more }
{}

/// Where the common end's counter is 0, each item was claimed and filled, and the cells hold the
/// solution.
pub fn end_means_all()
    ensures items { (m : Meaning) (words : List ℕ) (hands : List HandState) → IsLawfulWork m
        → IsKeptBy m words hands → slice_index words end_word ≡ 0 → AllFilled m words }
    ensures cells { (m : Meaning) (words : List ℕ) (hands : List HandState) → IsLawfulWork m
        → IsKeptBy m words hands → slice_index words end_word ≡ 0 → HoldSolution m words }
{}

/// Where a hand is Ended, the common end's counter is 0.
pub fn ended_means_the_end()
    ensures end { (m : Meaning) (words : List ℕ) (hands : List HandState) (h : ℕ)
        → IsKeptBy m words hands → HasEnded (hand_at hands h).place
        → slice_index words end_word ≡ 0 }
{}

/// Where a step leaves its hand Ended, each item is filled then, and the cells hold the solution.
pub fn ended_hands_saw_all()
    ensures items { (v w : HandState) (step : IsNextState v w) → IsLawfulWork v.of
        → HasEnded w.place
        → AllFilled v.of step.next }
    ensures cells { (v w : HandState) (step : IsNextState v w) → IsLawfulWork v.of
        → HasEnded w.place
        → HoldSolution v.of step.next }
{}

/// After a step, the list of items that the hand released names none twice. So where a delivery is
/// the last that an item waits for, the hand had not released it before.
pub fn items_are_released_once()
    ensures once { (v w : HandState) → IsLawfulWork v.of → IsNextState v w
        → AreReleasedOnce v.of w.released }
    ensures last { (v w : HandState) (item sent next k : ℕ) → IsLawfulWork v.of → IsNextState v w
        → SendsOn v item sent next true w → k < length v.released
        → slice_index v.released k ≢ next }
{}

/// Where the first hand has made no step, none was made: no other hand is there, and the words are
/// those of the opening. `open` answers such a hand.
pub fn the_first_hand_begins()
    ensures words { (m : Meaning) (words : List ℕ) (hands : List HandState) (h : ℕ)
        → Reached m words hands → hand_at hands h ≡ newcomer m first_name → IsOpening m words }
    ensures alone { (m : Meaning) (words : List ℕ) (hands : List HandState) (h : ℕ)
        → Reached m words hands → hand_at hands h ≡ newcomer m first_name
        → hands ≡ newcomer m first_name ∷ [] }
{}

/// A hand that was not given up is the only one of its name, and each hand whose name goes on from
/// that name stems from an earlier step of it. So a hand that has made no step has made no hand.
pub fn hands_have_names()
    ensures once { (m : Meaning) (words : List ℕ) (hands : List HandState) (h g : ℕ)
        → Reached m words hands → IsThere hands h → IsThere hands g
        → (hand_at hands h).name ≡ (hand_at hands g).name → h ≡ g }
    ensures makers { (m : Meaning) (words : List ℕ) (hands : List HandState) (h g step : ℕ)
        (rest : List ℕ) → Reached m words hands → IsThere hands h → IsThere hands g
        → (hand_at hands g).name ≡ (hand_at hands h).name ++ step ∷ rest
        → step < (hand_at hands h).count }
{}

// What the definitions give on small numbers and on the diamond.
ghost use Rattle.std.specs.Prelude.{◌≡◌, ℕ, ◌<◌, [], ◌∷◌, Some};
ghost use Rattle.ftl_cells.specs.shared.Count.{Counts};
ghost use Rattle.ftl_cells.specs.shared.Work.{Meaning};
ghost use Rattle.ftl_cells.specs.shared.State.{Steps, live, newcomer, first_name, after};
ghost use Rattle.ftl_cells.specs.shared.State.{after_delivery};
ghost use Rattle.ftl_cells.specs.shared.State.{load_counter, claim, store_cell, opening_words};
ghost use Rattle.ftl_cells.specs.shared.Kept.{Stage, Owes};
ghost use Rattle.ftl_cells.specs.shared.Diamond.{diamond};
ghost use Rattle.ftl_replay.specs.example_works.Words.{word};
ghost use Rattle.ftl_cells.specs.declared.shared.place.HandPlace.TheVariants.{Looked, Working};
ghost use Rattle.ftl_cells.specs.declared.shared.place.HandPlace.TheVariants.{Filled};

/// Of the numbers below 5, two are below 2.
pub fn two_of_five()
    ensures two { Counts (λ x. x < 2) 5 2 }
{}

/// An item waits for one number of predecessors.
pub fn one_number_of_predecessors()
    ensures one { (m : Meaning) (s : Stage) (i n l : ℕ) → Counts (Owes m s i) i n
        → Counts (Owes m s i) i l → n ≡ l }
{}

/// The common end, five cells, four states and four counters.
pub fn opening_of_the_diamond()
    ensures words { opening_words diamond (word 7 ∷ 0 ∷ 0 ∷ 0 ∷ 0 ∷ [])
        ≡ 4 ∷ word 7 ∷ 0 ∷ 0 ∷ 0 ∷ 0 ∷ 0 ∷ 0 ∷ 0 ∷ 0 ∷ 0 ∷ 1 ∷ 1 ∷ 2 ∷ [] }
{}

/// A look at item 0 loads word 10, and leaves the words.
pub fn look_at_the_first_item()
    ensures step { Steps diamond (4 ∷ word 7 ∷ 0 ∷ 0 ∷ 0 ∷ 0 ∷ 0 ∷ 0 ∷ 0 ∷ 0 ∷ 0 ∷ 1 ∷ 1 ∷ 2 ∷ [])
        (newcomer diamond first_name)
        (4 ∷ word 7 ∷ 0 ∷ 0 ∷ 0 ∷ 0 ∷ 0 ∷ 0 ∷ 0 ∷ 0 ∷ 0 ∷ 1 ∷ 1 ∷ 2 ∷ [])
        (after (newcomer diamond first_name) (live (Looked 0)) load_counter 10 (Some 0)) }
{}

/// A claim of item 0 puts 1 in word 6.
pub fn claim_of_the_first_item()
    ensures step { Steps diamond (4 ∷ word 7 ∷ 0 ∷ 0 ∷ 0 ∷ 0 ∷ 0 ∷ 0 ∷ 0 ∷ 0 ∷ 0 ∷ 1 ∷ 1 ∷ 2 ∷ [])
        (record (newcomer diamond first_name) { place = live (Looked 0) })
        (4 ∷ word 7 ∷ 0 ∷ 0 ∷ 0 ∷ 0 ∷ 1 ∷ 0 ∷ 0 ∷ 0 ∷ 0 ∷ 1 ∷ 1 ∷ 2 ∷ [])
        (after (newcomer diamond first_name) (live (Working 0 0 0)) claim 6 (Some 0)) }
{}

/// A fill of cell 1 puts the word of 8 in word 2.
pub fn fill_of_the_first_item()
    ensures step { Steps diamond (4 ∷ word 7 ∷ 0 ∷ 0 ∷ 0 ∷ 0 ∷ 1 ∷ 0 ∷ 0 ∷ 0 ∷ 0 ∷ 1 ∷ 1 ∷ 2 ∷ [])
        (record (newcomer diamond first_name) { place = live (Working 0 0 1) })
        (4 ∷ word 7 ∷ word 8 ∷ 0 ∷ 0 ∷ 0 ∷ 1 ∷ 0 ∷ 0 ∷ 0 ∷ 0 ∷ 1 ∷ 1 ∷ 2 ∷ [])
        (after (newcomer diamond first_name) (live (Working 0 1 0)) store_cell 2 (Some 0)) }
{}

/// The first delivery of item 0 takes one from word 11 and releases item 1.
pub fn delivery_of_the_first_item()
    ensures step { Steps diamond
        (4 ∷ word 7 ∷ word 8 ∷ 0 ∷ 0 ∷ 0 ∷ 2 ∷ 0 ∷ 0 ∷ 0 ∷ 0 ∷ 1 ∷ 1 ∷ 2 ∷ [])
        (record (newcomer diamond first_name) { place = live (Filled 0) })
        (4 ∷ word 7 ∷ word 8 ∷ 0 ∷ 0 ∷ 0 ∷ 2 ∷ 0 ∷ 0 ∷ 0 ∷ 0 ∷ 0 ∷ 1 ∷ 2 ∷ [])
        (after_delivery (newcomer diamond first_name) 0 0 1 11 0) }
{}

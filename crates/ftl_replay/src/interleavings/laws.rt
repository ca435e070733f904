//! What holds of events and of the states that they lead to.
ghost use Rattle.std.specs.Prelude.{◌≡◌, ◌↔◌, ◌⊎◌, ℕ, List, [], ◌∷◌};
ghost use Rattle.ftl_cells.specs.shared.Work.{Meaning, IsLawfulWork};
ghost use Rattle.ftl_cells.specs.shared.State.{HandState, newcomer, first_name, AreFirst};
ghost use Rattle.ftl_cells.specs.shared.State.{opening_words};
ghost use Rattle.ftl_cells.specs.shared.State.{Makes, Reached};
ghost use Rattle.ftl_cells.specs.shared.Kept.{IsKeptBy};
ghost use Rattle.ftl_replay.specs.interleavings.Events.{Does, IsStepAt};
ghost use Rattle.ftl_replay.specs.interleavings.Replays.{Lead, LeadTo, ArePlacesOf, IsStateOf};
ghost use Rattle.ftl_replay.specs.interleavings.Replays.{IsStep};
ghost use Rattle.ftl_replay.specs.interleavings.Replays.{LeadSomewhere, HaveNoStep, IsFirstNoStep};
ghost use Rattle.ftl_replay.specs.declared.interleavings.event.Event.{Event};
ghost use Rattle.ftl_replay.specs.declared.interleavings.place.ReplayPlace.{ReplayPlace};

/// An event that is a step is one of the steps of shared cells, and its hands are at places for it.
/// So no event is a step where `replay` answers that it is none.
pub fn events_are_steps()
    ensures makes { (m : Meaning) (event : Event) (words : List ℕ) (hands : List HandState)
        (next : List ℕ) (more : List HandState) → Does m event words hands next more
        → Makes m words hands next more }
    ensures fits { (m : Meaning) (words : List ℕ) (hands : List HandState)
        (places : List ReplayPlace) → ArePlacesOf hands places → (next : List ℕ)
        (more : List HandState) (event : Event) → Does m event words hands next more
        → IsStepAt m event places }
{}

/// From one state an event leads to one state at most.
pub fn one_state_follows()
    ensures one { (m : Meaning) (words : List ℕ) (hands : List HandState) (next last : List ℕ)
        (more most : List HandState) (event : Event) → Does m event words hands next more
        → Does m event words hands last most → (next ≡ last) × (more ≡ most) }
{}

/// On a state that keeps the rule, an event is a step exactly where its hands are at places for it.
/// So `replay` makes each event that is a step.
pub fn places_decide_steps()
    ensures exactly { (m : Meaning) (words : List ℕ) (hands : List HandState)
        (places : List ReplayPlace) → IsStateOf m words hands places → (event : Event)
        → IsStep m event words hands ↔ IsStepAt m event places }
{}

/// From one state a list of events leads to one state at most. So what `replay` answers is the only
/// state that its events lead to.
pub fn one_state_of_events()
    ensures hands { (m : Meaning) (words : List ℕ) (hands : List HandState) (events : List Event)
        (next last : List ℕ) (more most : List HandState) → Lead m words hands events next more
        → Lead m words hands events last most → (next ≡ last) × (more ≡ most) }
    ensures places { (m : Meaning) (cells : List ℕ) (events : List Event) (next last : List ℕ)
        (more most : List ReplayPlace) → LeadTo m cells events next more
        → LeadTo m cells events last most → (next ≡ last) × (more ≡ most) }
{}

/// Each list of events leads to a state, or one of them is the first that is no step.
pub fn each_list_has_an_answer()
    ensures some { (m : Meaning) → IsLawfulWork m → (cells : List ℕ) → AreFirst m cells
        → (events : List Event) → LeadSomewhere m cells events ⊎ HaveNoStep m cells events }
{}

/// Events lead nowhere where one of them is the first that is no step, and there is one such place
/// at most. So, want of memory aside, `replay` answers `NoStep` exactly where an event is no step.
pub fn one_event_is_the_first()
    ensures nowhere { (m : Meaning) (cells : List ℕ) (events : List Event) (at : ℕ)
        → IsFirstNoStep m cells events at → (words : List ℕ) (places : List ReplayPlace)
        → LeadTo m cells events words places → ⊥ }
    ensures one { (m : Meaning) (cells : List ℕ) (events : List Event) (at place : ℕ)
        → IsFirstNoStep m cells events at → IsFirstNoStep m cells events place → at ≡ place }
{}

/// The states that events lead to are states that steps reach from the opening, and keep the rule.
pub fn events_keep_the_rule()
    ensures reached { (m : Meaning) (words last : List ℕ) (hands more : List HandState)
        (events : List Event) → Reached m words hands → Lead m words hands events last more
        → Reached m last more }
    ensures kept { (m : Meaning) → IsLawfulWork m → (cells : List ℕ) → AreFirst m cells
        → (events : List Event) (words : List ℕ) (hands : List HandState)
        → Lead m (opening_words m cells) (newcomer m first_name ∷ []) events words hands
        → IsKeptBy m words hands }
{}

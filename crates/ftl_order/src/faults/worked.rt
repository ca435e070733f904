//! Laws: the faults of worked schedules, typed out by hand.

ghost use Rattle.std.specs.Prelude.{◌≡◌, [], ◌∷◌, Some, None};
ghost use Rattle.ftl_model.specs.layout.Stack.{stack};
ghost use Rattle.ftl_order.specs.orders.Schedule.{inorder, topdown};
ghost use Rattle.ftl_order.specs.worked.Chain.{chain, chain_inorder, chain_topdown};
ghost use Rattle.ftl_order.specs.worked.WorkedSchedules.{sizes_then_places, places_beside, stage};
ghost use Rattle.ftl_order.specs.worked.WorkedSchedules.{heights_topdown, width_twice, y_missing};
ghost use Rattle.ftl_order.specs.worked.WorkedSchedules.{places_first, slanted};
ghost use Rattle.ftl_order.specs.faults.FirstFault.{first_fault};
ghost use Rattle.ftl_order.specs.declared.faults.fault.VerifyFault.TheVariants as fault;

/// A law: schedules that have no fault.
pub fn accepted_schedules()
    ensures sizes_then_places { first_fault stack sizes_then_places ≡ None }
    ensures places_beside { first_fault stack places_beside ≡ None }
    ensures inorder { first_fault chain chain_inorder ≡ None }
{}

/// A law: schedules with an attribute twice or without one. Attributes 2 and 3 are `y` and `w` of
/// `Box`.
pub fn faults_of_entries()
    ensures twice { first_fault stack width_twice ≡ Some (fault.Twice 3) }
    ensures missing { first_fault stack y_missing ≡ Some (fault.Missing 2) }
    ensures empty { first_fault stack [] ≡ Some (fault.Missing 0) }
    ensures twice_first { first_fault stack (stage topdown (0 ∷ 0 ∷ []) ∷ [])
        ≡ Some (fault.Twice 0) }
{}

/// A law: schedules in which a writer stands too late. Rules 1, 4 and 6 of the stack grammar are
/// `Sheet body.x`, `Column self.h` and `Column kids.y`; the chain has `kids.a` and `kids.b`.
pub fn faults_of_pairs()
    ensures from_above { first_fault stack heights_topdown ≡ Some (fault.Unordered 4 4) }
    ensures later_stage { first_fault stack places_first ≡ Some (fault.Unordered 6 4) }
    ensures other_pass { first_fault slanted places_beside ≡ Some (fault.Unordered 6 1) }
    ensures chain_of_kids { first_fault chain chain_topdown ≡ Some (fault.Unordered 0 1) }
    ensures inorder { first_fault stack (stage inorder (4 ∷ 3 ∷ 2 ∷ 1 ∷ 0 ∷ []) ∷ []) ≡ None }
{}

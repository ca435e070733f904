//! The steps of visits of a worked page, typed by hand.
ghost use Rattle.std.specs.Prelude.{◌≡◌, [], ◌∷◌, None, Some};
ghost use Rattle.ftl_cursors.specs.declared.visits.nodes.NodeOrder.TheVariants.{Preorder, Reverse};
ghost use Rattle.ftl_cursors.specs.visits.NodeRanges.{nodes_in};
ghost use Rattle.ftl_cursors.specs.visits.VisitSteps.{step};
ghost use Rattle.ftl_nests.specs.WorkedRows.{rows, two_rows};
ghost use Rattle.ftl_schedule.specs.declared.syntax.kind.PassKind.TheVariants.{BottomUp, InOrder};
ghost use Rattle.ftl_schedule.specs.declared.syntax.kind.PassKind.TheVariants.{TopDown};
ghost use Rattle.ftl_host_cursors.specs.HostSteps.{host_steps, visit_steps};
ghost use Rattle.ftl_host_cursors.specs.WorkedPasses.{pass};

/// A law: over a sheet (node 0) of two rows (1 and 4) with two cells (2 and 3) and one (5), where a
/// pass nests others in each row. The steps over a row's cells come before the row's own in a
/// bottomup pass, and behind them in a topdown pass. Inner passes follow one another, and an
/// inorder one goes cell by cell; a sheet is no host, and where no class is, a row has its own step
/// alone.
pub fn steps_of_two_rows()
    ensures bottomup { visit_steps rows two_rows (pass BottomUp (0 ∷ 1 ∷ [])) (Some 1)
        (pass BottomUp (2 ∷ []) ∷ []) 1
        ≡ step 3 3 0 ∷ step 2 3 0 ∷ step 1 1 0 ∷ [] }
    ensures two_passes { visit_steps rows two_rows (pass BottomUp (1 ∷ [])) (Some 1)
        (pass BottomUp (2 ∷ []) ∷ pass TopDown (3 ∷ []) ∷ []) 1
        ≡ step 3 3 0 ∷ step 2 3 0 ∷ step 1 2 0 ∷ step 1 2 1 ∷ step 1 1 0 ∷ [] }
    ensures sequence { visit_steps rows two_rows (pass BottomUp (1 ∷ [])) (Some 1)
        (pass InOrder (3 ∷ 2 ∷ []) ∷ []) 1
        ≡ step 1 2 0 ∷ step 2 3 0 ∷ step 1 2 1 ∷ step 3 3 0 ∷ step 1 1 0 ∷ [] }
    ensures topdown { host_steps rows two_rows (pass TopDown (1 ∷ [])) (Some 1)
        (pass TopDown (3 ∷ []) ∷ []) (nodes_in Preorder 0 6)
        ≡ step 1 1 0 ∷ step 1 2 0 ∷ step 1 2 1 ∷ step 4 1 0 ∷ step 4 2 0 ∷ [] }
    ensures whole { host_steps rows two_rows (pass BottomUp (0 ∷ 1 ∷ [])) (Some 1)
        (pass BottomUp (2 ∷ []) ∷ []) (nodes_in Reverse 0 6)
        ≡ step 5 3 0 ∷ step 4 1 0 ∷ step 3 3 0 ∷ step 2 3 0 ∷ step 1 1 0 ∷ step 0 0 0 ∷ [] }
    ensures none { visit_steps rows two_rows (pass BottomUp (1 ∷ [])) None [] 1
        ≡ step 1 1 0 ∷ [] }
{}

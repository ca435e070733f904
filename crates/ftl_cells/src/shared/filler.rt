// What a work drives through its items.
ghost use Rattle.std.specs.Prelude.{◌≡◌};
ghost use Rattle.ftl_cells.specs.shared.Work.{Meaning, solution_at};
ghost use Rattle.ftl_cells.specs.shared.State.{Place};
ghost use Rattle.ftl_cells.specs.shared.Calls.{CanRead, CanFill, IsNextRead, IsNextTarget};
ghost use Rattle.ftl_cells.specs.shared.Filling.{place_after_read, place_after_fill};

use ftl_base::Val;

/// Makes the reads and the fills of an item, in the order of its work, which tells it the cells.
pub trait Filler {
    /// The work that it fills.
    ghost of: { Self → Meaning };

    /// Where it stands, as a hand does.
    ghost place: { Self → Place };

    /// What holds of it before and after each call.
    ghost fit: { Self → Type 0 };

    /// What no call changes.
    ghost keeps: { Self → Self → Type 0 };

    /// The solution's value at the cell of the next read.
    fn read(&mut self, cell: u32) -> Val
        requires fit { fit self.old }
        requires working { CanRead (of self.old) (place self.old) }
        requires cell { IsNextRead (of self.old) (place self.old) cell }
        ensures value { result ≡ solution_at (of self.old) cell }
        ensures fit { fit self.new }
        ensures of { of self.new ≡ of self.old }
        ensures place { place self.new ≡ place_after_read (place self.old) }
        ensures keeps { keeps self.old self.new };

    /// Fills the step's target, and goes to the next step.
    fn fill(&mut self, cell: u32, val: Val)
        requires fit { fit self.old }
        requires working { CanFill (of self.old) (place self.old) val }
        requires cell { IsNextTarget (of self.old) (place self.old) cell }
        ensures fit { fit self.new }
        ensures of { of self.new ≡ of self.old }
        ensures place { place self.new ≡ place_after_fill (place self.old) }
        ensures keeps { keeps self.old self.new };

    ghost keeps_self: { (f : Self) → keeps f f };

    ghost keeps_on: { (f g h : Self) → keeps f g → keeps g h → keeps f h };
}

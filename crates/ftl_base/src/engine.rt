ghost use Rattle.std.specs.Prelude.{◌≡◌, ℕ, length};
ghost use Rattle.ftl_model.specs.layout.Values.{Value};

use crate::truth::Truth;
use crate::val::Val;

/// What runs code on the rows of a stack by itself. It says for which room it may run, and which
/// values it may give.
pub trait Engine {
    ghost may_run: { Self → ℕ → Type 0 };

    ghost may_give: { Self → Value → Type 0 };

    /// Runs on two rows, whatever stands in them.
    fn run(self, values: &mut [Val], truths: &mut [Truth]) -> Val
        requires room { may_run self (length values.old) }
        requires even { length truths.old ≡ length values.old }
        ensures gives { may_give self result };
}

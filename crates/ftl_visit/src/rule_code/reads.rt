ghost use Rattle.std.specs.Prelude.{◌≡◌, ◌<◌, List, Option, None, get_or, length, take};
ghost use Rattle.ftl_model.specs.layout.Values.{Value};
ghost use Rattle.ftl_visit.specs.rule_code.Machine.{there_in};

use ftl_base::Val;

/// Gives what code reads, one place after the other.
pub trait Reads {
    /// What is read, in the order of the code; none where there is nothing to read.
    ghost list: { Self → List (Option Value) };

    /// What the read at this place gives; so many of those before it give something.
    fn read(&self, place: usize, there: usize) -> Option<Val>
        requires place { place < length (list self.now) }
        requires there { there ≡ there_in (take place (list self.now)) }
        ensures value { result ≡ get_or (list self.now) place None };
}

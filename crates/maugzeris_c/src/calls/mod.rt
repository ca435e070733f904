//! What C calls. Each call takes the context out of what C holds, calls it, and puts it back.

pub mod changing;
pub mod opening;
pub mod telling;

ghost use Rattle.std.specs.Prelude.{◌≡◌};
ghost use Rattle.std.specs.Result.{result_unwrap_or};
ghost use Rattle.maugzeris_c.specs.context.Outcome.{fault_status, status_of};

use crate::context::Fault;

/// The status where there is no context.
pub(crate) const NONE: u32 = 11;

/// The status of a call.
pub(crate) fn status_of(done: Result<(), Fault>) -> u32
    ensures status { result ≡ status_of done }
{
    match done {
        Ok(()) => 0,
        Err(fault) => fault_status(&fault),
    }
}

/// The status of a call, and its number in place of the caller's where it is done.
pub(crate) fn told<T: Copy>(done: Result<T, Fault>, number: &mut T) -> u32
    ensures status { result ≡ status_of done }
    ensures number { number.new ≡ result_unwrap_or done number.old }
{
    match done {
        Ok(told) => {
            *number = told;
            0
        }
        Err(fault) => fault_status(&fault),
    }
}

/// The status of a call that is not done.
fn fault_status(fault: &Fault) -> u32
    ensures status { result ≡ fault_status fault.now }
{
    match fault {
        Fault::Refused(status) => u32::from(status.0),
        Fault::Overflow => 8,
        Fault::OutOfMemory => 9,
        Fault::NotTaken => 10,
        Fault::Wrong => 11,
        Fault::NoRoom => 12,
    }
}

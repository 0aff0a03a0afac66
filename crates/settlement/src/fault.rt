ghost use Rattle.std.specs.Prelude.{◌≡◌};
ghost use Rattle.settlement.specs.declared.fault.RunFault.TheVariants.{NoMemory};

use std::alloc::{AllocError, AllocFailed};

// Why tasks cannot be done: one names a place without a meter, or memory is wanting. A place has no meter where it is past the
// list, or where a pair names a place that is not before its own.
#[derive(Clone, Copy, PartialEq, Eq, Debug)]
pub enum RunFault {
    NoSuchMeter,
    NoMemory,
}

impl From<AllocError> for RunFault {
    ghost from_gives = { λ x r. r ≡ NoMemory };

    fn from(_: AllocError) -> RunFault {
        RunFault::NoMemory
    }
}

impl<T: Drop> From<AllocFailed<T>> for RunFault {
    ghost from_gives = { λ x r. r ≡ NoMemory };

    fn from(_: AllocFailed<T>) -> RunFault {
        <RunFault as From<AllocError>>::from(AllocError)
    }
}

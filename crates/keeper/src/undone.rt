// Why a call was not done; then nothing changed.
ghost use Rattle.std.specs.Prelude.{◌≡◌};
ghost use Rattle.keeper.specs.declared.undone.Undone.TheVariants.{Refused, Memory};
ghost use Rattle.keeper.specs.Failing.{unworked};

use calls::kinds::Refusal;
use std::alloc::{AllocError, AllocFailed};
use windows::stages::Fault;

#[derive(Clone, Copy, PartialEq, Eq, Debug)]
pub enum Undone {
    Refused(Refusal),
    // the plan is beyond its limits: nothing comes out by it
    BadPlan,
    Memory,
}

impl From<Refusal> for Undone {
    ghost from_gives = { λ why r. r ≡ Refused why };

    fn from(why: Refusal) -> Undone {
        Undone::Refused(why)
    }
}

impl From<Fault> for Undone {
    ghost from_gives = { λ fault r. r ≡ unworked fault };

    fn from(fault: Fault) -> Undone {
        match fault {
            Fault::BadPlan => Undone::BadPlan,
            Fault::Memory => Undone::Memory,
        }
    }
}

impl From<AllocError> for Undone {
    ghost from_gives = { λ _ r. r ≡ Memory };

    fn from(_e: AllocError) -> Undone {
        Undone::Memory
    }
}

impl<T: Drop> From<AllocFailed<T>> for Undone {
    ghost from_gives = { λ _ r. r ≡ Memory };

    fn from(_e: AllocFailed<T>) -> Undone {
        Undone::Memory
    }
}

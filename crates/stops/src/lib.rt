// Why a program ends with status 1, and what it says of that on standard error. Assumes nothing.
#![tactic(auto)]

ghost use Rattle.std.specs.Prelude.{◌≡◌, Some, None, MatchOption};
ghost use Rattle.stops.specs.declared.Stop.TheVariants.{Io, Memory};
ghost use Rattle.stops.specs.Unsaid.{unsaid};

use std::alloc::{AllocError, AllocFailed};
use std::io;

#[derive(Drop)]
pub enum Stop {
    // what was wrong was said already, with its place
    Said,
    Memory,
    Io(io::Error),
}

impl From<io::Error> for Stop {
    ghost from_gives = { λ e r. r ≡ Io e };

    fn from(e: io::Error) -> Stop {
        Stop::Io(e)
    }
}

impl From<AllocError> for Stop {
    ghost from_gives = { λ _ r. r ≡ Memory };

    fn from(_e: AllocError) -> Stop {
        Stop::Memory
    }
}

impl<T: Drop> From<AllocFailed<T>> for Stop {
    ghost from_gives = { λ _ r. r ≡ Memory };

    fn from(_e: AllocFailed<T>) -> Stop {
        Stop::Memory
    }
}

impl Stop {
    // What is left to say of it.
    pub fn unsaid(&self) -> Option<&'static str>
        ensures { MatchOption result (unsaid self.now ≡ None) (λ s. unsaid self.now ≡ Some s.now) }
    {
        match self {
            Stop::Said => None,
            Stop::Memory => Some("no memory"),
            Stop::Io(_) => Some("reading or writing failed"),
        }
    }
}

// What stops a reading: a text that is refused, or memory that ran out.
ghost use Rattle.std.specs.Prelude.{◌≡◌};
ghost use Rattle.tokens.specs.declared.faults.Fault.TheVariants.{Memory, Refused};

use grammar::refusals::{Refusal, Why};
use std::alloc::{AllocError, AllocFailed};

// Why a text is refused, and what is left of it from the place on where that was found.
#[derive(Clone, Copy, PartialEq, Eq, Debug)]
pub struct Unexpected<'a>(pub Why, pub &'a [u8]);

// A text that is refused, or memory that ran out. Who reads a whole text hears of the place as an offset; the readers of
// parts only know what is left of the text there.
#[derive(Clone, Copy, PartialEq, Eq, Debug)]
pub enum Fault<R = Refusal> {
    Memory,
    Refused(R),
}

pub type Stop<'a> = Fault<Unexpected<'a>>;

impl<R> From<AllocError> for Fault<R> {
    ghost from_gives = { λ _ r. r ≡ Memory };

    fn from(_e: AllocError) -> Fault<R> {
        Fault::Memory
    }
}

impl<R, T: Drop> From<AllocFailed<T>> for Fault<R> {
    ghost from_gives = { λ _ r. r ≡ Memory };

    fn from(_e: AllocFailed<T>) -> Fault<R> {
        Fault::Memory
    }
}

impl<'a> From<Unexpected<'a>> for Fault<Unexpected<'a>> {
    ghost from_gives = { λ u r. r ≡ Refused u };

    fn from(unexpected: Unexpected<'a>) -> Fault<Unexpected<'a>> {
        Fault::Refused(unexpected)
    }
}

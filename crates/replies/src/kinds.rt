// What is answered to a call.
ghost use Rattle.std.specs.Prelude.{◌≡◌, ◌≢◌, MatchResult};
ghost use Rattle.replies.specs.declared.kinds.Kind.{Kind as K};
ghost use Rattle.replies.specs.Kinds.{byte_of, least_of};

use crate::events::Events;
use calls::kinds::{Refusal, Unknown};

#[derive(Clone, Copy)]
pub enum Reply<'a> {
    // The call was refused, and nothing changed.
    Refused { refusal: Refusal },
    Yes,
    // What came out, in order.
    Out { events: Events<'a> },
    // Nothing was put in: there is no room.
    Full,
}

// The kinds that answers have as bytes, by the numbers that stand there.
#[derive(Clone, Copy, PartialEq, Eq, Debug)]
pub enum Kind {
    Refused = 0,
    Yes = 1,
    Out = 2,
    Full = 3,
}

impl Kind {
    // The fewest bytes that an answer of this kind has.
    pub fn least(self) -> usize
        ensures { result ≡ least_of self }
    {
        match self {
            Kind::Refused => 2,
            Kind::Yes | Kind::Full => 1,
            Kind::Out => 3,
        }
    }
}

impl From<Kind> for u8 {
    ghost from_gives = { λ kind byte. byte ≡ byte_of kind };

    fn from(kind: Kind) -> u8 {
        kind as u8
    }
}

impl TryFrom<u8> for Kind {
    type Error = Unknown;

    ghost try_from_gives = { λ byte r. MatchResult r (λ kind. byte_of kind ≡ byte) (λ unknown. (unknown.0 ≡ byte) × ((kind : K) → byte_of kind ≢ byte)) };

    fn try_from(byte: u8) -> Result<Kind, Unknown> {
        match byte {
            0 => Ok(Kind::Refused),
            1 => Ok(Kind::Yes),
            2 => Ok(Kind::Out),
            3 => Ok(Kind::Full),
            _ => Err(Unknown(byte)),
        }
    }
}

// What customers call, and why a call is refused.
ghost use Rattle.std.specs.Prelude.{◌≡◌, ◌≢◌, MatchResult};
ghost use Rattle.calls.specs.declared.kinds.Kind.{Kind as K};
ghost use Rattle.calls.specs.declared.kinds.Refusal.{Refusal as Why};
ghost use Rattle.calls.specs.declared.kinds.Refusal.TheVariants.{Invalid};
ghost use Rattle.calls.specs.Form.{kind_of, size_of, byte_of, number_of};

use plans::entries::Entry;
use plans::numbers::{LogNumber, Place};

#[derive(Clone, Copy, PartialEq, Eq, Debug)]
pub enum Call {
    // An event, or only that it is so late, put into a log.
    Put { log: LogNumber, entry: Entry },
    // What came out, from a place on, so many at most.
    Out { from: Place, most: u16 },
    // What came out before a place is not needed any more.
    Drop { before: Place },
}

// The kinds that calls have as bytes, by the numbers that stand there.
#[derive(Clone, Copy, PartialEq, Eq, Debug)]
pub enum Kind {
    Put = 1,
    Still = 2,
    Out = 3,
    Drop = 4,
}

// Why a call is refused, by the numbers that stand for it as bytes.
#[derive(Clone, Copy, PartialEq, Eq, Debug)]
pub enum Refusal {
    // A time of 2^62 or above, more than 1,024 asked for, or bytes that are no call.
    Invalid = 1,
    // No such log.
    NoLog = 2,
    // What is asked for was dropped.
    Dropped = 3,
    // What is to be dropped has not come out yet.
    NotOut = 4,
    // Eight calls wait at this worker.
    Busy = 11,
    // The call is not built yet.
    NotBuilt = 12,
}

// A byte that nothing goes by.
#[derive(Clone, Copy, PartialEq, Eq, Debug)]
pub struct Unknown(pub u8);

impl Call {
    pub fn kind(self) -> Kind
        ensures { result ≡ kind_of self }
    {
        match self {
            Call::Put {
                entry: Entry::Happened(_),
                ..
            } => Kind::Put,
            Call::Put {
                entry: Entry::Still(_),
                ..
            } => Kind::Still,
            Call::Out { .. } => Kind::Out,
            Call::Drop { .. } => Kind::Drop,
        }
    }
}

impl Kind {
    // How many bytes a call of this kind has.
    pub fn size(self) -> usize
        ensures { result ≡ size_of self }
    {
        match self {
            Kind::Put => 26,
            Kind::Still => 10,
            Kind::Out => 11,
            Kind::Drop => 9,
        }
    }
}

impl From<Kind> for u8 {
    ghost from_gives = { λ kind byte. byte ≡ byte_of kind };

    fn from(kind: Kind) -> u8 {
        kind as u8
    }
}

impl TryFrom<u8> for Kind {
    type Error = Refusal;

    ghost try_from_gives = { λ byte r. MatchResult r (λ kind. byte_of kind ≡ byte) (λ why. (why ≡ Invalid) × ((kind : K) → byte_of kind ≢ byte)) };

    fn try_from(byte: u8) -> Result<Kind, Refusal> {
        match byte {
            1 => Ok(Kind::Put),
            2 => Ok(Kind::Still),
            3 => Ok(Kind::Out),
            4 => Ok(Kind::Drop),
            _ => Err(Refusal::Invalid),
        }
    }
}

impl From<Refusal> for u8 {
    ghost from_gives = { λ why n. n ≡ number_of why };

    fn from(why: Refusal) -> u8 {
        why as u8
    }
}

impl TryFrom<u8> for Refusal {
    type Error = Unknown;

    ghost try_from_gives = { λ n r. MatchResult r (λ why. number_of why ≡ n) (λ unknown. (unknown.0 ≡ n) × ((why : Why) → number_of why ≢ n)) };

    fn try_from(number: u8) -> Result<Refusal, Unknown> {
        match number {
            1 => Ok(Refusal::Invalid),
            2 => Ok(Refusal::NoLog),
            3 => Ok(Refusal::Dropped),
            4 => Ok(Refusal::NotOut),
            11 => Ok(Refusal::Busy),
            12 => Ok(Refusal::NotBuilt),
            _ => Err(Unknown(number)),
        }
    }
}

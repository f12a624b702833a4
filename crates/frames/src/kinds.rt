// What lines carry, and what is found at the front of some bytes.
use plans::numbers::CallNumber;

#[derive(Clone, Copy, PartialEq, Eq, Debug)]
pub enum Traffic {
    Calls,
    Replies,
}

// Why a line is refused. What follows it cannot be told apart any more.
#[derive(Clone, Copy, PartialEq, Eq, Debug)]
pub enum Fault {
    // More than 1 MiB is said to follow.
    TooLong,
    // Less is said to follow than the number and a call or an answer of that kind.
    TooShort,
}

// A line, and what is left behind it.
#[derive(Clone, Copy)]
pub struct Frame<'a> {
    pub number: CallNumber,
    pub body: &'a [u8],
    pub rest: &'a [u8],
}

// Lines: the length of the rest in four bytes, a customer's number in eight, and a call or an answer. One is read
// from the front of what has come so far, which may end anywhere.
#![tactic(auto)]

pub mod kinds;
pub mod reading;
pub mod writing;

// A line's length is this at most, with the number's 8 bytes: 1 MiB.
const LONGEST: u32 = 1_048_576;

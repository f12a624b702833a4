// Segments of the queue: by value, and as the six 64-bit words that each is in memory that is lent.
// Every definition that a contract cites is that of the crate `book`, by way of specs/Model.
#![tactic(auto)]

pub mod segment;

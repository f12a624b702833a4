// Answers as values and as bytes: one for the kind, then a refusal's number, or how many events and the events.
// The events of an answer are a part of the bytes that they were read from.
#![tactic(auto)]

pub mod coding;
pub mod events;
pub mod kinds;

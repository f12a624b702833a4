// Customers' calls as values and as bytes, and by which number one is refused before any state is looked at.
// Bytes: one for the kind, then the numbers, high byte first. Every call has one form.
#![tactic(auto)]

pub mod coding;
pub mod kinds;
pub mod refusals;

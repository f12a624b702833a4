// Spilling: rows of the buffer go into the pages of the segment that has most of them there.
// What is called here requires room of its caller, the code that lends the memory: it has proved it.
#![tactic(auto)]

pub mod lent;
pub mod pages;
pub mod step;

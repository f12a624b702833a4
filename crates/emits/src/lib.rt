// Events into the queue and out of it: events of a log become rows of the first stage, and rows whose windows have ended
// become rows of the next stage, or events that come out.
// What is called here requires room of its caller, the code that lends the memory: it has proved it. Times are below 2 to
// the 62 and stages within their limits, so that each window ends within 64 bits.
#![tactic(auto)]

pub mod emit;
pub mod take;

// The step that is due, done: the ledger after it, and the pages that it writes, in memory that is lent.
// A step is not done, and its ledger is as it was, where the page that is shown is none that the step can be done with, or where
// its numbers or segments would be beyond what is lent. Neither comes up in books that grew by steps.
#![tactic(auto)]

mod moving;
mod pages;
pub mod plates;
pub mod rules;
mod segments;
pub mod task;
mod tidy;
pub mod turn;

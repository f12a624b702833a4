// Plans and what they are about, as values: numbers that a type keeps apart, events and entries of logs,
// expressions with their evaluation, stages and plans with the test of their limits.
// Every definition that a contract cites is that of the crate `streams`, by way of specs/Model.
#![tactic(auto)]

pub mod entries;
pub mod exprs;
pub mod numbers;
pub mod stages;

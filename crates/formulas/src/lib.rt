// Reading expressions at the front of what is left of a text, as the crate `grammar` defines it: readers of expressions,
// chains, operands and brackets that call each other, with a number that falls for the depth of brackets.
#![tactic(auto)]

pub mod formula;
mod operators;
pub mod reader;

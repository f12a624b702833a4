// Contents of boxes written as words behind what a table holds: the form, and the numbers of the content, each a word. And
// words as bytes, high byte first.
// What is written to has room for it: the code that lends the memory has proved it.
#![tactic(auto)]

pub mod boxes;
pub mod bytes;
mod parts;

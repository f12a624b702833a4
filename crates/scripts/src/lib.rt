// Lines of a script for `rehearse`: calls in words, and what they are about. A line is one command; docs/REHEARSE.md has
// them all. Reading a line never fails for any bytes: it gives the command, or what is wrong with the line.
#![tactic(auto)]

pub mod commands;
mod fields;
pub mod reading;

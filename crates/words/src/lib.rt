// The tables of the book for who holds their memory as words: each call lends the words as the items that they are, rows of four words and
// segments of six, and says what the words hold afterwards.
// As in the crates of the tables, who calls has proved that there is room and that rows are sorted.
#![tactic(auto)]

pub mod adding;
pub mod items;
pub mod packing;
pub mod placing;
pub mod spilling;
#[cfg(test)]
mod tests;

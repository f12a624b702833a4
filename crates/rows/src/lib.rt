// Rows of open windows in memory that is lent: tables of rows of four 64-bit words each, sorted by end, stage and key, that a
// worker searches, adds to, merges and cuts with no memory of its own.
// Contracts cite the definitions of the crate `book`; specs/ says which rows and keys the words and values stand for.
#![tactic(auto)]

pub mod events;
pub mod flow;
pub mod lent;
pub mod row;
pub mod segments;
pub mod sorted;
pub mod table;

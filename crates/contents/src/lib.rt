// Contents of boxes as words: log boxes, the ledger, pages and out pages, read as views of the words that they stand in.
// Nothing is copied. Contracts cite the readers of the crate `book`; specs/ says which contents the views stand for.
#![tactic(auto)]

mod flat;
pub mod form;
pub mod ledger;
pub mod log;
pub mod page;

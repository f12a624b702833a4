// Plans from text, as docs/PLANS.md has them: the plan that some bytes are, or where and why they are none.
#![tactic(auto)]

pub mod places;
pub mod reader;
pub mod stages;

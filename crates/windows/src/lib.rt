// What comes out of a plan and its logs, worked out in one place by one loop over owned vectors and maps: the meaning as code.
// It is what the workers' results are compared with, so it is as plain as the definitions allow.
#![tactic(auto)]

mod cells;
pub mod logs;
pub mod stages;

// The plain values that every other crate speaks of: refusals, limits, rows, tasks, platforms and outcomes.
#![tactic(auto)]

pub mod limit;
pub mod outcome;
pub mod platform;
pub mod refusal;
pub mod task;

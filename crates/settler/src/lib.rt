// The settler: a plan of tasks, and the calls that makers make on it.
#![tactic(auto)]

pub mod plan;
pub mod theorems;

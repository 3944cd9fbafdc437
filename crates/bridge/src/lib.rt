// Runs: the four steps at every moment, and what every run keeps. Each function here only carries a theorem.
#![tactic(auto)]

pub mod end;
pub mod jump;
pub mod log;
pub mod windows;

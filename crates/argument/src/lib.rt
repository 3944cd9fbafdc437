// Why a window is right: mathematics, and no program. Each function carries one theorem on its contract.
#![tactic(auto)]

pub mod laws;
pub mod reckoning;
pub mod three_task_box;
pub mod windows;

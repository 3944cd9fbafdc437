// Runs a script by ids on a plan's rows and any arbiter.
#![tactic(auto)]

pub mod jobs;
pub mod lookup;
pub mod work;

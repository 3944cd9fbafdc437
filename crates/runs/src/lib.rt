// Runs a script on any arbiter, and writes its log.
#![tactic(auto)]

pub mod act;
pub mod drive;
pub mod finish;
pub mod grant;
pub mod moment;
pub mod progress;
pub mod ready;
pub mod release;
pub mod rows;
pub mod stage;

// When an edit of a plan is accepted, judged on the plan's cores and rows and the arguments of the call; and the table that keeps these rules.
#![tactic(auto)]

pub mod judge;
pub mod lookup;
pub mod table;

// The settler's arithmetic: offered phases, shares, demand, and the search for one task's outcome.
#![tactic(auto)]

pub mod cap;
pub mod case;
pub mod late;
pub mod offer;
pub mod own;
pub mod reckon;
pub mod search;
pub mod share;
pub mod work;

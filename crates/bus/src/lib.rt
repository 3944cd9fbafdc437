// Arbiters: who has the bus next.
#![tactic(auto)]

pub mod arbiter;
pub mod fairness;
pub mod ports;
pub mod service;

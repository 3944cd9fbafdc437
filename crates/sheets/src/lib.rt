// Sheets: a plan as bytes. Three layers read one: bytes into records, records into entries, entries into a plan.
#![tactic(auto)]

pub mod entry;
pub mod order;
pub mod placed;
pub mod plan;
pub mod reader;
pub mod theorems;

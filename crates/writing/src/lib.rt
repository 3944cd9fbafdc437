// Writing: a plan as bytes, and what was settled as lines. Text is made in memory that was reserved, so none is asked for.
#![tactic(auto)]

pub mod lines;
pub mod sheet;
pub mod text;

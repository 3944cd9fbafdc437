// The arbiters on tables of calls with what comes out.
#![tactic(auto)]

#[cfg(test)]
mod play;
#[cfg(test)]
mod tests;

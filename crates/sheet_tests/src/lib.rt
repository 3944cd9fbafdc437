// Sheets and prints, case by case: what loads, what is saved, and which fault is told of which place.
#![tactic(auto)]

#[cfg(test)]
mod samples;
#[cfg(test)]
mod tests;

//! Worked cases of fractions, sets of numbers, lists, and sources and sinks over std, and texts of
//! representations: tests alone.
#![tactic(auto)]

#[cfg(test)]
mod tests;

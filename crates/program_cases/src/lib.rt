//! Worked cases of rows, linear programs, the named programs of a problem, double description,
//! generators of cones, duality and the data of problems, at `Frac` and at `Tiny`: tests alone.
#![tactic(auto)]

#[cfg(test)]
mod tests;

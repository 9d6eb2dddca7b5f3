//! Worked cases of the logs of whole files at `Tiny`, of logs that are read to a limit, of the
//! upgrade of a log, and of lines and texts that no small run writes: tests alone.
#![tactic(auto)]

#[cfg(test)]
mod tests;

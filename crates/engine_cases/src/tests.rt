//! What no run of the program shows.
mod limits;
mod lines;
mod tiny;
mod upgrades;

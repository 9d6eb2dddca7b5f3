//! Tables of worked cases. A line is what is called, with its lists, and after the last `;` how the
//! text of the answer begins.
mod cones;
mod data;
mod duality;
mod named;
mod programs;
mod rows;
mod texts;

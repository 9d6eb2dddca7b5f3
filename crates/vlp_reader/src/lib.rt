//! The reader of vlp files.
#![tactic(auto)]

mod bounds;
mod draft;
mod fault;
pub mod laws;
mod number;
mod read;
mod sizes;
mod statement;
mod table;
mod text;

pub use fault::{FileFault, FileKind, VlpEnd};
pub use read::read_vlp;
pub use sizes::{ConeSizes, Sizes};
pub use statement::{Matrix, Statement};

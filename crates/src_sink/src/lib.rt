//! Bytes in and out, and lists that never end the program for want of memory.
//!
//! Whatever takes memory here answers `NoMemory` where there is none, and leaves what it was given
//! as it was.
#![tactic(auto)]

mod edge;
mod items;
mod lines;
mod memory;
mod outside;
mod pieces;
mod whole;

pub use edge::{StdSink, StdSource};
pub use items::{Bytes, Items, MOST_ITEMS, NoMemory};
pub use lines::{LineEnd, Lines};
pub use memory::{MemSink, MemSource};
pub use outside::{Failed, Sink, Source};
pub use pieces::first_piece;
pub use whole::{ReadEnd, WriteFault, read_all, write_all};

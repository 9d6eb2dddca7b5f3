//! The log of a run: its entries, their text, and the first fault of a text that is no log.
//!
//! A log shows why an answer is right. It is written by the engines and read by the checker, which
//! share nothing else.
#![tactic(auto)]

mod entry;
mod licence;
mod line;
mod log;
mod text;

pub use entry::{Entries, Entry};
pub use licence::{Family, Licence, Place};
pub use line::read_line;
pub use log::{one_reading, read_log};
pub use text::{print_line, print_log};
pub use word_lines::{EndKind, LogEnd, LogFault, LogKind, LogPair, fraction};

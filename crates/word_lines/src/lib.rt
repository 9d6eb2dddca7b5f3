//! Texts of lines in words: the words of numbers, the parts of a line, the entries of a text by
//! their forms, and the first fault of a text.
#![tactic(auto)]

mod fault;
mod items;
mod line;
mod number;
mod part;
mod parts;
mod text;
mod words;
mod writing;

pub use fault::{LogEnd, LogFault, LogKind, Stop};
pub use items::{Item, Printed, put_count, put_items, put_list, take_items};
pub use line::{LineEntry, print_line, read_line};
pub use number::{fraction, natural};
pub use part::{EndKind, LogPair};
pub use parts::{
    take_kind, take_natural, take_naturals, take_number, take_pairs, take_sparse, take_vector,
};
pub use text::{print_entries, read_entries, text_after};
pub use words::{Words, has_empty_word, is_word};
pub use writing::{
    put_kind, put_natural, put_naturals, put_number, put_pairs, put_sparse, put_vector,
};

//! The log of a conversion.
use frac128::Vector;
use src_sink::Items;
use word_lines::LogPair;

/// An entry of the log of a conversion: a line of its text. Rows are numbered as the conversion
/// numbers those of its text.
#[derive(Debug, Drop)]
pub enum ConvEntry {
    /// The version of the log's form.
    Conv(u32),
    /// A vector at which all rows are 0.
    Line { d: Vector },
    /// The rows with which double description starts, and its first generators, one after the
    /// other.
    Start { rows: Items<u32>, gens: Vector },
    /// A row that comes into use, with the pairs of generators that give new ones.
    Add { row: u32, pairs: Items<LogPair> },
    /// The end of the log: all rows are in use.
    End,
}

/// The entries of the log of a conversion, in their order.
pub type ConvLog = Items<ConvEntry>;

//! Laws of printing and reading. Each function does nothing when it runs: its contract is the law.
ghost use Rattle.vlp_printer.specs.Laws.{PrintingLaws};

/// The text of a problem within the limits of the grammar reads as this problem; and a number has a
/// decimal form exactly where it is the value of a word.
pub fn what_is_printed_reads_back()
    ensures { PrintingLaws }
{}

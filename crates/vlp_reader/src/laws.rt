//! Laws of the grammar of files. Each function does nothing when it runs: its contract is the law.
ghost use Rattle.vlp_reader.specs.Examples.{Examples};
ghost use Rattle.vlp_reader.specs.Laws.{GrammarLaws};

/// Bytes read as one problem, or have one first fault on one line, and never both.
pub fn a_file_reads_or_has_a_first_fault()
    ensures { GrammarLaws }
{}

/// The grammar says of these examples what it should.
pub fn examples_of_the_grammar()
    ensures { Examples }
{}

//! Laws of the words of commands. Each function does nothing when it runs: its contract is the law.
ghost use Rattle.commands.specs.Laws.{WordLaws};
ghost use Rattle.commands.specs.Examples.{Examples};

/// The decimal texts of numbers are the words of these numbers, and no other words are; and the
/// words of weights are those that write from 1 to 20 fractions, of which a word writes but one
/// list.
pub fn words_of_values()
    ensures { WordLaws }
{}

/// Words beside near misses, as worked examples.
pub fn examples_of_words()
    ensures { Examples }
{}

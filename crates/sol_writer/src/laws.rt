//! A law of reports. The function does nothing when it runs: its contract is the law.
ghost use Rattle.sol_writer.specs.OneReport.{OneAnswerToAReport};

/// A report has one answer: two answers with one report are equal.
pub fn a_report_tells_its_answer()
    ensures { OneAnswerToAReport }
{}

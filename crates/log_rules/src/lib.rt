//! The rules of a plain log, one without shared vectors and hints, what it proves, and when an
//! answer is right. Each function is a law: it does nothing, and its contract is the statement.
#![tactic(auto)]

ghost use Rattle.log_rules.specs.Examples.{WorkedLogs};
ghost use Rattle.log_rules.specs.Never.{NeverWrong};
ghost use Rattle.log_rules.specs.ReportExamples.{WorkedReports};
ghost use Rattle.log_rules.specs.Laws.{EventsGiveMeets, MeetsGiveEvents, RulesKeepDescription, RulesKeepLines, NumbersStay, SolvedIsReached, SolvedIsSolved, ProvedIsRight, RightSolutionsAgree, FacetsDescribeLowerImage, OneAnswer, SomeAnswer};

mod answer;
mod rule;
mod stop;

pub use answer::{Answer, Facet, Gen, LineGen};
pub use rule::Rule;
pub use stop::Stop;

/// A log without a failure meets all its rules.
pub fn events_give_meets()
    ensures { EventsGiveMeets }
{}

/// A log that meets its rules has no failure where all numbers are held.
pub fn meets_give_events()
    ensures { MeetsGiveEvents }
{}

/// A log that meets its rules is never found wrong, whatever numbers are held: the first event that
/// fails is a step.
pub fn never_wrong()
    ensures { NeverWrong }
{}

/// The live generators describe the cone of the rows in use.
pub fn rules_keep_description()
    ensures { RulesKeepDescription }
{}

/// The image runs along the lines.
pub fn rules_keep_lines()
    ensures { RulesKeepLines }
{}

/// A number stays with its generator.
pub fn numbers_stay()
    ensures { NumbersStay }
{}

/// What is listed of a solved log is reached.
pub fn solved_is_reached()
    ensures { SolvedIsReached }
{}

/// A solved log meets the conditions of exactness.
pub fn solved_is_solved()
    ensures { SolvedIsSolved }
{}

/// What a log proves is right.
pub fn proved_is_right()
    ensures { ProvedIsRight }
{}

/// Entries prove one answer only.
pub fn one_answer()
    ensures { OneAnswer }
{}

/// A log whose entries meet their rules proves some answer.
pub fn some_answer()
    ensures { SomeAnswer }
{}

/// Two right solutions agree in all but pre-images and dual vectors.
pub fn right_solutions_agree()
    ensures { RightSolutionsAgree }
{}

/// The facets of a right solution are the vertices of the lower image, which has one extreme
/// direction.
pub fn facets_describe_lower_image()
    ensures { FacetsDescribeLowerImage }
{}

/// Worked logs, of each kind of answer, and with faults.
pub fn worked_logs()
    ensures { WorkedLogs }
{}

/// Worked reports, of each kind of answer.
pub fn worked_reports()
    ensures { WorkedReports }
{}

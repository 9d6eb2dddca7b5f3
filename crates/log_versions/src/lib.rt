//! Logs as they are written, of version 1 or 2: the plain log that one stands for, the rules of
//! hints and shared vectors, and upgrades. Each function is a law: it does nothing, and its
//! contract is the statement.
#![tactic(auto)]

ghost use Rattle.log_versions.specs.Examples.{WorkedVersions};
ghost use Rattle.log_versions.specs.Laws.{HintsShowPairs, PairsHaveHints, PlainLogMeets, PlainLogsStay, ProvesPlainly, UpgradesSayTheSame, WrittenEventsGiveMeets, WrittenMeetsGiveEvents};
ghost use Rattle.log_versions.specs.Walk.{WalkDecides};

/// Hints show that the pairs are those that are required.
pub fn hints_show_pairs()
    ensures { HintsShowPairs }
{}

/// Each pair that is not required has a hint.
pub fn pairs_have_hints()
    ensures { PairsHaveHints }
{}

/// One walk along the opposite pairs decides the listed pairs and the hints.
pub fn walk_decides()
    ensures { WalkDecides }
{}

/// A log without a failure meets all its rules, whatever its version.
pub fn written_events_give_meets()
    ensures { WrittenEventsGiveMeets }
{}

/// A log that meets its rules has no failure where all numbers are held.
pub fn written_meets_give_events()
    ensures { WrittenMeetsGiveEvents }
{}

/// The plain log of a log that meets its rules meets its own.
pub fn plain_log_meets()
    ensures { PlainLogMeets }
{}

/// A log proves what its plain log proves: one answer, which is right.
pub fn proves_plainly()
    ensures { ProvesPlainly }
{}

/// A log of version 1 stands for itself.
pub fn plain_logs_stay()
    ensures { PlainLogsStay }
{}

/// The upgrade of a log without a failure says the same.
pub fn upgrades_say_the_same()
    ensures { UpgradesSayTheSame }
{}

/// Worked logs of version 2: upgrades, and logs with faults.
pub fn worked_versions()
    ensures { WorkedVersions }
{}

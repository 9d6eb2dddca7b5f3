//! The paths of files.
ghost use Rattle.std.specs.Prelude.{◌≡◌};
ghost use Rattle.std.specs.Option.{option_copied};
ghost use Rattle.commands.specs.Seen.{files_seen};
ghost use Rattle.commands.specs.Paths.{problem_path, log_in_path, log_out_path};

use crate::command::Files;

/// The files that a command names.
#[derive(Clone, Copy, Debug)]
pub struct Paths<'a> {
    /// The file of the problem or representation.
    pub problem: Option<&'a str>,
    /// The log, or the second problem, that is read.
    pub log_in: Option<&'a str>,
    /// The log that is written.
    pub log_out: Option<&'a str>,
}

/// The paths of a command's files.
pub(crate) fn paths_of<'a>(files: Files<'a>) -> Paths<'a>
    ensures problem { option_copied result.problem ≡ problem_path (files_seen files.entry) }
    ensures log_in { option_copied result.log_in ≡ log_in_path (files_seen files.entry) }
    ensures log_out { option_copied result.log_out ≡ log_out_path (files_seen files.entry) }
{
    let (problem, log_in, log_out) = match files {
        Files::Nothing => (None, None, None),
        Files::Problem { problem } => (Some(problem), None, None),
        Files::Second { problem, second } => (Some(problem), Some(second), None),
        Files::Log { problem, log } => (Some(problem), None, Some(log)),
    };
    Paths {
        problem,
        log_in,
        log_out,
    }
}

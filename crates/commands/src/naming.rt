//! Which files a command names.
ghost use Rattle.std.specs.Prelude.{◌≡◌, map, string_bytes};
ghost use Rattle.std.specs.Option.{option_copied};
ghost use Rattle.commands.specs.Shapes.{shape_of};
ghost use Rattle.commands.specs.Paths.{files_of, problem_path, log_in_path, log_out_path};

use crate::command::{Files, command_in};
use crate::files::{Paths, paths_of};

/// The files to open for these words: none for a sample, and where they have no shape. No memory is
/// taken.
pub fn paths<'a>(words: &'a [String]) -> Paths<'a>
    ensures problem { option_copied result.problem
        ≡ problem_path (files_of (shape_of (map string_bytes words.now))) }
    ensures log_in { option_copied result.log_in
        ≡ log_in_path (files_of (shape_of (map string_bytes words.now))) }
    ensures log_out { option_copied result.log_out
        ≡ log_out_path (files_of (shape_of (map string_bytes words.now))) }
{
    match command_in(words) {
        Some(command) => paths_of(command.files),
        None => paths_of(Files::Nothing),
    }
}

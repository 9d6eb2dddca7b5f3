//! The words of a command.
ghost use Rattle.std.specs.Prelude.{◌≡◌, ◌∷◌, [], map, string_bytes};
ghost use Rattle.std.specs.Option.{option_map};
ghost use Rattle.commands.specs.Seen.{shape_seen, task_seen};
ghost use Rattle.commands.specs.Shapes.{shape_of, number_shape, second_shape, log_shape, columns_shape, columns_log_shape, weights_shape};
ghost use Rattle.commands.specs.Tasks.{shape};
ghost use Rattle.commands.specs.Tasks.Files.{one};
ghost use Rattle.commands.specs.Tasks.Task.{associate, project};

use crate::numbers::number_of;
use crate::weights::are_weights;

/// What is to be done with what is read.
#[derive(Clone, Copy, Debug)]
pub enum Task<'a> {
    /// To check a log, and report the answer that it proves.
    Check,
    /// To write the log of version 2 that says what a log says.
    Relog,
    /// To solve a problem, and report its answer.
    Solve,
    /// The same, with a log over the facets of the image alone.
    Dual,
    /// To solve a sample file, and count what its image has.
    Sample { number: u32 },
    /// To describe the projection of the feasible set on its first columns.
    Project { columns: u32 },
    /// To write the problem off whose image this projection is read.
    Associate { columns: u32 },
    /// To describe what is feasible for both problems.
    Meet,
    /// To describe the sums of a feasible vector of each.
    Sum,
    /// To describe the closed convex hull of both feasible sets.
    Join,
    /// To describe the image of the feasible set under the objectives.
    Map,
    /// To tell for each vertex of the image the weights for which it is least.
    Weights,
    /// To tell the vertices that are least for the weights that a word writes.
    Weigh { weights: &'a str },
    /// To turn inequalities and equations into points, directions and lines.
    Vertices,
    /// To turn points, directions and lines into inequalities and equations.
    Facets,
    /// To check the log of such a conversion, and write what it gives.
    Reconv,
}

/// The files that a command names.
#[derive(Clone, Copy, Debug)]
pub enum Files<'a> {
    Nothing,
    /// The problem or representation.
    Problem { problem: &'a str },
    /// The same, and a log or a problem that is read after it.
    Second { problem: &'a str, second: &'a str },
    /// The same, and the log that is written.
    Log { problem: &'a str, log: &'a str },
}

/// A command: what is to be done, and the files that it names.
#[derive(Clone, Copy, Debug)]
pub struct Command<'a> {
    pub task: Task<'a>,
    pub files: Files<'a>,
}

/// The command of these words, which stand without the program's name, if they have a shape. No
/// memory is taken.
pub fn command_in(words: &[String]) -> Option<Command<'_>>
    ensures { option_map shape_seen result ≡ shape_of (map string_bytes words.now) }
{
    match words {
        [word, one] => command_of_one(word.as_str(), one.as_str()),
        [word, one, two] => command_of_two(word.as_str(), one.as_str(), two.as_str()),
        [word, one, two, three] => command_of_three(
            word.as_str(),
            one.as_str(),
            two.as_str(),
            three.as_str(),
        ),
        _ => None,
    }
}

/// The command of a task that one file is enough for.
fn file_command<'a>(task: Task<'a>, problem: &'a str) -> Option<Command<'a>>
    ensures { option_map shape_seen result
        ≡ Some (shape (task_seen task.entry) (one problem.now)) }
{
    let files = Files::Problem { problem };
    Some(Command { task, files })
}

/// The command of a task with a second file, which is another one.
fn second_command<'a>(task: Task<'a>, problem: &'a str, second: &'a str) -> Option<Command<'a>>
    ensures { option_map shape_seen result
        ≡ second_shape (task_seen task.entry) problem.now second.now }
{
    if problem == second {
        return None;
    }
    let files = Files::Second { problem, second };
    Some(Command { task, files })
}

/// The command of a task that writes a log, to another file.
fn log_command<'a>(task: Task<'a>, problem: &'a str, log: &'a str) -> Option<Command<'a>>
    ensures { option_map shape_seen result ≡ log_shape (task_seen task.entry) problem.now log.now }
{
    if problem == log {
        return None;
    }
    let files = Files::Log { problem, log };
    Some(Command { task, files })
}

/// `sample N`.
fn sample_command<'a>(number: &str) -> Option<Command<'a>>
    ensures { option_map shape_seen result ≡ number_shape number.now }
{
    let number = number_of(1000, number)?;
    let task = Task::Sample { number };
    let files = Files::Nothing;
    Some(Command { task, files })
}

/// `project FILE K`.
fn project_command<'a>(problem: &'a str, columns: &str) -> Option<Command<'a>>
    ensures { option_map shape_seen result ≡ columns_shape project problem.now columns.now }
{
    let columns = number_of(19, columns)?;
    file_command(Task::Project { columns }, problem)
}

/// `associate FILE K`.
fn associate_command<'a>(problem: &'a str, columns: &str) -> Option<Command<'a>>
    ensures { option_map shape_seen result ≡ columns_shape associate problem.now columns.now }
{
    let columns = number_of(19, columns)?;
    file_command(Task::Associate { columns }, problem)
}

/// `project FILE K LOG`.
fn project_log_command<'a>(problem: &'a str, columns: &str, log: &'a str) -> Option<Command<'a>>
    ensures { option_map shape_seen result
        ≡ columns_log_shape project problem.now columns.now log.now }
{
    let columns = number_of(19, columns)?;
    log_command(Task::Project { columns }, problem, log)
}

/// `weigh FILE W`.
fn weigh_command<'a>(problem: &'a str, weights: &'a str) -> Option<Command<'a>>
    ensures { option_map shape_seen result ≡ weights_shape problem.now weights.now }
{
    if are_weights(weights) {
        file_command(Task::Weigh { weights }, problem)
    } else {
        None
    }
}

/// The command of a name and one word.
fn command_of_one<'a>(word: &str, one: &'a str) -> Option<Command<'a>>
    ensures { option_map shape_seen result ≡ shape_of (word.now ∷ one.now ∷ []) }
{
    if word == "solve" {
        file_command(Task::Solve, one)
    } else if word == "dual" {
        file_command(Task::Dual, one)
    } else if word == "map" {
        file_command(Task::Map, one)
    } else if word == "weights" {
        file_command(Task::Weights, one)
    } else if word == "vertices" {
        file_command(Task::Vertices, one)
    } else if word == "facets" {
        file_command(Task::Facets, one)
    } else if word == "sample" {
        sample_command(one)
    } else {
        None
    }
}

/// The command of a name and two words.
fn command_of_two<'a>(word: &str, one: &'a str, two: &'a str) -> Option<Command<'a>>
    ensures { option_map shape_seen result ≡ shape_of (word.now ∷ one.now ∷ two.now ∷ []) }
{
    if word == "check" {
        second_command(Task::Check, one, two)
    } else if word == "relog" {
        second_command(Task::Relog, one, two)
    } else if word == "meet" {
        second_command(Task::Meet, one, two)
    } else if word == "sum" {
        second_command(Task::Sum, one, two)
    } else if word == "join" {
        second_command(Task::Join, one, two)
    } else if word == "reconv" {
        second_command(Task::Reconv, one, two)
    } else if word == "solve" {
        log_command(Task::Solve, one, two)
    } else if word == "dual" {
        log_command(Task::Dual, one, two)
    } else if word == "vertices" {
        log_command(Task::Vertices, one, two)
    } else if word == "facets" {
        log_command(Task::Facets, one, two)
    } else if word == "project" {
        project_command(one, two)
    } else if word == "associate" {
        associate_command(one, two)
    } else if word == "weigh" {
        weigh_command(one, two)
    } else {
        None
    }
}

/// The command of a name and three words.
fn command_of_three<'a>(word: &str, one: &'a str, two: &str, three: &'a str) -> Option<Command<'a>>
    ensures { option_map shape_seen result
        ≡ shape_of (word.now ∷ one.now ∷ two.now ∷ three.now ∷ []) }
{
    if word == "project" {
        project_log_command(one, two, three)
    } else {
        None
    }
}

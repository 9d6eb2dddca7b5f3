//! Runs the cases of each list in the folder `data`, prints a line for each that comes out
//! otherwise, and how many there were.
//!
//! A list is a folder with a file `cases`. A line of it is a case, unless it is empty or begins
//! with `#`: `NAME | WORDS | KEY=VALUE | KEY=VALUE ..`. The words are those of a command, or `print
//! problem`, `print log` or `print sample N`, for what no command prints: the text of the problem
//! or the log that is read, or of a sample file.
//!
//! | Key | Value |
//! |---|---|
//! | `file`, `log` | the text of the problem, and that of the log or the second problem that is read; without the key an empty one |
//! | `status` | the codes with which the run may end, as `0` or `0,3,5`; of `print` there is none |
//! | `out` | what is written to the output where the run ends with the first of these codes, with `*` for any bytes; where the key stands more than once, one of them |
//! | `log_out` | what is written to the log's output, in the same form |
//! | `most` | how many bytes each call of a source or a sink moves, as `10`, or the case once for each of `1,7,4096` |
//! | `fails` | the number of the call that fails, from 1, of each object named, as `problem 2` or `out 1,log_out 3` |
//! | `sent` | how many bytes status 8 says were written |
//! | `each` | many cases by one line, as below |
//!
//! A TEXT of these is `@PATH`, a file below `data`; or `@PATH:NUMBER LINES`, the same with other
//! lines in place of one, or without it; or it stands there itself, with ` / ` for each end of a
//! line but the last, which ends too, unless the text ends with `\`. In it `\r` and `\t` are a
//! carriage return and a tab, and `\NxB` is N times the byte B, before the end of a line or a `\`.
//!
//! | `each` | The cases |
//! |---|---|
//! | `fronts of file`, `fronts of log` | with each front of that text in its place |
//! | `nines of file`, `nines of log` | with each of its bytes changed to `9`, one at a time |
//! | `calls` | with each of the calls 1 to 20 of each object failing, where what is written is a front of what is written without a fault |
//!
//! An object that the words do not name fails at its first call. Of every case the program tries
//! that fault lines begin with their status, that nothing is written with the statuses 2, 6 and 7,
//! and to the log's output only after a report, and that `sent` is the length of what was written.
//! Where `solve FILE LOG` or `dual FILE LOG` ends with 0, `check` accepts the log with the same
//! report, and without LOG the report is the same; the log of `dual` has as many cuts as facets,
//! and what it tells before the witnesses is what `solve` tells. Where `project FILE K LOG` ends
//! with 0, `check` accepts the log with the text of `associate FILE K`, and without LOG the text is
//! the same. Where `relog FILE LOG` does, `check` has the same report of what was written as of
//! what was read, and `relog` of that writes it once more. What `print problem` writes is printed
//! alike when it is read again.
#![tactic(auto)]

mod case;
mod judging;
mod running;
mod texts;

use case::{Case, Each, Object, case_of};
use judging::find_difference;
use running::{Seen, Trial};
use src_sink::NoMemory;
use std::alloc::{AllocError, AllocFailed};
use std::rt::Files;
use std::{fs, io};

/// Why the cases are not run to their end.
#[derive(Debug, Drop)]
pub(crate) enum Fault {
    /// A file could not be read, or a line not printed.
    Outside(io::Error),
    /// This part of a line means nothing.
    Part(String),
    /// Memory was wanting.
    NoMemory,
}

impl From<io::Error> for Fault {
    fn from(e: io::Error) -> Fault {
        Fault::Outside(e)
    }
}

impl From<NoMemory> for Fault {
    fn from(_e: NoMemory) -> Fault {
        Fault::NoMemory
    }
}

impl From<AllocError> for Fault {
    fn from(_e: AllocError) -> Fault {
        Fault::NoMemory
    }
}

impl<T: Drop> From<AllocFailed<T>> for Fault {
    fn from(_e: AllocFailed<T>) -> Fault {
        Fault::NoMemory
    }
}

/// How many cases there were.
#[derive(Drop)]
struct Tally {
    cases: u64,
}

impl Tally {
    /// Runs one more case, of this number in its line, and prints what of it comes out otherwise.
    fn run(
        &mut self,
        rt: &(impl Print + AllocGlobal),
        case: &Case,
        trial: Trial<'_>,
        number: usize,
        whole: Option<&Seen>,
    ) -> Result<(), Fault> {
        self.cases = self.cases.saturating_add(1);
        if let Some(what) = find_difference(rt.alloc(), case, trial, whole)? {
            let name = &case.name;
            println!(rt; "{name}, {number}: {what}")?;
        }
        Ok(())
    }
}

/// Runs the cases of a line in which the outside moves so many bytes a call.
fn run_each(
    rt: &(impl Print + AllocGlobal),
    case: &Case,
    trial: Trial<'_>,
    tally: &mut Tally,
) -> Result<(), Fault> {
    match case.each {
        Each::Once => tally.run(rt, case, trial, 0, None),
        Each::Fronts(which) => {
            let text = trial.text(which);
            for end in 0..text.len() {
                tally.run(rt, case, trial.with(which, &text[..end]), end, None)?;
            }
            Ok(())
        }
        Each::Nines(which) => {
            let text = trial.text(which);
            for at in 0..text.len() {
                let mut bytes = text.to_vec(rt.alloc())?;
                if let Some(byte) = bytes.get_mut(at) {
                    *byte = b'9';
                }
                tally.run(rt, case, trial.with(which, bytes.as_slice()), at, None)?;
            }
            Ok(())
        }
        Each::Calls => run_calls(rt, case, trial, tally),
    }
}

/// Runs a case with each of the first 20 calls of each object that its words name failing.
fn run_calls(
    rt: &(impl Print + AllocGlobal),
    case: &Case,
    trial: Trial<'_>,
    tally: &mut Tally,
) -> Result<(), Fault> {
    let whole = trial.run_words(rt.alloc())?;
    for object in [Object::Problem, Object::Log, Object::Out, Object::LogOut] {
        if trial.names(object) {
            for call in 1..21u8 {
                let fails = [(object, u64::from(call))];
                let failing = Trial {
                    fails: &fails,
                    ..trial
                };
                tally.run(rt, case, failing, usize::from(call), Some(&whole))?;
            }
        }
    }
    Ok(())
}

/// Runs the cases of a list.
fn run_list<R: Files + Print + AllocGlobal>(
    rt: &R,
    list: &str,
    tally: &mut Tally,
) -> Result<(), Fault> {
    let path = format!(in rt.alloc(); "{list}/cases")?;
    let lines = fs::read_to_string(rt, path.as_str())?;
    for line in lines.lines() {
        if !line.is_empty() && !line.starts_with('#') {
            let case = case_of(rt, list, line)?;
            for most in case.mosts.as_slice() {
                let trial = Trial {
                    words: case.words.as_slice(),
                    file: case.file.as_bytes(),
                    log: case.log.as_bytes(),
                    most: *most,
                    fails: case.fails.as_slice(),
                };
                run_each(rt, &case, trial, tally)?;
            }
        }
    }
    Ok(())
}

/// The names of the lists, in order.
fn lists<R: Files + AllocGlobal + Clone + Drop>(rt: &R) -> Result<Vec<String>, Fault> {
    let mut names = Vec::new(rt.alloc());
    for entry in fs::read_dir(rt, ".")? {
        let entry = entry?;
        if entry.file_type()?.is_dir() {
            names.push(String::from_str(rt.alloc(), entry.file_name())?)?;
        }
    }
    names.sort()?;
    Ok(names)
}

fn main(rt: HostRuntime) -> Result<(), Fault> {
    let mut tally = Tally { cases: 0 };
    for list in lists(&rt)?.as_slice() {
        run_list(&rt, list.as_str(), &mut tally)?;
    }
    let cases = tally.cases;
    println!(rt; "{cases} cases")?;
    Ok(())
}

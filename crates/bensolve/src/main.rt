//! The program: opens the files that the words name, runs the command, and ends with its code.
#![tactic(auto)]

use bensolve_main::run;
use commands::{Status, paths};
use src_sink::{StdSink, StdSource};
use std::fs::{self, File};
use std::io;
use std::process::ExitCode;
use std::rt::{Env, Files};

/// The words of the command, without the program's name.
fn words(rt: &(impl Env + AllocGlobal)) -> io::Result<Vec<String>> {
    let mut words = Vec::new(rt.alloc());
    for word in std::env::args(rt)?.skip(1) {
        words.push(word)?;
    }
    Ok(words)
}

/// Why there are no words: memory was wanting, or one of them is no text and so has no shape.
fn status_of(error: &io::Error) -> Status {
    if error.kind() == io::ErrorKind::OutOfMemory {
        Status::NoMemory
    } else {
        Status::Words
    }
}

/// The file of a path as a source. One that cannot be opened, and none, is a missing one.
fn source<R: Files>(rt: &R, path: Option<&str>) -> StdSource<R::File> {
    match path.and_then(|path| fs::open(rt, path).ok()) {
        Some(file) => StdSource::over(file),
        None => StdSource::missing(),
    }
}

/// The file of a path as a sink, made anew. One that cannot be made, and none, is a missing one.
fn sink<R: Files>(rt: &R, path: Option<&str>) -> StdSink<R::File> {
    match path.and_then(|path| fs::create(rt, path).ok()) {
        Some(file) => StdSink::over(file),
        None => StdSink::missing(),
    }
}

fn main(rt: HostRuntime) -> ExitCode {
    let words = match words(&rt) {
        Ok(words) => words,
        Err(error) => return ExitCode::from(status_of(&error).code()),
    };
    let paths = paths(words.as_slice());
    let mut problem = source(&rt, paths.problem);
    let mut log_in = source(&rt, paths.log_in);
    let mut log_out = sink(&rt, paths.log_out);
    let mut out = StdSink::over(rt.stdout());
    let status = run(
        rt.alloc(),
        words.as_slice(),
        &mut problem,
        &mut log_in,
        &mut out,
        &mut log_out,
    );
    ExitCode::from(status.code())
}

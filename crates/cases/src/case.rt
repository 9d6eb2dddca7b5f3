//! The lines of a list.
use crate::Fault;
use crate::texts::{number, part_fault, text_of};
use std::alloc::Global;
use std::rt::Files;

/// One of the two texts that a run is given.
#[derive(Clone, Copy, Debug)]
pub(crate) enum Text {
    File,
    Log,
}

/// One of the four objects that a run is given.
#[derive(Clone, Copy, Debug, PartialEq, Eq)]
pub(crate) enum Object {
    Problem,
    Log,
    Out,
    LogOut,
}

/// How many cases a line stands for.
#[derive(Clone, Copy, Debug)]
pub(crate) enum Each {
    Once,
    /// One with each front of a text.
    Fronts(Text),
    /// One with each byte of a text changed to `9`.
    Nines(Text),
    /// One with each of the first calls of each object failing.
    Calls,
}

/// What a line of a list says: a run, and what is wanted of it.
#[derive(Debug, Drop)]
pub(crate) struct Case {
    /// The list, and the name in it.
    pub(crate) name: String,
    pub(crate) words: Vec<String>,
    pub(crate) file: String,
    pub(crate) log: String,
    pub(crate) statuses: Vec<u64>,
    /// The forms of what is written to the output, of which one must fit; none where all do.
    pub(crate) outs: Vec<String>,
    /// The same for the log's output.
    pub(crate) log_outs: Vec<String>,
    pub(crate) mosts: Vec<u64>,
    pub(crate) fails: Vec<(Object, u64)>,
    pub(crate) sents: Vec<u64>,
    pub(crate) each: Each,
}

/// The case of a line of a list.
pub(crate) fn case_of<R: Files + AllocGlobal>(
    rt: &R,
    list: &str,
    line: &str,
) -> Result<Case, Fault> {
    let alloc = rt.alloc();
    let mut parts = line.split(" | ");
    let name = parts.next().unwrap_or("");
    let mut case = Case {
        name: format!(in alloc; "{list}/{name}")?,
        words: words_of(alloc, parts.next().unwrap_or(""))?,
        file: String::new(alloc),
        log: String::new(alloc),
        statuses: Vec::new(alloc),
        outs: Vec::new(alloc),
        log_outs: Vec::new(alloc),
        mosts: vec![in alloc; 4096]?,
        fails: Vec::new(alloc),
        sents: Vec::new(alloc),
        each: Each::Once,
    };
    for part in parts {
        match part.split_once('=') {
            Some((key, value)) => put(rt, &mut case, key, value)?,
            None => return Err(part_fault(alloc, part)),
        }
    }
    Ok(case)
}

/// Takes one key of a line with its value.
fn put<R: Files + AllocGlobal>(
    rt: &R,
    case: &mut Case,
    key: &str,
    value: &str,
) -> Result<(), Fault> {
    let alloc = rt.alloc();
    match key {
        "file" => case.file = text_of(rt, value)?,
        "log" => case.log = text_of(rt, value)?,
        "status" => case.statuses = numbers(alloc, value)?,
        "out" => case.outs.push(text_of(rt, value)?)?,
        "log_out" => case.log_outs.push(text_of(rt, value)?)?,
        "most" => case.mosts = numbers(alloc, value)?,
        "fails" => case.fails = fails_of(alloc, value)?,
        "sent" => case.sents = numbers(alloc, value)?,
        "each" => case.each = each_of(alloc, value)?,
        _ => return Err(part_fault(alloc, key)),
    }
    Ok(())
}

/// The words of a text between white space.
pub(crate) fn words_of(alloc: Global, text: &str) -> Result<Vec<String>, Fault> {
    let mut words = Vec::new(alloc);
    for word in text.split_whitespace() {
        words.push(String::from_str(alloc, word)?)?;
    }
    Ok(words)
}

fn numbers(alloc: Global, value: &str) -> Result<Vec<u64>, Fault> {
    let mut list = Vec::new(alloc);
    for word in value.split(',') {
        list.push(number(alloc, word)?)?;
    }
    Ok(list)
}

/// The objects that are named, each with the number of its call.
fn fails_of(alloc: Global, value: &str) -> Result<Vec<(Object, u64)>, Fault> {
    let mut list = Vec::new(alloc);
    for part in value.split(',') {
        let (object, call) = match part.split_once(' ') {
            Some(("problem", call)) => (Object::Problem, call),
            Some(("log", call)) => (Object::Log, call),
            Some(("out", call)) => (Object::Out, call),
            Some(("log_out", call)) => (Object::LogOut, call),
            _ => return Err(part_fault(alloc, part)),
        };
        list.push((object, number(alloc, call)?))?;
    }
    Ok(list)
}

fn each_of(alloc: Global, value: &str) -> Result<Each, Fault> {
    match value {
        "fronts of file" => Ok(Each::Fronts(Text::File)),
        "fronts of log" => Ok(Each::Fronts(Text::Log)),
        "nines of file" => Ok(Each::Nines(Text::File)),
        "nines of log" => Ok(Each::Nines(Text::Log)),
        "calls" => Ok(Each::Calls),
        _ => Err(part_fault(alloc, value)),
    }
}

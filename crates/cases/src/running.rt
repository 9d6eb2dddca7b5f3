//! Runs over sources and sinks in memory, and what no command prints.
ghost use Rattle.std.specs.Prelude.{◌<◌};

use crate::case::{Object, Text};
use bensolve_main::run;
use commands::{Status, paths};
use deriv_log::{print_log, read_log};
use replies::sample_text;
use src_sink::{Bytes, Items, MOST_ITEMS, MemSink, MemSource, NoMemory};
use std::alloc::Global;
use vlp_printer::print_vlp;
use vlp_reader::read_vlp;

/// How many bytes a sink has room for.
const ROOM: usize = 1_048_576;

/// One run: its words and texts, how many bytes each call moves, and which calls fail.
#[derive(Clone, Copy, Debug)]
pub(crate) struct Trial<'a> {
    pub(crate) words: &'a [String],
    pub(crate) file: &'a [u8],
    pub(crate) log: &'a [u8],
    pub(crate) most: u64,
    pub(crate) fails: &'a [(Object, u64)],
}

/// What a run answered and wrote.
#[derive(Debug, Drop)]
pub(crate) struct Seen {
    pub(crate) status: Status,
    pub(crate) out: MemSink,
    pub(crate) log_out: MemSink,
}

impl<'a> Trial<'a> {
    /// The text that is named.
    pub(crate) fn text(&self, which: Text) -> &'a [u8] {
        match which {
            Text::File => self.file,
            Text::Log => self.log,
        }
    }

    /// The same run with another text in the place of the one that is named.
    pub(crate) fn with(self, which: Text, text: &'a [u8]) -> Trial<'a> {
        match which {
            Text::File => Trial { file: text, ..self },
            Text::Log => Trial { log: text, ..self },
        }
    }

    /// Whether the words name an object; the output counts as named.
    pub(crate) fn names(&self, object: Object) -> bool {
        let paths = paths(self.words);
        match object {
            Object::Problem => paths.problem.is_some(),
            Object::Log => paths.log_in.is_some(),
            Object::Out => true,
            Object::LogOut => paths.log_out.is_some(),
        }
    }

    /// The calls of an object that fail, among them the first of one that the words do not name.
    fn calls(&self, alloc: Global, object: Object) -> Result<Items<u64>, NoMemory> {
        let mut calls = Items::new(alloc);
        for (failing, call) in self.fails {
            if *failing == object {
                calls.push(*call)?;
            }
        }
        if !self.names(object) {
            calls.push(1)?;
        }
        Ok(calls)
    }

    fn bytes_a_call(&self) -> usize
        ensures { 0 < result }
    {
        usize::try_from(self.most).unwrap_or(1).max(1)
    }

    fn source(&self, alloc: Global, object: Object, text: &[u8]) -> Result<MemSource, NoMemory> {
        let mut contents = Bytes::new(alloc);
        contents.append(text)?;
        let calls = self.calls(alloc, object)?;
        Ok(MemSource::new(contents, self.bytes_a_call(), calls))
    }

    fn sink(&self, alloc: Global, object: Object) -> Result<MemSink, NoMemory> {
        let calls = self.calls(alloc, object)?;
        MemSink::new(alloc, ROOM, self.bytes_a_call(), calls)
    }

    /// Runs the words over sources and sinks in memory.
    pub(crate) fn run_words(&self, alloc: Global) -> Result<Seen, NoMemory> {
        let mut problem = self.source(alloc, Object::Problem, self.file)?;
        let mut log_in = self.source(alloc, Object::Log, self.log)?;
        let mut out = self.sink(alloc, Object::Out)?;
        let mut log_out = self.sink(alloc, Object::LogOut)?;
        let status = run(
            alloc,
            self.words,
            &mut problem,
            &mut log_in,
            &mut out,
            &mut log_out,
        );
        Ok(Seen {
            status,
            out,
            log_out,
        })
    }

    /// What the words `print ..` print; none where a text is refused, or the words are others.
    pub(crate) fn print(&self, alloc: Global) -> Option<Bytes> {
        match self.words {
            [_, what] if what.as_str() == "problem" => print_problem(alloc, self.file),
            [_, what] if what.as_str() == "log" && self.log.len() <= MOST_ITEMS => {
                let log = read_log(alloc, self.log).ok()?;
                print_log(alloc, &log).ok()
            }
            [_, _, number] => sample_text(alloc, number.as_str().parse().ok()?).ok(),
            _ => None,
        }
    }
}

/// The problem of a text, printed; none where the text is refused, or a number of it.
pub(crate) fn print_problem(alloc: Global, text: &[u8]) -> Option<Bytes> {
    if text.len() > MOST_ITEMS {
        return None;
    }
    let problem = read_vlp(alloc, text).ok()?;
    print_vlp(alloc, &problem).ok()
}

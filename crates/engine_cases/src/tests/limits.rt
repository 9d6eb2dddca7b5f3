//! Logs that are read to a limit, a byte at a time.

use cert_check::{Refusal, Rule, StreamEnd, check_from};
use deriv_log::{LogFault, LogKind};
use src_sink::{Bytes, Items, MemSource, NoMemory};
use std::alloc::Global;
use std::test::Fail;
use vlp_problem::Problem;
use vlp_reader::read_vlp;

/// A file whose sides contradict each other: x is at most 0 by its row, and at least 1 by its
/// column.
const FILE: &str = "p vlp min 1 1 1 1 1\na 1 1 1\no 1 1 1\ni 1 u 0\nj 1 l 1\ne\n";

/// Multipliers that show it.
const LOG: &str = "version 1\nfarkas 2 1 1 2 1\nend infeasible\n";

/// None that do.
const NOTHING: &str = "version 1\nfarkas 0\nend infeasible\n";

/// Texts of no log.
const BAD: &str = "version 1\nx\nversion 1\n";

const TORN: &str = "x\nversion 1\n";

/// A source of a text, a byte a call, of which one call fails.
fn source(alloc: Global, text: &str, fails: u64) -> Result<MemSource, NoMemory> {
    let mut contents = Bytes::new(alloc);
    contents.append(text.as_bytes())?;
    let mut numbers = Items::new(alloc);
    numbers.push(fails)?;
    Ok(MemSource::new(contents, 1, numbers))
}

/// Why a log is no proof, where that is so.
fn end(alloc: Global, problem: &Problem, text: &str, limit: u16, fails: u64) -> Option<StreamEnd> {
    match source(alloc, text, fails) {
        Ok(mut log) => check_from(alloc, problem, &mut log, u64::from(limit)).err(),
        Err(_) => Some(StreamEnd::NoMemory),
    }
}

#[test]
fn a_log_is_read_to_its_limit(rt: HostRuntime) -> Result<(), Fail> {
    let problem = read_vlp(rt.alloc(), FILE.as_bytes()).ok().ok_or("a file")?;
    let wrong = StreamEnd::Refused(Refusal::Wrong {
        entry: 2,
        rule: Rule::Bound,
    });
    let bad = StreamEnd::Text(LogFault {
        line: 2,
        kind: LogKind::BadLine,
    });
    // The source of the last one fails after a fault of its text.
    for (text, limit, fails, wanted) in [
        (LOG, 42, 0, None),
        (LOG, 41, 0, Some(StreamEnd::TooLong(42))),
        (NOTHING, 34, 0, Some(wrong)),
        (NOTHING, 33, 0, Some(StreamEnd::TooLong(34))),
        (BAD, 22, 0, Some(bad)),
        (BAD, 21, 0, Some(StreamEnd::TooLong(22))),
        (TORN, 100, 5, Some(StreamEnd::Fault)),
    ] {
        assert_eq!(rt;
            end(rt.alloc(), &problem, text, limit, fails),
            wanted,
            "{text}"
        );
    }
    Ok(())
}

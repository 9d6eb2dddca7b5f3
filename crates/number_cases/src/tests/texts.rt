//! Texts of representations and of logs of conversions: what is read is printed as it stood.

use rep_text::{RepEnd, print_conv, print_rep, read_conv, read_rep};
use std::test::Fail;
use word_lines::{LogEnd, LogFault, LogKind};

/// A triangle by its sides and by its corners, a point by two equations, a line beside a point and
/// a direction, and the empty set.
const REPS: [&str; 5] = [
    "sides 2\nh 1 0 0\nh 0 1 0\nh -1 -1 -1\nend\n",
    "gens 2\n1 0 0\n1 0 1\n1 1 0\nend\n",
    "sides 2\ne 1 0 1/2\ne 0 1 2\nend\n",
    "gens 2\nl 1 -2/3\n1 0 7\n0 0 1\nend\n",
    "gens 19\nend\n",
];

const CONV: &str = "conv 1\nline 3 1 -1 0\nstart 2 0 1 6 1 0 0 0 -1/2 1\nadd 2 1 1 2\nend\n";

#[test]
fn representations_are_printed_as_they_stood(rt: HostRuntime) -> Result<(), Fail> {
    for text in REPS {
        let rep = read_rep(rt.alloc(), text.as_bytes())?;
        let printed = print_rep(rt.alloc(), &rep)?;
        assert_eq!(rt; printed.as_slice(), text.as_bytes());
    }
    Ok(())
}

#[test]
fn conversions_are_printed_as_they_stood(rt: HostRuntime) -> Result<(), Fail> {
    let log = read_conv(rt.alloc(), CONV.as_bytes())?;
    assert_eq!(rt; log.len(), 5);
    let printed = print_conv(rt.alloc(), &log)?;
    assert_eq!(rt; printed.as_slice(), CONV.as_bytes());
    Ok(())
}

#[test]
fn first_faults_are_told(rt: HostRuntime) {
    assert_eq!(rt;
        read_rep(rt.alloc(), b"gens 2\n1 2/4 0\nh 0\n").err(),
        Some(RepEnd::Fault {
            line: 2,
            kind: LogKind::BadNumber
        })
    );
    assert_eq!(rt;
        read_conv(rt.alloc(), b"conv 1\nadd 1 1 2\nend\n").err(),
        Some(LogEnd::Fault(LogFault {
            line: 2,
            kind: LogKind::BadLine
        }))
    );
}

//! The upgrade of a log, as entries and as a text.
ghost use Rattle.std.specs.Prelude.{IfOk};
ghost use Rattle.deriv_log.specs.Formed.{IsLog};

use cert_check::check;
use deriv_log::{Entries, print_log, read_log};
use log_upgrade::{upgrade, upgrade_text};
use sol_writer::report;
use src_sink::Bytes;
use std::alloc::Global;
use std::test::Fail;
use vlp_problem::Problem;
use vlp_reader::read_vlp;

/// x and y, at least 0, with x + y at least 1 and 2 x + y at least 3/2.
const FILE: &str = "\
p vlp min 3 2 5 2 2
a 1 1 1
a 2 1 1
a 2 2 1
a 3 1 2
a 3 2 1
o 1 1 1
o 2 2 1
i 1 l 0
i 2 l 1
i 3 l 1.5
j 2 l 0
e
";

/// A proof of its answer.
const LOG: &str = "\
version 1
duality 2 1 1 0 0 0
cut 2 1 0 0 1 1 1 0
cut 2 0 1 0 1 4 1 0
start 2 1 2 2 0 0 4 1 0 0 1
cut 2 1/2 1/2 1/2 1 2 1/2 0
add 3 2 2 1 3 1
cut 2 2/3 1/3 1/2 1 3 1/3 0
add 4 2 3 5 4 5
point 4 1 1 1 0
point 6 1 2 3/2 0
point 7 2 1 1/2 2 1/2 0
ray 2 0 0
ray 3 0 0
facet 1
facet 2
facet 3
facet 4
end solved
";

/// Its upgrade, put together apart from the program: a cut and a point share a vector, and the
/// second addition has a hint.
const UPGRADE: &str = "\
version 2
duality 2 1 1 0 0 0
share 1 1 1
cutof 2 1 0 0 1 0
cut 2 0 1 0 1 4 1 0
start 2 1 2 2 0 0 4 1 0 0 1
cut 2 1/2 1/2 1/2 1 2 1/2 0
addh 3 2 2 1 3 1 0
cut 2 2/3 1/3 1/2 1 3 1/3 0
addh 4 2 3 5 4 5 1 3
pointof 4 1 0
point 6 1 2 3/2 0
point 7 2 1 1/2 2 1/2 0
ray 2 0 0
ray 3 0 0
facet 1
facet 2
facet 3
facet 4
end solved
";

/// The entries of a text.
fn entries_of(alloc: Global, text: &str) -> Result<Entries, Fail>
    ensures { IfOk result IsLog }
{
    let mut bytes = Bytes::new(alloc);
    bytes.append(text.as_bytes())?;
    Ok(read_log(alloc, bytes.as_slice())?)
}

/// The report of the answer that a log proves.
fn report_of(alloc: Global, problem: &Problem, log: &Entries) -> Result<Bytes, Fail>
    requires { IsLog log.now }
{
    let answer = check(alloc, problem, log)?;
    Ok(report(alloc, problem, &answer)?)
}

#[test]
fn a_log_is_upgraded(rt: HostRuntime) -> Result<(), Fail> {
    let alloc = rt.alloc();
    let problem = read_vlp(alloc, FILE.as_bytes())?;
    let log = entries_of(alloc, LOG)?;
    check(alloc, &problem, &log)?;
    let text = upgrade_text(alloc, &problem, &log)?;
    assert!(rt; text.as_slice() == UPGRADE.as_bytes());
    let upgraded = upgrade(alloc, &problem, &log)?;
    let printed = print_log(alloc, &upgraded)?;
    assert!(rt; printed.as_slice() == UPGRADE.as_bytes());
    let told = report_of(alloc, &problem, &log)?;
    assert!(rt; report_of(alloc, &problem, &upgraded)?.as_slice() == told.as_slice());
    Ok(())
}

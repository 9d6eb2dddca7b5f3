//! Upgrades of whole logs.
ghost use Rattle.std.specs.Prelude.{◌≡◌, IfOk};
ghost use Rattle.log_versions.specs.Plain.{is_version_2};
ghost use Rattle.log_upgrade.specs.Walk.{IsFirst, IsWhole, IsWholeText};

use crate::walk::Upgrader;
use deriv_log::{Entries, Entry};
use src_sink::{Bytes, Items, NoMemory};
use std::alloc::Global;
use vlp_problem::Problem;

/// Whether a log is of version 2.
pub(crate) fn is_second(entries: &[Entry]) -> bool
    ensures { result ≡ is_version_2 entries.now }
{
    matches!(entries, [Entry::Version(2), ..])
}

pub(crate) fn copy_log(alloc: Global, entries: &Entries) -> Result<Entries, NoMemory>
    ensures { IfOk result (λ copy. copy ≡ entries.now) }
{
    let list = entries.as_slice();
    let mut copy = Items::new(alloc);
    for entry in list {
        copy.push(entry.copy(alloc)?)?;
    }
    Ok(copy)
}

/// The upgrade of a log that is not of version 2.
pub(crate) fn make_upgrade(
    alloc: Global,
    problem: &Problem,
    entries: &Entries,
) -> Result<Entries, NoMemory>
    requires { IsFirst problem.now entries.now }
    ensures { IfOk result (IsWhole problem.now.objs entries.now) }
{
    let list = entries.as_slice();
    let mut upgrader = Upgrader::new(alloc, problem, list)?;
    let mut upgrade = Items::new(alloc);
    upgrader.put_all(alloc, problem, list, &mut upgrade)?;
    Ok(upgrade)
}

/// Its text. The upgrade is held one entry at a time.
pub(crate) fn make_upgrade_text(
    alloc: Global,
    problem: &Problem,
    entries: &Entries,
) -> Result<Bytes, NoMemory>
    requires { IsFirst problem.now entries.now }
    ensures { IfOk result (IsWholeText problem.now.objs entries.now) }
{
    let list = entries.as_slice();
    let mut upgrader = Upgrader::new(alloc, problem, list)?;
    let mut text = Bytes::new(alloc);
    upgrader.print_all(alloc, problem, list, &mut text)?;
    Ok(text)
}

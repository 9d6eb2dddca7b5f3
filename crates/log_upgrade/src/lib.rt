//! Logs of version 2 that say what other logs say, with hints and with shared vectors.
#![tactic(auto)]

ghost use Rattle.std.specs.Prelude.{◌≡◌, None, IfOk, IfErr};
ghost use Rattle.frac128.specs.Held.{is_held};
ghost use Rattle.deriv_log.specs.Formed.{IsLog};
ghost use Rattle.deriv_log.specs.Laws.{IsTextOf};
ghost use Rattle.log_versions.specs.Upgrade.{upgraded};
ghost use Rattle.log_versions.specs.WrittenEvents.{log_failure};
ghost use Rattle.cert_check.specs.Verdict.{Refuses};
ghost use Rattle.log_upgrade.specs.Upgrades.{IsUpgradeOf};

mod logs;
mod repeats;
mod vectors;
mod walk;

use crate::logs::{copy_log, is_second, make_upgrade, make_upgrade_text};
use cert_check::{Refusal, check};
use deriv_log::{Entries, print_log};
use src_sink::{Bytes, NoMemory};
use std::alloc::Global;
use vlp_problem::Problem;

/// The log of version 2 that says the same as a log which `check` accepts: each `add` gets the
/// least generators that cover as hints, and each vector that stands in several entries is shared.
/// A log of version 2 is its own. It costs about what two checks cost.
pub fn upgrade(alloc: Global, problem: &Problem, entries: &Entries) -> Result<Entries, Refusal>
    requires { IsLog entries.now }
    ensures ok { IfOk result (IsUpgradeOf problem.now entries.now) }
    ensures refused { IfErr result (Refuses problem.now entries.now) }
{
    check(alloc, problem, entries)?;
    if is_second(entries.as_slice()) {
        Ok(copy_log(alloc, entries)?)
    } else {
        Ok(make_upgrade(alloc, problem, entries)?)
    }
}

/// The text of the same, of a log no event of which fails. The upgrade is held one entry at a time.
pub fn upgrade_text(alloc: Global, problem: &Problem, entries: &Entries) -> Result<Bytes, NoMemory>
    requires log { IsLog entries.now }
    requires passes { log_failure is_held problem.now entries.now ≡ None }
    ensures { IfOk result (λ text. IsTextOf text (upgraded problem.now.objs entries.now)) }
{
    if is_second(entries.as_slice()) {
        print_log(alloc, entries)
    } else {
        make_upgrade_text(alloc, problem, entries)
    }
}

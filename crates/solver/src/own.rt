//! The checker, on entries that meet their rules.
ghost use Rattle.std.specs.Prelude.{◌≡◌, IfErr, IfOk};
ghost use Rattle.frac128.specs.Held.{is_held};
ghost use Rattle.deriv_log.specs.Formed.{IsLog};
ghost use Rattle.log_rules.specs.Proves.{AllMeet, PlainProves};
ghost use Rattle.overflows.specs.Licence.{IsCheckOverflow};
ghost use Rattle.overflows.specs.Faults.{OnLicence};
ghost use Rattle.cert_check.specs.Verdict.{Accepts};
ghost use Rattle.solver.specs.Own.{IsStepLicence};

use crate::end::Solution;
use cert_check::{Refusal, check};
use deriv_log::{Entries, Licence, Place};
use overflows::SolveFault;
use std::alloc::Global;
use vlp_problem::Problem;

/// The answer of a plain log that meets its rules. Where a step of the check overflows, the fault's
/// licence has the whole log as its trail.
pub fn check_own(alloc: Global, problem: &Problem, entries: Entries) -> Result<Solution, SolveFault>
    requires log { IsLog entries }
    requires meet { AllMeet problem.now entries }
    ensures same { IfOk result (λ checked. checked.entries ≡ entries) }
    ensures ok { IfOk result (λ checked. Accepts problem.now entries checked.answer) }
    ensures plainly { IfOk result (λ checked. PlainProves problem.now entries checked.answer) }
    ensures first { IfErr result (λ fault. OnLicence fault (IsStepLicence problem.now entries)) }
    ensures licensed { IfErr result (λ fault. OnLicence fault (λ licence.
        (licence.trail ≡ entries)
        × IsCheckOverflow is_held problem.now entries licence.place licence.left)) }
{
    match check(alloc, problem, &entries) {
        Ok(answer) => Ok(Solution { entries, answer }),
        Err(Refusal::Left { entry, step, left }) => Err(SolveFault::Left(Licence {
            place: Place::Step { entry, step },
            left,
            trail: entries,
        })),
        Err(Refusal::NoMemory) => Err(SolveFault::NoMemory),
        Err(Refusal::Wrong { .. }) => unreachable!(),
    }
}

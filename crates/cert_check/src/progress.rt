//! Each entry of a log against its rules, after entries without a failure.
ghost use Rattle.std.specs.Prelude.{◌≡◌, List, [], ◌∷◌, ◌++◌, IsTrue, IfOk, OnOk};
ghost use Rattle.frac128.specs.Held.{is_held};
ghost use Rattle.deriv_log.specs.Formed.{is_formed, IsLog};
ghost use Rattle.deriv_log.specs.declared.entry.Entry.{Entry};
ghost use Rattle.log_rules.specs.Proves.{PlainProves};
ghost use Rattle.log_rules.specs.Runs.{RunsAll};
ghost use Rattle.log_rules.specs.declared.answer.Answer.TheVariants.{Whole};
ghost use Rattle.log_versions.specs.Plain.{plain};
ghost use Rattle.log_versions.specs.WrittenEvents.{written_events};
ghost use Rattle.cert_check.specs.Standing.{IsAt, IsKnown, HasFound};
ghost use Rattle.cert_check.specs.Taking.{IsTested};
ghost use Rattle.vlp_problem.specs.declared.problem.Problem.{Problem};

use crate::found::{Found, FoundWhole};
use crate::known::Known;
use crate::testing::take_entry;
use deriv_log::{EndKind, Entry};
use entry_checks::pass;
use frac128::Vector;
use log_answer::solved_answer;
use log_rules::{Answer, Rule, Stop};
use log_solved::Solving;
use src_sink::NoMemory;
use std::alloc::Global;
use vlp_problem::{Dir, Problem};

/// What is known of a log's entries so far, none of whose events fails. After an error of `take`
/// the value is of no use. It takes memory for what the entries gave, and none for what is live no
/// more.
#[derive(Debug, Drop)]
pub struct Progress {
    pub known: Known,
    pub found: Found,
    pub solving: Solving,
}

/// The answer of a direction along which the image is everything.
fn whole_answer(c: Vector, found: FoundWhole) -> Answer
    ensures { result ≡ Whole c found.x found.ray }
{
    let FoundWhole { x, ray } = found;
    Answer::Whole { c, x, ray }
}

impl Progress {
    /// Where there is no entry.
    pub fn new(alloc: Global, problem: &Problem) -> Result<Progress, NoMemory>
        ensures { IfOk result (IsAt problem.now []) }
    {
        Ok(Progress {
            known: Known::new(alloc, problem)?,
            found: Found::new(alloc),
            solving: Solving::new(alloc),
        })
    }

    /// Keeps what the entry gives for the tests of further ones and for the answers.
    fn keep(&mut self, alloc: Global, dir: Dir, entry: &Entry) -> Result<(), NoMemory>
        requires { IsTrue (is_formed entry.now) }
        ensures known { (file : Problem) (before : List Entry) → IsKnown file before self.old.known
            → IsTested file before entry.now
            → OnOk result (IsKnown file (before ++ entry.now ∷ []) self.new.known) }
        ensures found { (before : List Entry) → HasFound dir (plain before) self.old.found
            → OnOk result (HasFound dir (plain (before ++ entry.now ∷ [])) self.new.found) }
        ensures solving { self.new.solving ≡ self.old.solving }
    {
        self.known.keep(alloc, entry)?;
        self.found.keep(alloc, dir, entry)?;
        Ok(())
    }

    /// The events of one more entry.
    pub fn take(&mut self, alloc: Global, problem: &Problem, entry: &Entry) -> Result<(), Stop>
        requires formed { IsTrue (is_formed entry.now) }
        requires standing { (before : List Entry) × IsAt problem.now before self.old }
        ensures { (before : List Entry) → IsAt problem.now before self.old
            → RunsAll is_held (written_events problem.now before entry.now)
            (λ _. IsAt problem.now (before ++ entry.now ∷ []) self.new) result }
    {
        pass(Rule::Order, self.known.kinds.may_follow(entry))?;
        take_entry(alloc, problem, &self.known, &mut self.solving, entry)?;
        match self.keep(alloc, problem.dir, entry) {
            Ok(()) => Ok(()),
            Err(NoMemory) => Err(Stop::NoMemory),
        }
    }

    /// The answer that a log without a failing event proves. That of a solved log is sorted.
    pub fn finish(self, alloc: Global, problem: &Problem) -> Result<Answer, NoMemory>
        requires { (entries : List Entry) × (IsAt problem.now entries self × IsLog entries) }
        ensures { (entries : List Entry) → IsAt problem.now entries self → IsLog entries
            → IfOk result (PlainProves problem.now (plain entries)) }
    {
        let Progress {
            known,
            found,
            solving,
        } = self;
        let Known { c, .. } = known;
        let Solving {
            cuts,
            uses,
            live,
            named,
            ..
        } = solving;
        let Found {
            farkas,
            whole,
            lines,
            ended,
        } = found;
        match ended {
            Some(kind) => match kind {
                EndKind::Infeasible => match farkas {
                    Some(u) => Ok(Answer::Infeasible { u }),
                    None => unreachable!(),
                },
                EndKind::Whole => match whole {
                    Some(found) => Ok(whole_answer(c, found)),
                    None => unreachable!(),
                },
                EndKind::NoVertex => unreachable!(),
                EndKind::Solved => solved_answer(
                    alloc,
                    problem.dir,
                    c,
                    lines,
                    live.generators,
                    cuts,
                    uses.list.as_slice(),
                    named.as_slice(),
                ),
            },
            None => unreachable!(),
        }
    }
}

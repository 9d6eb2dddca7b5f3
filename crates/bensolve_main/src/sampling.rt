//! The answer of a sample file.
ghost use Rattle.std.specs.Prelude.{◌≡◌, None, IfOk};
ghost use Rattle.replies.specs.Summary.{IsSolved, Sums};
ghost use Rattle.bensolve_main.specs.Sample.{SampleVerdict};

use commands::{Reply, Status};
use log_rules::Answer;
use replies::{sample_file, summary};
use solver::{solve, unsolved_reply};
use src_sink::NoMemory;
use std::alloc::Global;

/// What is told of a solved answer.
fn sum_up(alloc: Global, number: u32, answer: &Answer) -> Result<Reply, NoMemory>
    requires { IsSolved answer.now }
    ensures status { IfOk result (λ r. r.status ≡ Status.Done) }
    ensures text { IfOk result (λ r. Sums number answer.now r.text) }
    ensures log { IfOk result (λ r. r.log ≡ None) }
{
    Ok(Reply {
        status: Status::Done,
        text: summary(alloc, number, answer)?,
        log: None,
    })
}

/// Solves the sample file of a number.
pub(crate) fn sample_reply(alloc: Global, number: u32) -> Result<Reply, NoMemory>
    ensures { IfOk result (SampleVerdict number) }
{
    let file = sample_file(alloc, number)?;
    match solve(alloc, &file) {
        Ok(solution) => sum_up(alloc, number, &solution.answer),
        Err(end) => unsolved_reply(alloc, end),
    }
}

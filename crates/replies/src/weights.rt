//! What is replied of weights.
ghost use Rattle.std.specs.Prelude.{◌≡◌, ◌⊎◌, ◌≢◌, IfOk, IsTrue, length};
ghost use Rattle.commands.specs.Weights.{are_weights};
ghost use Rattle.solver.specs.Solving.{IsSolutionOf};
ghost use Rattle.vlp_problem.specs.declared.problem.Problem.{Problem as AProblem};
ghost use Rattle.replies.specs.Weights.{WeighVerdict, WeighingStopped, WeighingTold, WeightsCounted, WeightsTold, WeightsVerdict};

use commands::{Reply, Status, fault_reply, weights_of};
use frac128::Vector;
use solver::{Solution, solve, unsolved_reply};
use src_sink::NoMemory;
use std::alloc::Global;
use vlp_problem::Problem;
use weighing::{WeighEnd, weigh, weighed_text, weights_text};

/// The reply of a solution: its points with the facets that are told of them.
fn told_reply(alloc: Global, solution: &Solution) -> Result<Reply, NoMemory>
    ensures { (file : AProblem) → IsSolutionOf file solution.now →
        IfOk result (WeightsTold file) }
{
    Ok(Reply {
        status: Status::Done,
        text: weights_text(alloc, &solution.answer)?,
        log: None,
    })
}

/// Solves a problem, and tells for each vertex of its image the facets whose normals make it least,
/// or why there is no answer.
pub fn weights_reply(alloc: Global, file: &Problem) -> Result<Reply, NoMemory>
    ensures { IfOk result (WeightsVerdict file.now) }
{
    match solve(alloc, file) {
        Ok(solution) => told_reply(alloc, &solution),
        Err(end) => unsolved_reply(alloc, end),
    }
}

/// The reply where there is another number of weights than of objectives.
fn counted_reply(alloc: Global, file: &Problem, weights: &Vector) -> Result<Reply, NoMemory>
    requires { length weights.now ≢ file.now.objs }
    ensures { IfOk result (WeightsCounted weights.now file.now) }
{
    let status = Status::Weights {
        given: weights.len() as u32,
        objs: file.objs,
    };
    fault_reply(alloc, status)
}

/// The reply of a solution: what is least for the weights, or the first product that is given up.
fn weighed_reply(
    alloc: Global,
    file: &Problem,
    solution: &Solution,
    weights: &Vector,
) -> Result<Reply, NoMemory>
    requires counted { length weights.now ≡ file.now.objs }
    requires solves { IsSolutionOf file.now solution.now }
    ensures { IfOk result (λ r. WeighingTold weights.now file.now r
        ⊎ WeighingStopped weights.now file.now r) }
{
    match weigh(alloc, file, &solution.answer, weights.as_slice()) {
        Ok(weighed) => Ok(Reply {
            status: Status::Done,
            text: weighed_text(alloc, &solution.answer, &weighed)?,
            log: None,
        }),
        Err(WeighEnd::Left { item, left }) => {
            fault_reply(alloc, Status::WeighLeft { item, left })
        }
        Err(WeighEnd::NoMemory) => Err(NoMemory),
    }
}

/// Solves a problem, and tells the vertices of its image that are least for the weights of a word,
/// or why there is no answer. The number of the weights is looked at first.
pub fn weigh_reply(alloc: Global, file: &Problem, word: &str) -> Result<Reply, NoMemory>
    requires { IsTrue (are_weights word.now) }
    ensures { IfOk result (WeighVerdict word.now file.now) }
{
    let weights = weights_of(alloc, word)?;
    if weights.len() != file.objs as usize {
        return counted_reply(alloc, file, &weights);
    }
    match solve(alloc, file) {
        Ok(solution) => weighed_reply(alloc, file, &solution, &weights),
        Err(end) => unsolved_reply(alloc, end),
    }
}

//! From an answer to the associated problem to the projection.
ghost use Rattle.std.specs.Prelude.{IfOk};
ghost use Rattle.projection.specs.Found.{AnswersAssociated, IsProjectionFrom};

use crate::copies::{copy_list, same_facets, short_gens, short_lines};
use crate::found::Projection;
use crate::levels::short_directions;
use log_rules::Answer;
use src_sink::NoMemory;
use std::alloc::Global;

/// The projection of a feasible set on its first k columns, from a right answer to the problem that
/// is associated with it and with k: its lines, its points and those of its directions whose
/// entries sum to 0, each without its last entry, and all its facets. No number is calculated.
pub fn project_answer(alloc: Global, k: u32, answer: &Answer) -> Result<Projection, NoMemory>
    requires { AnswersAssociated k answer.now }
    ensures { IfOk result (IsProjectionFrom k answer.now) }
{
    match answer {
        Answer::Infeasible { u } => Ok(Projection::Empty {
            u: copy_list(alloc, u)?,
        }),
        Answer::Whole { .. } => unreachable!(),
        Answer::Solved {
            c: _,
            lines,
            points,
            directions,
            facets,
        } => Ok(Projection::Found {
            lines: short_lines(alloc, k, lines.as_slice())?,
            points: short_gens(alloc, k, points.as_slice())?,
            directions: short_directions(alloc, k, directions.as_slice())?,
            sides: same_facets(alloc, facets.as_slice())?,
        }),
    }
}

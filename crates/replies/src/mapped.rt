//! The image of a feasible set under the objectives.
ghost use Rattle.std.specs.Prelude.{IfOk};
ghost use Rattle.replies.specs.Calculus.{MapVerdict};
ghost use Rattle.vlp_problem.specs.FileSizes.{HasFileSizes};

use crate::describe::describe;
use commands::{Reply, Status, fault_reply};
use poly_calc::map_file;
use src_sink::NoMemory;
use std::alloc::Global;
use vlp_problem::Problem;

/// Describes the image of the feasible set under the objectives, as the file gives them, of which
/// there are at most 19.
pub fn map_reply(alloc: Global, a: &Problem) -> Result<Reply, NoMemory>
    requires { HasFileSizes a.now }
    ensures { IfOk result (MapVerdict a.now) }
{
    let objs = a.objs;
    if objs > 19 {
        let sizes = Status::Sizes {
            first: objs,
            second: objs,
        };
        return fault_reply(alloc, sizes);
    }
    let made = map_file(alloc, a)?;
    describe(alloc, &made, objs, false)
}

//! The logs of the two answers that need no search.
ghost use Rattle.std.specs.Prelude.{◌≡◌, ◌≤◌, ℕ, List, [], map, length, IfOk};
ghost use Rattle.exact_field.specs.Rational.{ℚ};
ghost use Rattle.benson_program.specs.Ends.{IsContradiction};
ghost use Rattle.benson_program.specs.Wholes.{IsWholeOf};
ghost use Rattle.overflows.specs.Base.{IsBaseChoice};
ghost use Rattle.log_rules.specs.Live.{state};
ghost use Rattle.outer_approx.specs.Standing.{IsEnded, IsOpening};
ghost use Rattle.outer_approx.specs.Task.{Task};
ghost use Rattle.vlp_problem.specs.declared.problem.Problem.{Problem as File};

use benson_program::WholeParts;
use deriv_log::{Entries, Entry};
use exact_field::Field;
use outer_approx::{infeasible_log, whole_log};
use overflows::spots_of;
use src_sink::NoMemory;
use std::alloc::Global;

/// The log that no point is feasible, by multipliers of the sides.
pub fn contradiction_log<F: Field>(alloc: Global, u: &[F]) -> Result<Entries, NoMemory>
    ghost file: { File }
    requires short { length u.now ≤ 4294967294 }
    requires contradiction { IsContradiction file (map F.value u.now) }
    ensures ended { IfOk result (λ log. (c weights : List ℚ)
        → IsEnded (record { file = file; c = c; weights = weights }) log) }
    ensures cuts { IfOk result (λ log. (q : ℕ) → (state q log).cuts ≡ []) }
{
    let spots = spots_of(alloc, u)?;
    let log = infeasible_log(alloc, spots)?;
    Ok(log)
}

/// The log that the image is everything, by a feasible point, and by a direction along which the
/// objectives fall by the duality vector.
pub fn everything_log<F: Field>(
    alloc: Global,
    opening: Entry,
    x: &[F],
    parts: &WholeParts<F>,
) -> Result<Entries, NoMemory>
    ghost task: { Task }
    requires short { length x.now ≤ 4294967294 }
    requires opening { IsOpening task opening }
    requires choice { IsBaseChoice task.file (map F.value x.now) }
    requires whole { IsWholeOf F.value task.file task.c parts.now }
    ensures ended { IfOk result (IsEnded task) }
    ensures cuts { IfOk result (λ log. (q : ℕ) → (state q log).cuts ≡ []) }
{
    let x = spots_of(alloc, x)?;
    let ray = spots_of(alloc, parts.ray.as_slice())?;
    let m = spots_of(alloc, parts.m.as_slice())?;
    let log = whole_log(alloc, opening, x, ray, m)?;
    Ok(log)
}

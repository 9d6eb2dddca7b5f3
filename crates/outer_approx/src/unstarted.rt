//! The logs of the two answers that need no start.
ghost use Rattle.std.specs.Prelude.{◌≡◌, ℕ, List, IfOk, IsTrue};
ghost use Rattle.exact_field.specs.Rational.{ℚ};
ghost use Rattle.frac128.specs.Sparse.{IsSparse};
ghost use Rattle.vlp_problem.specs.declared.problem.Problem.{Problem};
ghost use Rattle.deriv_log.specs.Formed.{IsLog};
ghost use Rattle.deriv_log.specs.declared.entry.Entry.TheVariants as line;
ghost use Rattle.lp_form.specs.Programs.{feasible_system, side_total};
ghost use Rattle.overflows.specs.Base.{IsRayOff};
ghost use Rattle.overflows.specs.Trails.{IsBaseTrail};
ghost use Rattle.log_rules.specs.Meets.{MeetsFarkas};
ghost use Rattle.upper_image.specs.Spots.{dense};
ghost use Rattle.log_rules.specs.Proves.{AllMeet};
ghost use Rattle.outer_approx.specs.Unstarted.{IsReadWhole, ShowsWhole, infeasible_entries, whole_entries};

use deriv_log::{EndKind, Entries, Entry};
use frac128::Sparse;
use overflows::{duality_is_written, spots_are_written};
use src_sink::{Items, NoMemory};
use std::alloc::Global;

/// The log that no point is feasible, by multipliers of the sides.
pub fn infeasible_log(alloc: Global, u: Sparse) -> Result<Entries, NoMemory>
    ensures entries { IfOk result (λ log. log ≡ infeasible_entries u) }
    ensures log { IfOk result (λ log. IsSparse u → IsLog log) }
    ensures meet { IfOk result (λ log. (file : Problem) → MeetsFarkas file u → AllMeet file log) }
    ensures base { IfOk result (λ log. (file : Problem) (c weights : List ℚ) → MeetsFarkas file u
        → IsRayOff (feasible_system file) (dense (side_total file) u)
        → IsBaseTrail file c weights log) }
{
    spots_are_written(u.as_slice());
    let mut entries = Items::new(alloc);
    entries.push(Entry::Version(1))?;
    entries.push(Entry::Farkas { u })?;
    entries.push(Entry::End(EndKind::Infeasible))?;
    Ok(entries)
}

/// The log that the image is everything, by its duality entry, a feasible point x, and a direction
/// `ray` with the multipliers m of the generators of the ordering cone.
pub fn whole_log(
    alloc: Global,
    opening: Entry,
    x: Sparse,
    ray: Sparse,
    m: Sparse,
) -> Result<Entries, NoMemory>
    ensures entries { IfOk result (λ log. log ≡ whole_entries opening x ray m) }
    ensures log { IfOk result (λ log. (c weights : List ℚ) (picks : List ℕ) (inverse : List ℚ)
        → opening ≡ line.Duality c weights picks inverse → IsSparse x → IsSparse ray → IsSparse m
        → IsLog log) }
    ensures meet { IfOk result (λ log. (file : Problem) (c weights : List ℚ)
        → ShowsWhole file c weights opening x ray m → AllMeet file log) }
    ensures base { IfOk result (λ log. (file : Problem) (c weights : List ℚ)
        → ShowsWhole file c weights opening x ray m → IsReadWhole file c weights x ray m
        → IsBaseTrail file c weights log) }
{
    duality_is_written(&opening);
    spots_are_written(x.as_slice());
    spots_are_written(ray.as_slice());
    spots_are_written(m.as_slice());
    let mut entries = Items::new(alloc);
    entries.push(Entry::Version(1))?;
    entries.push(opening)?;
    entries.push(Entry::Whole { x, ray, m })?;
    entries.push(Entry::End(EndKind::Whole))?;
    Ok(entries)
}

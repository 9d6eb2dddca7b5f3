//! Vectors that combine to 0.
ghost use Rattle.std.specs.Prelude.{◌≡◌, ◌≤◌, ◌∷◌, drop, map, length, List, IfOk, IfErr, IfSome, IfNone};
ghost use Rattle.exact_field.specs.Rational.{ℚ};
ghost use Rattle.cone_rules.specs.Faults.{IsZeroCombination};
ghost use Rattle.cone_rules.specs.Laws.{spread};
ghost use Rattle.overflows.specs.Licence.{LicensedByCone};
ghost use Rattle.lin_rows.specs.Read.{numbers};
ghost use Rattle.lp_form.specs.Data.{IsDataOf, cone_of};
ghost use Rattle.lp_form.specs.Programs.{nonzero_vectors, pointed_system, zero_combination as combination_system};
ghost use Rattle.overflows.specs.Faults.{OnLicence};
ghost use Rattle.polyhedra.specs.Vectors.{AreWide};
ghost use Rattle.tableaux.specs.Simplex.{IsInfeasible, IsOptimal};
ghost use Rattle.vlp_problem.specs.declared.problem.Cone.TheVariants as cone;
ghost use Rattle.vlp_problem.specs.declared.problem.Problem.{Problem as File};

use crate::asking::pointed_end;
use exact_field::Field;
use exact_simplex::LpEnd;
use frac128::{Sparse, Vector};
use lp_form::{Data, is_zero_vector};
use overflows::{SolveFault, fractions, spots_of};
use src_sink::{Items, NoMemory};
use std::alloc::Global;

/// Positive multipliers that sum to 1 and combine vectors to 0, and the first vector that they
/// name.
#[derive(Debug, Drop)]
pub struct ZeroCombination {
    pub first: Vector,
    pub m: Sparse,
}

/// The next of the numbers after the first `next`, and how many are used then: 0 and no more at a
/// vector that is 0, or after the last.
fn next_number<F: Field>(vector: &[F], list: &[F], next: usize) -> (F, usize)
    requires { next ≤ length list.now }
    ensures inside { result.1 ≤ length list.now }
    ensures number { (more : List (List ℚ))
        → spread (map F.value vector.now ∷ more) (drop next (map F.value list.now))
        ≡ F.value result.0 ∷ spread more (drop result.1 (map F.value list.now)) }
{
    if next == list.len() {
        return (F::zero(), next);
    }
    if is_zero_vector(vector) {
        return (F::zero(), next);
    }
    (list[next], next + 1)
}

/// A number for each vector: those of the list at the vectors that are not 0, in their order, and 0
/// at the others.
pub fn spread_over<F: Field>(
    alloc: Global,
    vectors: &[Items<F>],
    list: &[F],
) -> Result<Items<F>, NoMemory>
    ensures { IfOk result
        (λ r. map F.value r ≡ spread (numbers F.value vectors.now) (map F.value list.now)) }
{
    let mut numbers = Items::new(alloc);
    let mut next = 0;
    for vector in vectors {
        let (number, used) = next_number(vector.as_slice(), list, next);
        numbers.push(number)?;
        next = used;
    }
    Ok(numbers)
}

/// The multipliers of a solution of the program of a line.
fn combination_of<F: Field>(
    alloc: Global,
    q: u32,
    vectors: &[Items<F>],
    x: &[F],
) -> Result<ZeroCombination, NoMemory>
    requires wide { AreWide q (numbers F.value vectors.now) }
    requires few { length vectors.now ≤ 100000 }
    requires optimal { (dual : List ℚ) × IsOptimal (combination_system q
        (nonzero_vectors (cone.Gens (numbers F.value vectors.now)))) (map F.value x.now) dual }
    ensures { IfOk result (λ z. IsZeroCombination q (numbers F.value vectors.now) z.m z.first) }
{
    let numbers = spread_over(alloc, vectors, x)?;
    let m = spots_of(alloc, numbers.as_slice())?;
    let first = match m.as_slice().first() {
        Some(spot) => fractions(alloc, vectors[spot.at as usize - 1].as_slice())?,
        None => unreachable!(),
    };
    Ok(ZeroCombination { first, m })
}

/// Multipliers that combine vectors of the cone to 0, if there are any.
pub fn zero_combination<F: Field>(
    alloc: Global,
    form: &Data<F>,
    vectors: &[Items<F>],
) -> Result<Option<ZeroCombination>, SolveFault>
    requires wide { AreWide (length form.now.p) (numbers F.value vectors.now) }
    requires few { length vectors.now ≤ 100000 }
    requires program { pointed_system (length form.now.p) (cone_of F.value form.now.cone)
        ≡ combination_system (length form.now.p)
        (nonzero_vectors (cone.Gens (numbers F.value vectors.now))) }
    ensures some { IfOk result (λ r. IfSome r
        (λ z. IsZeroCombination (length form.now.p) (numbers F.value vectors.now) z.m z.first)) }
    ensures none { IfOk result (λ r. IfNone r ((y : List ℚ) × IsInfeasible (combination_system
        (length form.now.p) (nonzero_vectors (cone.Gens (numbers F.value vectors.now)))) y)) }
    ensures left { (file : File) → IsDataOf F.value file form.now
        → IfErr result (λ fault. OnLicence fault (LicensedByCone F.holds file)) }
{
    let q = form.p.len() as u32;
    match pointed_end(alloc, form)? {
        LpEnd::Optimal { x, .. } => Ok(Some(combination_of(alloc, q, vectors, x.as_slice())?)),
        LpEnd::Infeasible { .. } => Ok(None),
        LpEnd::Unbounded { .. } => unreachable!(),
    }
}

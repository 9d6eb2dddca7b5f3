//! Cones that are given by generators.
ghost use Rattle.std.specs.Prelude.{◌≡◌, ◌≤◌, List, [], take, drop, map, length, IfOk, IfErr, OnOk};
ghost use Rattle.exact_field.specs.Rational.{ℚ};
ghost use Rattle.cone_dual.specs.Ends.{IsEnd};
ghost use Rattle.cone_dual.specs.Fitting.{CombinesToLastOne, IsDualityOf};
ghost use Rattle.cone_rules.specs.Faults.{HasFault, HasInterior, HasNoLine, IsGivenOutside};
ghost use Rattle.cone_rules.specs.Laws.{IsPositiveCombination};
ghost use Rattle.overflows.specs.Base.{IsSolutionOff};
ghost use Rattle.overflows.specs.Products.{AreBaseShares};
ghost use Rattle.overflows.specs.Settings.{Setting};
ghost use Rattle.lin_rows.specs.Read.{numbers};
ghost use Rattle.lp_form.specs.Data.{IsDataOf, cone_of, duality_of};
ghost use Rattle.lp_form.specs.Programs.{interior_of_generators};
ghost use Rattle.lp_form.specs.declared.data.ConeOf.TheVariants as cone;
ghost use Rattle.overflows.specs.Faults.{Overflows};
ghost use Rattle.polyhedra.specs.Vectors.{AreWide, combination};
ghost use Rattle.tableaux.specs.Elimination.{AreIndependent};
ghost use Rattle.vlp_problem.specs.Values.{cone_vectors};
ghost use Rattle.vlp_problem.specs.declared.problem.Problem.{Problem as File};

use crate::asking::{independent_vectors, interior_end, inverse_columns};
use crate::combining::zero_combination;
use crate::duality::{ConeEnd, Duality};
use crate::given::{duality_with, not_interior_fault, scale_given};
use cone_rules::ConeFault;
use exact_field::{Field, is_positive};
use exact_simplex::LpEnd;
use lin_rows::Indep;
use lp_form::{Data, column};
use overflows::{SolveFault, fractions, quotients_of, sum_of_products, term_fault};
use src_sink::{Items, NoMemory};
use std::alloc::Global;

/// Independent generators, as many as there are dimensions.
fn independent_generators<F: Field>(
    alloc: Global,
    form: &Data<F>,
    vectors: &[Items<F>],
) -> Result<Items<u32>, ConeEnd>
    requires { form.now.cone ≡ cone.Gens vectors.now }
    ensures ok { IfOk result (AreIndependent (length form.now.p) (numbers F.value vectors.now)) }
    ensures end { (file : File) → IsDataOf F.value file form.now
        → IfErr result (IsEnd F.holds file) }
{
    match independent_vectors(alloc, form, vectors)? {
        Indep::Basis(picks) => Ok(picks),
        Indep::Orthogonal(w) => {
            let w = fractions(alloc, w.as_slice())?;
            Err(ConeEnd::Fault(ConeFault::NotSolid {
                w,
                m: Items::new(alloc),
            }))
        }
    }
}

/// That the generators combine to no line.
fn require_no_line<F: Field>(
    alloc: Global,
    form: &Data<F>,
    vectors: &[Items<F>],
) -> Result<(), ConeEnd>
    requires generators { form.now.cone ≡ cone.Gens vectors.now }
    requires solid { HasInterior (length form.now.p) (cone_of F.value form.now.cone) }
    ensures ok { OnOk result (HasNoLine (length form.now.p) (cone_of F.value form.now.cone)) }
    ensures end { (file : File) → IsDataOf F.value file form.now
        → IfErr result (IsEnd F.holds file) }
{
    match zero_combination(alloc, form, vectors)? {
        None => Ok(()),
        Some(line) => Err(ConeEnd::Fault(ConeFault::HasLine {
            d: line.first,
            m: line.m,
        })),
    }
}

/// The entries of a list after the first `n`.
fn entries_after<F: Field>(list: &[F], n: usize) -> &[F]
    requires { n ≤ length list.now }
    ensures { map F.value result.now ≡ drop n (map F.value list.now) }
{
    &list[n..]
}

/// The fault that multipliers of the program of an interior vector show: those of the last
/// equations, after one for each generator.
fn outside_fault<F: Field>(
    alloc: Global,
    form: &Data<F>,
    vectors: &[Items<F>],
    y: &[F],
) -> Result<ConeFault, NoMemory>
    requires generators { form.now.cone ≡ cone.Gens vectors.now }
    requires solid { HasInterior (length form.now.p) (cone_of F.value form.now.cone) }
    requires pointed { HasNoLine (length form.now.p) (cone_of F.value form.now.cone) }
    requires long { length vectors.now ≤ length y.now }
    requires shown { IsGivenOutside (length form.now.p) (cone_of F.value form.now.cone)
        (duality_of F.value form.now.duality) (drop (length vectors.now) (map F.value y.now)) [] }
    ensures { (file : File) → IsDataOf F.value file form.now → IfOk result (HasFault file) }
{
    let w = entries_after(y, vectors.len());
    not_interior_fault(alloc, w, Items::new(alloc))
}

/// The solution that combines the generators to the vector that is given, by positive multipliers.
fn positive_solution<F: Field>(
    alloc: Global,
    form: &Data<F>,
    vectors: &[Items<F>],
    f: &[F],
) -> Result<Items<F>, ConeEnd>
    requires generators { form.now.cone ≡ cone.Gens vectors.now }
    requires duality { form.now.duality ≡ Some f.now }
    requires solid { HasInterior (length form.now.p) (cone_of F.value form.now.cone) }
    requires pointed { HasNoLine (length form.now.p) (cone_of F.value form.now.cone) }
    ensures ok { IfOk result
        (λ z. IsPositiveCombination (length form.now.p) (numbers F.value vectors.now)
        (take (length vectors.now) (map F.value z)) (map F.value f.now)) }
    ensures read { IfOk result (λ z. IsSolutionOff (interior_of_generators (length form.now.p)
        (numbers F.value vectors.now) (Some (map F.value f.now))) (map F.value z)) }
    ensures end { (file : File) → IsDataOf F.value file form.now
        → IfErr result (IsEnd F.holds file) }
{
    let n = vectors.len();
    match interior_end(alloc, form)? {
        LpEnd::Optimal { x, dual, .. } => {
            if is_positive(x.as_slice()[n + n]) {
                return Ok(x);
            }
            let fault = outside_fault(alloc, form, vectors, dual.as_slice())?;
            Err(ConeEnd::Fault(fault))
        }
        LpEnd::Infeasible { farkas, .. } => {
            let fault = outside_fault(alloc, form, vectors, farkas.as_slice())?;
            Err(ConeEnd::Fault(fault))
        }
        LpEnd::Unbounded { .. } => unreachable!(),
    }
}

/// The multipliers of a solution that combines the generators to an interior vector with last entry
/// 1.
fn interior_multipliers<F: Field>(
    alloc: Global,
    form: &Data<F>,
    vectors: &[Items<F>],
) -> Result<Items<F>, ConeEnd>
    requires generators { form.now.cone ≡ cone.Gens vectors.now }
    requires duality { form.now.duality ≡ None }
    requires solid { HasInterior (length form.now.p) (cone_of F.value form.now.cone) }
    requires pointed { HasNoLine (length form.now.p) (cone_of F.value form.now.cone) }
    ensures ok { IfOk result (λ mu. CombinesToLastOne (length form.now.p)
        (numbers F.value vectors.now) (map F.value mu)) }
    ensures read { IfOk result (λ mu. (z : List ℚ) × IsSolutionOff
        (interior_of_generators (length form.now.p) (numbers F.value vectors.now) None) z
        × (map F.value mu ≡ take (length vectors.now) z)) }
    ensures end { (file : File) → IsDataOf F.value file form.now
        → IfErr result (IsEnd F.holds file) }
{
    match interior_end(alloc, form)? {
        LpEnd::Optimal { x, .. } => {
            let mut mu = Items::new(alloc);
            mu.append(&x.as_slice()[..vectors.len()])?;
            Ok(mu)
        }
        LpEnd::Infeasible { .. } => Err(ConeEnd::Fault(ConeFault::LastNotPositive {
            m: Items::new(alloc),
        })),
        LpEnd::Unbounded { .. } => unreachable!(),
    }
}

/// The combination of the generators with these multipliers.
fn combine_generators<F: Field>(
    alloc: Global,
    q: u32,
    vectors: &[Items<F>],
    mu: &[F],
) -> Result<Items<F>, SolveFault>
    requires wide { AreWide q (numbers F.value vectors.now) }
    requires few { length vectors.now ≤ 100000 }
    requires one_each { length mu.now ≡ length vectors.now }
    ensures ok { IfOk result
        (λ c. map F.value c ≡ combination q (map F.value mu.now) (numbers F.value vectors.now)) }
    ensures left { (s : Setting) → s.file.objs ≡ q
        → cone_vectors s.file.cone ≡ numbers F.value vectors.now
        → AreBaseShares s (map F.value mu.now) → IfErr result (Overflows F.holds s []) }
{
    let mut c = Items::new(alloc);
    for i in 0..q {
        let column = column(alloc, vectors, i + 1)?;
        match sum_of_products(mu, column.as_slice()) {
            Ok(sum) => c.push(sum)?,
            Err(fault) => return Err(term_fault(alloc, fault, Items::new(alloc))),
        }
    }
    Ok(c)
}

/// The vector that is given, with the multipliers that combine the generators to it.
fn given_duality<F: Field>(
    alloc: Global,
    form: &Data<F>,
    vectors: &[Items<F>],
    f: &[F],
    picks: Items<u32>,
) -> Result<Duality<F>, ConeEnd>
    requires generators { form.now.cone ≡ cone.Gens vectors.now }
    requires duality { form.now.duality ≡ Some f.now }
    requires picks { AreIndependent (length form.now.p) (numbers F.value vectors.now) picks }
    requires pointed { HasNoLine (length form.now.p) (cone_of F.value form.now.cone) }
    ensures ok { (file : File) → IsDataOf F.value file form.now
        → IfOk result (IsDualityOf F.value F.holds file) }
    ensures end { (file : File) → IsDataOf F.value file form.now
        → IfErr result (IsEnd F.holds file) }
{
    let z = positive_solution(alloc, form, vectors, f)?;
    let c = scale_given(alloc, form, f)?;
    let weights = quotients_of(alloc, z.as_slice(), vectors.len(), f[f.len() - 1])?;
    let inverse = inverse_columns(alloc, form, vectors, picks.as_slice())?;
    Ok(duality_with(alloc, c, weights, picks, inverse.as_slice())?)
}

/// An interior vector, with the multipliers that combine the generators to it.
fn found_duality<F: Field>(
    alloc: Global,
    form: &Data<F>,
    vectors: &[Items<F>],
    picks: Items<u32>,
) -> Result<Duality<F>, ConeEnd>
    requires generators { form.now.cone ≡ cone.Gens vectors.now }
    requires duality { form.now.duality ≡ None }
    requires picks { AreIndependent (length form.now.p) (numbers F.value vectors.now) picks }
    requires pointed { HasNoLine (length form.now.p) (cone_of F.value form.now.cone) }
    ensures ok { (file : File) → IsDataOf F.value file form.now
        → IfOk result (IsDualityOf F.value F.holds file) }
    ensures end { (file : File) → IsDataOf F.value file form.now
        → IfErr result (IsEnd F.holds file) }
{
    let mu = interior_multipliers(alloc, form, vectors)?;
    let c = combine_generators(alloc, form.p.len() as u32, vectors, mu.as_slice())?;
    let inverse = inverse_columns(alloc, form, vectors, picks.as_slice())?;
    Ok(duality_with(alloc, c, mu, picks, inverse.as_slice())?)
}

/// All of a cone that is given by generators.
pub fn generator_facts<F: Field>(
    alloc: Global,
    form: &Data<F>,
    vectors: &[Items<F>],
) -> Result<Duality<F>, ConeEnd>
    requires { form.now.cone ≡ cone.Gens vectors.now }
    ensures ok { (file : File) → IsDataOf F.value file form.now
        → IfOk result (IsDualityOf F.value F.holds file) }
    ensures end { (file : File) → IsDataOf F.value file form.now
        → IfErr result (IsEnd F.holds file) }
{
    let picks = independent_generators(alloc, form, vectors)?;
    require_no_line(alloc, form, vectors)?;
    match &form.duality {
        Some(f) => given_duality(alloc, form, vectors, f.as_slice(), picks),
        None => found_duality(alloc, form, vectors, picks),
    }
}

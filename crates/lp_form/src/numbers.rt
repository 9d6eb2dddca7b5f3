//! The numbers of a problem, in the order of printing.
ghost use Rattle.std.specs.Prelude.{◌≡◌, ◌++◌, map, not, find, All, IfOk, IfErr, OnOk, IsTrue};
ghost use Rattle.std.specs.List.{flat_map};
ghost use Rattle.exact_field.specs.Field.{AnswersHeld};
ghost use Rattle.exact_field.specs.Rational.{ℚ};
ghost use Rattle.vlp_problem.specs.Values.{bound_numbers, printed_numbers, cone_vectors};
ghost use Rattle.lp_form.specs.Data.{RefusesNumber};

use crate::data::DataFault;
use exact_field::Field;
use frac128::{Frac, Vector};
use src_sink::{Items, NoMemory};
use std::alloc::Global;
use vlp_problem::{Bound, Cell, Cone, Problem};

/// Appends the values of cells.
fn push_cells(numbers: &mut Vector, cells: &[Cell]) -> Result<(), NoMemory>
    ensures { OnOk result (numbers.new ≡ numbers.old ++ map (λ c. c.value) cells.now) }
{
    for cell in cells {
        numbers.push(cell.value)?;
    }
    Ok(())
}

/// Appends the entries of vectors.
fn push_vectors(numbers: &mut Vector, vectors: &[Vector]) -> Result<(), NoMemory>
    ensures { OnOk result (numbers.new ≡ numbers.old ++ flat_map (λ v. v) vectors.now) }
{
    for vector in vectors {
        numbers.append(vector.as_slice())?;
    }
    Ok(())
}

/// Appends the entries of a cone's vectors.
fn push_cone(numbers: &mut Vector, cone: &Cone) -> Result<(), NoMemory>
    ensures { OnOk result (numbers.new ≡ numbers.old ++ flat_map (λ v. v) (cone_vectors cone.now)) }
{
    match cone {
        Cone::Orthant => Ok(()),
        Cone::Gens(vectors) | Cone::Dual(vectors) => push_vectors(numbers, vectors.as_slice()),
    }
}

/// Appends the numbers of a bound.
fn push_bound(numbers: &mut Vector, bound: &Bound) -> Result<(), NoMemory>
    ensures { OnOk result (numbers.new ≡ numbers.old ++ bound_numbers bound.now) }
{
    match bound {
        Bound::Unsaid | Bound::Free => Ok(()),
        Bound::Lower(value) | Bound::Upper(value) | Bound::Fixed(value) => numbers.push(*value),
        Bound::Double(low, high) => {
            numbers.push(*low)?;
            numbers.push(*high)
        }
    }
}

/// Appends the numbers of bounds.
fn push_bounds(numbers: &mut Vector, bounds: &[Bound]) -> Result<(), NoMemory>
    ensures { OnOk result (numbers.new ≡ numbers.old ++ flat_map bound_numbers bounds.now) }
{
    for bound in bounds {
        push_bound(numbers, bound)?;
    }
    Ok(())
}

/// All numbers of a problem.
fn all_numbers(alloc: Global, problem: &Problem) -> Result<Vector, NoMemory>
    ensures { IfOk result (λ numbers. numbers ≡ printed_numbers problem.now) }
{
    let mut numbers = Items::new(alloc);
    push_cells(&mut numbers, problem.a.as_slice())?;
    push_cells(&mut numbers, problem.o.as_slice())?;
    if let Some(duality) = &problem.duality {
        numbers.append(duality.as_slice())?;
    }
    push_cone(&mut numbers, &problem.cone)?;
    push_bounds(&mut numbers, problem.row_bounds.as_slice())?;
    push_bounds(&mut numbers, problem.col_bounds.as_slice())?;
    Ok(numbers)
}

/// A number in the field, if the field holds it.
fn try_to_field<F: Field>(number: Frac) -> Option<F>
    ensures { AnswersHeld F.value F.holds number result }
{
    F::of(number.num(), number.den())
}

/// A number in the field, which holds it.
pub fn to_field<F: Field>(number: Frac) -> F
    requires { IsTrue (F.holds number) }
    ensures { F.value result ≡ number }
{
    match try_to_field::<F>(number) {
        Some(value) => value,
        None => unreachable!(),
    }
}

/// Whether the field holds a number.
fn is_held<F: Field>(number: Frac) -> bool
    ensures { result ≡ F.holds number }
{
    match try_to_field::<F>(number) {
        Some(_) => true,
        None => false,
    }
}

/// The first of these numbers that the field does not hold.
fn find_unheld<F: Field>(numbers: &[Frac]) -> Option<Frac>
    ensures { result ≡ find (λ q. not (F.holds q)) numbers.now }
{
    for number in numbers {
        if !is_held::<F>(*number) {
            return Some(*number);
        }
    }
    None
}

/// Whether the field holds each number of a problem, or which is the first, in the order of
/// printing, that it does not hold.
pub fn test_numbers<F: Field>(alloc: Global, problem: &Problem) -> Result<(), DataFault>
    ensures held { OnOk result (All (λ q. IsTrue (F.holds q)) (printed_numbers problem.now)) }
    ensures refused { IfErr result (RefusesNumber F.holds problem.now) }
{
    let numbers = all_numbers(alloc, problem)?;
    match find_unheld::<F>(numbers.as_slice()) {
        Some(number) => Err(DataFault::NotHeld(number)),
        None => Ok(()),
    }
}

//! The numbers of a problem that have no decimal form.
ghost use Rattle.std.specs.Prelude.{◌≡◌, map, not, find, [], ◌∷◌};
ghost use Rattle.std.specs.List.{flat_map};
ghost use Rattle.exact_field.specs.Rational.{ℚ};
ghost use Rattle.vlp_printer.specs.Decimal.{is_decimal};
ghost use Rattle.vlp_problem.specs.Values.{bound_numbers, printed_numbers, cone_vectors, duality_entries};

use crate::decimal::Decimal;
use frac128::{Frac, Vector};
use vlp_problem::{Bound, Cell, Cone, Problem};

/// Whether a number has no decimal form.
fn is_wide(number: Frac) -> bool
    ensures { result ≡ not (is_decimal number) }
{
    Decimal::of(number).is_none()
}

/// The first of these numbers that has none.
fn wide_entry(numbers: &[Frac]) -> Option<Frac>
    ensures { result ≡ find (λ q. not (is_decimal q)) numbers.now }
{
    for number in numbers {
        if is_wide(*number) {
            return Some(*number);
        }
    }
    None
}

/// The first value of these cells that has none.
fn wide_cell(cells: &[Cell]) -> Option<Frac>
    ensures { result ≡ find (λ q. not (is_decimal q)) (map (λ c. c.value) cells.now) }
{
    for cell in cells {
        if is_wide(cell.value) {
            return Some(cell.value);
        }
    }
    None
}

/// The first entry of these vectors that has none.
fn wide_vector(vectors: &[Vector]) -> Option<Frac>
    ensures { result ≡ find (λ q. not (is_decimal q)) (flat_map (λ v. v) vectors.now) }
{
    for vector in vectors {
        if let Some(number) = wide_entry(vector.as_slice()) {
            return Some(number);
        }
    }
    None
}

/// The first of two numbers that has none.
fn wide_of(first: Frac, second: Frac) -> Option<Frac>
    ensures { result ≡ find (λ q. not (is_decimal q)) (first ∷ second ∷ []) }
{
    if is_wide(first) {
        return Some(first);
    }
    if is_wide(second) {
        return Some(second);
    }
    None
}

/// The first number of a bound that has none.
fn wide_in_bound(bound: &Bound) -> Option<Frac>
    ensures { result ≡ find (λ q. not (is_decimal q)) (bound_numbers bound.now) }
{
    match bound {
        Bound::Unsaid | Bound::Free => None,
        Bound::Lower(value) | Bound::Upper(value) | Bound::Fixed(value) => {
            if is_wide(*value) { Some(*value) } else { None }
        }
        Bound::Double(low, high) => wide_of(*low, *high),
    }
}

/// The first number of these bounds that has none.
fn wide_bound(bounds: &[Bound]) -> Option<Frac>
    ensures { result ≡ find (λ q. not (is_decimal q)) (flat_map bound_numbers bounds.now) }
{
    for bound in bounds {
        if let Some(number) = wide_in_bound(bound) {
            return Some(number);
        }
    }
    None
}

/// The first entry of a duality vector that has none.
fn wide_duality(duality: &Option<Vector>) -> Option<Frac>
    ensures { result ≡ find (λ q. not (is_decimal q)) (duality_entries duality.now) }
{
    match duality {
        Some(duality) => wide_entry(duality.as_slice()),
        None => None,
    }
}

/// The first entry of a cone's vectors that has none.
fn wide_cone(cone: &Cone) -> Option<Frac>
    ensures { result ≡ find (λ q. not (is_decimal q)) (flat_map (λ v. v) (cone_vectors cone.now)) }
{
    match cone {
        Cone::Orthant => None,
        Cone::Gens(vectors) | Cone::Dual(vectors) => wide_vector(vectors.as_slice()),
    }
}

/// The first number of a problem that has none, in the order of printing.
pub(crate) fn wide_number(problem: &Problem) -> Option<Frac>
    ensures { result ≡ find (λ q. not (is_decimal q)) (printed_numbers problem.now) }
{
    if let Some(number) = wide_cell(problem.a.as_slice()) {
        return Some(number);
    }
    if let Some(number) = wide_cell(problem.o.as_slice()) {
        return Some(number);
    }
    if let Some(number) = wide_duality(&problem.duality) {
        return Some(number);
    }
    if let Some(number) = wide_cone(&problem.cone) {
        return Some(number);
    }
    if let Some(number) = wide_bound(problem.row_bounds.as_slice()) {
        return Some(number);
    }
    wide_bound(problem.col_bounds.as_slice())
}

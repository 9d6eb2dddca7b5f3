//! Membership in the ordering cone and in its dual cone.
ghost use Rattle.std.specs.Prelude.{◌≡◌, ⊤, ℕ, nat_le, ◌+◌, ◌^◌, ◌<◌, length, All, IsTrue, [], ◌∷◌, ◌++◌};
ghost use Rattle.std.specs.List.{list_all};
ghost use Rattle.exact_field.specs.Order.{same_ℚ};
ghost use Rattle.exact_field.specs.Rational.{zero_ℚ, le_ℚ, lt_ℚ};
ghost use Rattle.exact_field.specs.Vector.{dot};
ghost use Rattle.frac128.specs.Held.{is_held};
ghost use Rattle.frac128.specs.Sparse.{IsSparse};
ghost use Rattle.log_rules.specs.Events.{dot_steps, product_steps};
ghost use Rattle.log_rules.specs.Events.Event.{test};
ghost use Rattle.log_rules.specs.Runs.{Runs, steps};
ghost use Rattle.log_rules.specs.VectorEvents.{products_events, none_given, places_within, values_positive, in_cone};
ghost use Rattle.log_rules.specs.declared.rule.Rule.TheVariants as rule;
ghost use Rattle.entry_checks.specs.Parts.{product_events, entry_events, combination_events};
ghost use Rattle.upper_image.specs.OrderingCone.{dual_of};
ghost use Rattle.upper_image.specs.Spots.{IsVector, column, product};
ghost use Rattle.vlp_problem.specs.Cones.{cone_fits};
ghost use Rattle.vlp_problem.specs.declared.problem.Cone.TheVariants as cone;

use crate::steps::{Steps, is_nonnegative, pass};
use exact_field::is_positive;
use frac128::{Frac, Spot, Vector};
use log_rules::{Rule, Stop};
use vlp_problem::Cone;

/// Whether each place is at most `most`.
fn are_within(most: usize, spots: &[Spot]) -> bool
    ensures { result ≡ list_all (λ s. nat_le s.at most) spots.now }
{
    spots.iter().all(|s| s.at as usize <= most)
}

/// Whether each value is above 0.
fn are_positive(spots: &[Spot]) -> bool
    ensures { result ≡ list_all (λ s. lt_ℚ zero_ℚ s.value) spots.now }
{
    spots.iter().all(|s| is_positive(s.value))
}

/// Whether no number is below 0.
fn are_nonnegative(e: &[Frac]) -> bool
    ensures { result ≡ list_all (le_ℚ zero_ℚ) e.now }
{
    e.iter().all(|x| is_nonnegative(*x))
}

/// Each place is at most `most`.
pub fn places_within(most: usize, spots: &[Spot]) -> Result<(), Stop>
    ensures { (taken : ℕ)
        → Runs is_held (places_within most spots.now ∷ []) taken taken (λ _. ⊤) result }
{
    pass(Rule::Index, are_within(most, spots))
}

/// The test that each value is above 0.
pub fn values_positive(spots: &[Spot]) -> Result<(), Stop>
    ensures { (taken : ℕ)
        → Runs is_held (values_positive spots.now ∷ []) taken taken (λ _. ⊤) result }
{
    pass(Rule::Sign, are_positive(spots))
}

/// There are no multipliers.
fn has_no_multipliers(m: &[Spot]) -> Result<(), Stop>
    ensures { (taken : ℕ) → Runs is_held (none_given m.now ∷ []) taken taken (λ _. ⊤) result }
{
    pass(Rule::Length, m.is_empty())
}

/// No entry is below 0.
fn no_entry_is_negative(e: &[Frac]) -> Result<(), Stop>
    ensures { (taken : ℕ)
        → Runs is_held (test rule.Cone (list_all (le_ℚ zero_ℚ) e.now) ∷ []) taken taken (λ _. ⊤)
        result }
{
    pass(Rule::Cone, are_nonnegative(e))
}

/// A vector's product with `e` is at least 0.
fn has_product(counter: &mut Steps, v: &[Frac], e: &[Frac]) -> Result<(), Stop>
    requires widths { length v.now ≡ length e.now }
    requires room { counter.old.taken + steps (product_events e.now v.now) < 2 ^ 63 }
    ensures { Runs is_held (product_events e.now v.now) counter.old.taken counter.new.taken (λ _. ⊤)
        result }
{
    let product = counter.dot(v, e)?;
    pass(Rule::Cone, is_nonnegative(product))
}

/// Each vector's product with `e` is at least 0.
fn has_products(counter: &mut Steps, vectors: &[Vector], e: &[Frac]) -> Result<(), Stop>
    requires widths { All (λ v. length v ≡ length e.now) vectors.now }
    requires room { counter.old.taken + steps (products_events vectors.now e.now) < 2 ^ 63 }
    ensures { Runs is_held (products_events vectors.now e.now) counter.old.taken counter.new.taken
        (λ _. ⊤) result }
{
    for vector in vectors {
        has_product(counter, vector.as_slice(), e)?;
    }
    Ok(())
}

/// The product of the entries at one place of the vectors, counted from 0, with multipliers of the
/// vectors.
fn column_dot(
    counter: &mut Steps,
    vectors: &[Vector],
    place: usize,
    m: &[Spot],
) -> Result<Frac, Stop>
    requires entries { All (λ v. place < length v) vectors.now }
    requires vector { IsVector (length vectors.now) m.now }
    requires room { counter.old.taken + steps (product_steps (column vectors.now (place + 1)) m.now)
        < 2 ^ 63 }
    ensures { Runs is_held (product_steps (column vectors.now (place + 1)) m.now) counter.old.taken
        counter.new.taken (λ t. t ≡ product (column vectors.now (place + 1)) m.now) result }
{
    let mut total = Frac::from(0);
    for spot in m {
        let entry = vectors[spot.at as usize - 1].as_slice()[place];
        total = counter.plus_product(total, entry, spot.value)?;
    }
    Ok(total)
}

/// The combination of the vectors has this entry at a place, counted from 0.
fn combines_at(
    counter: &mut Steps,
    vectors: &[Vector],
    place: usize,
    m: &[Spot],
    entry: Frac,
) -> Result<(), Stop>
    requires entries { All (λ v. place < length v) vectors.now }
    requires vector { IsVector (length vectors.now) m.now }
    requires room { counter.old.taken + steps (entry_events vectors.now m.now entry (place + 1))
        < 2 ^ 63 }
    ensures { Runs is_held (entry_events vectors.now m.now entry (place + 1)) counter.old.taken
        counter.new.taken (λ _. ⊤) result }
{
    let sum = column_dot(counter, vectors, place, m)?;
    pass(Rule::Cone, sum == entry)
}

/// The combination of the vectors with the multipliers is `e`.
fn combines(counter: &mut Steps, vectors: &[Vector], e: &[Frac], m: &[Spot]) -> Result<(), Stop>
    requires widths { All (λ v. length v ≡ length e.now) vectors.now }
    requires vector { IsVector (length vectors.now) m.now }
    requires room { counter.old.taken + steps (combination_events vectors.now e.now m.now)
        < 2 ^ 63 }
    ensures { Runs is_held (combination_events vectors.now e.now m.now) counter.old.taken
        counter.new.taken (λ _. ⊤) result }
{
    for (i, entry) in e.iter().enumerate() {
        combines_at(counter, vectors, i, m, *entry)?;
    }
    Ok(())
}

/// `e` is a nonnegative combination of the generators, by multipliers.
fn is_generated(
    counter: &mut Steps,
    generators: &[Vector],
    e: &[Frac],
    m: &[Spot],
) -> Result<(), Stop>
    requires fits { IsTrue (cone_fits (length e.now) (cone.Gens generators.now)) }
    requires sparse { IsSparse m.now }
    requires room { counter.old.taken + steps (in_cone (cone.Gens generators.now) e.now m.now)
        < 2 ^ 63 }
    ensures { Runs is_held (in_cone (cone.Gens generators.now) e.now m.now) counter.old.taken
        counter.new.taken (λ _. ⊤) result }
{
    places_within(generators.len(), m)?;
    values_positive(m)?;
    combines(counter, generators, e, m)
}

/// `e` has a product of at least 0 with each row; no multipliers are given.
fn meets_rows(counter: &mut Steps, rows: &[Vector], e: &[Frac], m: &[Spot]) -> Result<(), Stop>
    requires fits { IsTrue (cone_fits (length e.now) (cone.Dual rows.now)) }
    requires room { counter.old.taken + steps (in_cone (cone.Dual rows.now) e.now m.now) < 2 ^ 63 }
    ensures { Runs is_held (in_cone (cone.Dual rows.now) e.now m.now) counter.old.taken
        counter.new.taken (λ _. ⊤) result }
{
    has_no_multipliers(m)?;
    has_products(counter, rows, e)
}

/// `e` has no entry below 0; no multipliers are given.
fn in_orthant(e: &[Frac], m: &[Spot]) -> Result<(), Stop>
    ensures { (taken : ℕ)
        → Runs is_held (in_cone cone.Orthant e.now m.now) taken taken (λ _. ⊤) result }
{
    has_no_multipliers(m)?;
    no_entry_is_negative(e)
}

/// `e` is in the cone, by multipliers where it is given by generators. It costs the entries of the
/// cone's vectors at the places of `m`, or all of them where the cone is given by rows.
pub fn in_cone(counter: &mut Steps, cone: &Cone, e: &[Frac], m: &[Spot]) -> Result<(), Stop>
    requires fits { IsTrue (cone_fits (length e.now) cone.now) }
    requires sparse { IsSparse m.now }
    requires room { counter.old.taken + steps (in_cone cone.now e.now m.now) < 2 ^ 63 }
    ensures { Runs is_held (in_cone cone.now e.now m.now) counter.old.taken counter.new.taken
        (λ _. ⊤) result }
{
    match cone {
        Cone::Orthant => in_orthant(e, m),
        Cone::Gens(generators) => is_generated(counter, generators.as_slice(), e, m),
        Cone::Dual(rows) => meets_rows(counter, rows.as_slice(), e, m),
    }
}

/// `w` is in the dual cone of the cone, by multipliers where the cone is given by rows, which
/// generate it.
pub fn in_dual_cone(counter: &mut Steps, cone: &Cone, w: &[Frac], v: &[Spot]) -> Result<(), Stop>
    requires fits { IsTrue (cone_fits (length w.now) cone.now) }
    requires sparse { IsSparse v.now }
    requires room { counter.old.taken + steps (in_cone (dual_of cone.now) w.now v.now) < 2 ^ 63 }
    ensures { Runs is_held (in_cone (dual_of cone.now) w.now v.now) counter.old.taken
        counter.new.taken (λ _. ⊤) result }
{
    match cone {
        Cone::Orthant => in_orthant(w, v),
        Cone::Gens(generators) => meets_rows(counter, generators.as_slice(), w, v),
        Cone::Dual(rows) => is_generated(counter, rows.as_slice(), w, v),
    }
}

//! The coupling of a polyhedron with its lower image.
ghost use Rattle.std.specs.Prelude.{◌≡◌, ◌≤◌, ℕ, All, IfErr, IfOk, OnOk, length, map};
ghost use Rattle.double_descr.specs.Steps.{IsFirst, IsHeld};
ghost use Rattle.geo_duality.specs.Coupling.{IsCouplingHeld, IsCouplingLeft, inequality_of, joined, joining_steps, slack};

use exact_field::{Field, Left};
use lin_rows::dot;

/// What is made of both products of a coupling: what the second leaves of 1, times the last entry
/// of the vector, plus the first product, minus the bound.
fn join<F: Field>(direct: F, weight: F, height: F, bound: F) -> Result<F, Left<F>>
    ensures value { IfOk result (λ r. F.value r
        ≡ joined (F.value direct) (F.value weight) (F.value height) (F.value bound)) }
    ensures held { OnOk result (All (IsHeld F.holds)
        (joining_steps (F.value direct) (F.value weight) (F.value height) (F.value bound))) }
    ensures left { IfErr result (λ left. (number : ℕ)
        × IsFirst F.value F.holds
        (joining_steps (F.value direct) (F.value weight) (F.value height) (F.value bound))
        number left) }
{
    let rest = F::one().sub(weight)?;
    let share = height.mul(rest)?;
    let total = direct.add(share)?;
    total.sub(bound)
}

/// The coupling of `y` with `star`: the product of all entries of `y` but the last with those of
/// `star`, plus the last entry of `y` times what the product of those of `c` and `star` leaves of
/// 1, minus the last entry of `star` (Heyde and Löhne). It is the slack of `y` in the inequality
/// for which `star` stands, whose normal has the product 1 with `c`.
pub fn phi<F: Field>(y: &[F], star: &[F], c: &[F]) -> Result<F, Left<F>>
    requires some { 1 ≤ length y.now }
    requires star { length star.now ≡ length y.now }
    requires c { length c.now ≡ length y.now }
    ensures slack { IfOk result (λ r. F.value r
        ≡ slack (inequality_of (map F.value star.now) (map F.value c.now)) (map F.value y.now)) }
    ensures held { OnOk result
        (IsCouplingHeld F.holds (map F.value y.now) (map F.value star.now) (map F.value c.now)) }
    ensures left { IfErr result (IsCouplingLeft F.value F.holds (map F.value y.now)
        (map F.value star.now) (map F.value c.now)) }
{
    let last = y.len() - 1;
    let direct = dot(&y[..last], &star[..last])?;
    let weight = dot(&c[..last], &star[..last])?;
    join(direct, weight, y[last], star[last])
}

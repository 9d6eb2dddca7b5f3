//! The rows by which points and directions stand for inequalities of the dual.
ghost use Rattle.std.specs.Prelude.{◌≡◌, ◌≤◌, ◌<◌, ◌+◌, ◌*◌, ◌++◌, [], ◌∷◌, List, IfErr, IfOk, MatchResult, OnOk, All, length, map, if◌then◌else◌};
ghost use Rattle.exact_field.specs.Rational.{ℚ, zero_ℚ, one_ℚ, neg_ℚ, ◌-ℚ◌, ◌*ℚ◌};
ghost use Rattle.exact_field.specs.Vector.{dot, entry};
ghost use Rattle.double_descr.specs.Steps.{IsHeld, IsSoFar, Step};
ghost use Rattle.geo_duality.specs.Exchange.{IsExchangeFault, dual_vector, entry_steps, exchange_steps};
ghost use Rattle.geo_duality.specs.Rows.{exchange_row};

use exact_field::{Field, Left};
use src_sink::{Items, NoMemory};
use std::alloc::Global;

/// Why an exchange was given up.
#[derive(Debug, Drop)]
pub enum ExchangeFault<F: Drop> {
    /// A product or a difference that is not held.
    Left {
        /// Of entry `i`, counted from 1, the product is step `2 i - 1` and the difference step `2
        /// i`.
        step: u64,
        /// The operation, with its operands.
        left: Left<F>,
    },
    NoMemory,
}

impl<F: Drop> From<NoMemory> for ExchangeFault<F> {
    ghost use Rattle.std.specs.Prelude.{◌≡◌};
    ghost use Rattle.geo_duality.specs.declared.exchanged.ExchangeFault.TheVariants.{NoMemory};

    ghost from_gives = { λ _ e. e ≡ NoMemory };

    fn from(_e: NoMemory) -> ExchangeFault<F> {
        ExchangeFault::NoMemory
    }
}

/// A number less a product, with the number of steps before.
fn less_product<F: Field>(y: F, last: F, c: F, done: u64) -> Result<F, ExchangeFault<F>>
    requires { done + 2 < 18446744073709551616 }
    ensures runs { (steps left : List Step)
        → IsSoFar F.holds steps (entry_steps (F.value last) (F.value y) (F.value c) ++ left) done
        → MatchResult result (λ r. IsSoFar F.holds steps left (done + 2))
        (λ fault. IsExchangeFault F.value F.holds steps fault) }
    ensures value { IfOk result (λ r. F.value r ≡ F.value y -ℚ F.value last *ℚ F.value c) }
{
    match last.mul(c) {
        Err(left) => Err(ExchangeFault::Left {
            step: done + 1,
            left,
        }),
        Ok(product) => match y.sub(product) {
            Err(left) => Err(ExchangeFault::Left {
                step: done + 2,
                left,
            }),
            Ok(difference) => Ok(difference),
        },
    }
}

/// The entry of a point at the bound's place, or that of a direction.
fn at_bound<F: Field>(t: bool) -> F
    ensures { F.value result ≡ (if t then neg_ℚ one_ℚ else zero_ℚ) }
{
    if t { F::one().neg() } else { F::zero() }
}

/// The row of a point or, where `t` is false, of a direction: each entry but the last less the last
/// entry times that of `c`, then -1 or 0, then the last entry. Over a dual vector, all entries of a
/// normal but the last, the bound, and the product of the normal with `c`, its value is that of the
/// inequality at the point or direction.
pub fn exchange<F: Field>(
    alloc: Global,
    y: &[F],
    t: bool,
    c: &[F],
) -> Result<Items<F>, ExchangeFault<F>>
    requires some { 1 ≤ length y.now }
    requires same { length c.now ≡ length y.now }
    requires narrow { length y.now < 4294967296 }
    requires normed { entry (map F.value c.now) (length c.now) ≡ one_ℚ }
    ensures row { IfOk result
        (λ row. map F.value row ≡ exchange_row (map F.value c.now) (map F.value y.now) t) }
    ensures slack { IfOk result (λ row. (normal : List ℚ) (bound : ℚ) → length normal ≡ length y.now
        → dot (map F.value row) (dual_vector normal bound (map F.value c.now))
        ≡ dot normal (map F.value y.now) -ℚ (if t then bound else zero_ℚ)) }
    ensures held { OnOk result
        (All (IsHeld F.holds) (exchange_steps (map F.value y.now) (map F.value c.now))) }
    ensures left { IfErr result (λ fault. IsExchangeFault F.value F.holds
        (exchange_steps (map F.value y.now) (map F.value c.now)) fault) }
{
    let last = y.len() - 1;
    let mut row = Items::new(alloc);
    for i in 0..last {
        row.push(less_product(y[i], y[last], c[i], 2 * i as u64)?)?;
    }
    row.push(at_bound(t))?;
    row.push(y[last])?;
    Ok(row)
}

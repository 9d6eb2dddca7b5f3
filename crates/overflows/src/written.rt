//! That a log can write what stands in memory: each number is read once, and so is in the range of
//! its type.
ghost use Rattle.std.specs.Prelude.{◌≡◌, ℕ, List, All, IsTrue};
ghost use Rattle.exact_field.specs.Rational.{ℚ};
ghost use Rattle.frac128.specs.Held.{is_held};
ghost use Rattle.deriv_log.specs.Formed.{is_formed};
ghost use Rattle.word_lines.specs.Parts.{is_formed_spot, is_short};
ghost use Rattle.deriv_log.specs.declared.entry.Entry.TheVariants as line;

use deriv_log::Entry;
use exact_field::Field;
use frac128::{Frac, Spot};

/// Natural numbers can be written.
pub fn naturals_are_written(list: &[u32])
    ensures { All (λ n. IsTrue (is_short n)) list.now }
{
    for n in list {
        let _number = *n;
    }
}

/// Fractions can be written.
pub fn fractions_are_written(list: &[Frac])
    ensures { All (λ q. IsTrue (is_held q)) list.now }
{
    for q in list {
        let _num = q.num();
    }
}

/// A place and its value can be written.
fn spot_is_written(spot: Spot)
    ensures { IsTrue (is_formed_spot spot) }
{
    let _at = spot.at;
    let _num = spot.value.num();
}

/// The places and the values of a sparse vector can be written.
pub fn spots_are_written(list: &[Spot])
    ensures { All (λ s. IsTrue (is_formed_spot s)) list.now }
{
    for spot in list {
        spot_is_written(*spot);
    }
}

/// A `duality` entry can be written.
pub fn duality_is_written(opening: &Entry)
    ensures { (c weights : List ℚ) (picks : List ℕ) (inverse : List ℚ)
        → opening.now ≡ line.Duality c weights picks inverse → IsTrue (is_formed opening.now) }
{
    if let Entry::Duality {
        c,
        weights,
        picks,
        inverse,
    } = opening
    {
        fractions_are_written(c.as_slice());
        fractions_are_written(weights.as_slice());
        naturals_are_written(picks.as_slice());
        fractions_are_written(inverse.as_slice());
    }
}

//! How many tight rows two generators have in common at least where they are a pair.
ghost use Rattle.std.specs.Prelude.{◌≡◌, ◌<◌, ◌≤◌, ◌-◌, ℕ, List, IsTrue, Contains, All, false, length, slice_index_or};
ghost use Rattle.exact_field.specs.Rational.{ℚ, zero_ℚ};
ghost use Rattle.frac128.specs.Sparse.{is_zero as is_number_zero};
ghost use Rattle.polyhedra.specs.LiveList.{vectors};
ghost use Rattle.log_live.specs.Adding.{AreDescribed};
ghost use Rattle.log_live.specs.Live.{live_of};
ghost use Rattle.log_live.specs.declared.generator.Generator.{Generator};

use crate::generator::Generator;
use frac128::is_zero;

/// Whether some generator is not 0 at the place.
fn is_open(generators: &[Generator], place: usize) -> bool
    requires { All (λ g. place < length g.vector) generators.now }
    ensures { IsTrue result → (g : Generator) × Contains generators.now g
        × (is_number_zero (slice_index_or g.vector place zero_ℚ) ≡ false) }
{
    for generator in generators {
        if !is_zero(generator.vector.as_slice()[place]) {
            return true;
        }
    }
    false
}

/// A number of tight rows that each two generators have in common that no third one covers: the
/// number of places of y at which some generator is not 0, less 1. At the other places, as at those
/// of the lines, nothing would change if they were left out. It costs a look at a generator for
/// each place, and at all of them for the other places.
pub fn least_common(generators: &[Generator]) -> usize
    requires { (q : ℕ) × (rows : List (List ℚ))
        × AreDescribed q rows (vectors (live_of generators.now)) }
    ensures { (q : ℕ) (rows : List (List ℚ))
        (d : AreDescribed q rows (vectors (live_of generators.now)))
        → result ≤ d.open_places - 2 }
{
    if generators.is_empty() {
        return 0;
    }
    let places = generators[0].vector.len() - 1;
    let mut open: usize = 0;
    for place in 0..places {
        if is_open(generators, place) {
            open += 1;
        }
    }
    open.saturating_sub(1)
}

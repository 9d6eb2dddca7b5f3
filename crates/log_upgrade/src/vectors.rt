//! Vectors as keys of a map.
ghost use Rattle.std.specs.Prelude.{◌≡◌, refl};
ghost use Rattle.std.specs.Cmp.{partial_order_from_agreeing_total};
ghost use Rattle.std.specs.Ordering.{as_partial_cmp};
ghost use Rattle.log_upgrade.specs.Vectors.{compared, cmp_keys, same_keys, keys_total, keys_equivalence, keys_partial_equivalence, keys_partial_order, keys_match};

use frac128::Spot;
use std::cmp::Ordering;

/// How one vector is to another: by the first place, then its value, then the next place.
fn compare(u: &[Spot], v: &[Spot]) -> Ordering
    ensures { result ≡ compared u.now v.now }
{
    u.iter()
        .map(|spot| (spot.at, spot.value))
        .cmp(v.iter().map(|spot| (spot.at, spot.value)))
}

/// A vector, told from others by its places and their values.
#[derive(Clone, Copy)]
pub(crate) struct VectorKey<'a> {
    pub spots: &'a [Spot],
}

impl PartialEq for VectorKey<'_> {
    ghost eq = { same_keys };

    ghost laws = { keys_partial_equivalence };

    fn eq(&self, other: &Self) -> bool {
        self.cmp(other) == Ordering::Equal
    }
}

impl Eq for VectorKey<'_> {
    ghost laws = { keys_equivalence };
}

impl PartialOrd for VectorKey<'_> {
    ghost partial_cmp = { as_partial_cmp cmp_keys };

    ghost laws = { keys_partial_order };

    fn partial_cmp(&self, other: &Self) -> Option<Ordering> {
        Some(self.cmp(other))
    }
}

impl Ord for VectorKey<'_> {
    ghost cmp = { cmp_keys };

    ghost total = { keys_total };

    ghost matches_partial_cmp = { λ x y. refl };

    ghost matches_eq = { keys_match };

    fn cmp(&self, other: &Self) -> Ordering {
        compare(self.spots, other.spots)
    }
}

//! The rows that are facets.
ghost use Rattle.std.specs.Prelude.{◌≡◌, ◌<◌, ◌&&◌, ◌||◌, ℕ, List, All, IfOk, length, map, not};
ghost use Rattle.std.specs.List.{list_any};
ghost use Rattle.exact_field.specs.Rational.{ℚ};
ghost use Rattle.polyhedra.specs.Exactness.{rows_of};
ghost use Rattle.polyhedra.specs.FirstNamed.{named_first, tight_lies_in};
ghost use Rattle.polyhedra.specs.Inequality.{Inequality};
ghost use Rattle.polyhedra.specs.LiveList.{vectors};
ghost use Rattle.geo_duality.specs.Facets.{cut_at, facet_rows, may_be_facet, row_at, same_at, tight_places};

use crate::tight::{lies_in, tight_sets};
use double_descr::Dd;
use exact_field::Field;
use incid_sets::Marks;
use src_sink::{Items, NoMemory};
use std::alloc::Global;

/// Whether a set of generators lies in another only where both are the same.
fn is_no_part(set: &Marks, other: &Marks) -> bool
    ensures { (generators : List (List ℚ)) (r s : List ℚ) → set.now ≡ tight_places generators r
        → other.now ≡ tight_places generators s
        → result ≡ (not (tight_lies_in generators r s) || tight_lies_in generators s r) }
{
    !lies_in(set, other) || lies_in(other, set)
}

/// Whether the set of a row does not lie in that of row 0, and lies in that of another row only
/// where both are the same.
fn may_be_named(sets: &[Marks], k: usize) -> bool
    requires { k < length sets.now }
    ensures { (generators rows : List (List ℚ)) → sets.now ≡ map (tight_places generators) rows
        → result ≡ may_be_facet generators rows (row_at rows k) }
{
    if lies_in(&sets[k], &sets[0]) {
        return false;
    }
    for set in sets {
        if !is_no_part(&sets[k], set) {
            return false;
        }
    }
    true
}

/// Whether one of the listed rows has the set of a row.
fn is_listed(sets: &[Marks], listed: &[u32], k: usize) -> bool
    requires place { k < length sets.now }
    requires listed { All (λ j. j < length sets.now) listed.now }
    ensures { (generators rows : List (List ℚ)) → sets.now ≡ map (tight_places generators) rows
        → result ≡ list_any (λ j. same_at generators rows j k) listed.now }
{
    for row in listed {
        let set = &sets[*row as usize];
        if lies_in(set, &sets[k]) && lies_in(&sets[k], set) {
            return true;
        }
    }
    false
}

/// Whether a row is a facet that is not listed yet.
fn is_facet(sets: &[Marks], listed: &[u32], k: usize) -> bool
    requires place { k < length sets.now }
    requires listed { All (λ j. j < length sets.now) listed.now }
    ensures { (generators rows : List (List ℚ)) → sets.now ≡ map (tight_places generators) rows
        → result
        ≡ (may_be_facet generators rows (row_at rows k)
        && not (list_any (λ j. same_at generators rows j k) listed.now)) }
{
    may_be_named(sets, k) && !is_listed(sets, listed, k)
}

/// The numbers of the rows other than row 0 whose sets of tight generators do not lie in row 0's
/// and lie in no other row's that is not the same, of rows with one set the first, rising. The cost
/// is the square of the number of rows times the words of a set of generators.
pub fn facets_of<F: Field>(alloc: Global, dd: &Dd<F>) -> Result<Items<u32>, NoMemory>
    ensures rows { IfOk result
        (λ facets. facets ≡ facet_rows (vectors dd.now.list.live) dd.now.rows) }
    ensures named { (n : ℕ) (cuts : List Inequality) → dd.now.rows ≡ rows_of n cuts
        → IfOk result
        (λ facets. map (cut_at cuts) facets ≡ named_first n cuts (vectors dd.now.list.live)) }
{
    let sets = tight_sets(alloc, dd)?;
    let mut facets = Items::new(alloc);
    for k in 1..dd.row_count() {
        if is_facet(sets.as_slice(), facets.as_slice(), k as usize) {
            facets.push(k)?;
        }
    }
    Ok(facets)
}

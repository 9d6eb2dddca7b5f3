//! The sets of live generators that are tight at rows.
ghost use Rattle.std.specs.Prelude.{◌≡◌, ◌<◌, List, [], IfOk, length, map, slice_index_or};
ghost use Rattle.exact_field.specs.Rational.{ℚ};
ghost use Rattle.polyhedra.specs.FirstNamed.{tight_lies_in};
ghost use Rattle.polyhedra.specs.LiveList.{vectors};
ghost use Rattle.geo_duality.specs.Facets.{tight_places};

use double_descr::Dd;
use exact_field::Field;
use incid_sets::Marks;
use src_sink::{Items, NoMemory};
use std::alloc::Global;

/// The places of the live generators that are tight at row `k`.
fn tight_at<F: Field>(alloc: Global, dd: &Dd<F>, k: u32) -> Result<Marks, NoMemory>
    requires { k < length dd.now.rows }
    ensures { IfOk result (λ marks. marks
        ≡ tight_places (vectors dd.now.list.live) (slice_index_or dd.now.rows k [])) }
{
    let live = dd.live();
    let mut marks = Marks::new(alloc, live.len() as u32)?;
    for i in 0..live.len() {
        if dd.tight(live[i]).has(k) {
            marks.insert(i as u32);
        }
    }
    Ok(marks)
}

/// The same of each row, in their order. They take a bit for each row and generator.
pub fn tight_sets<F: Field>(alloc: Global, dd: &Dd<F>) -> Result<Items<Marks>, NoMemory>
    ensures { IfOk result
        (λ sets. sets ≡ map (tight_places (vectors dd.now.list.live)) dd.now.rows) }
{
    let mut sets = Items::new(alloc);
    for k in 0..dd.row_count() {
        sets.push(tight_at(alloc, dd, k)?)?;
    }
    Ok(sets)
}

/// Whether each generator of the one set is in the other.
pub fn lies_in(a: &Marks, b: &Marks) -> bool
    ensures { (generators : List (List ℚ)) (r s : List ℚ) → a.now ≡ tight_places generators r
        → b.now ≡ tight_places generators s → result ≡ tight_lies_in generators r s }
{
    b.contains_all(a)
}

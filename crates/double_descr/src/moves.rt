//! The moves that end an addition: nothing of them takes memory or can fail.
ghost use Rattle.std.specs.Prelude.{◌≡◌, ◌+◌, ◌≤◌, ◌++◌, ◌∷◌, [], List, All, length, map};
ghost use Rattle.std.specs.Vec.{vec_capacity, vec_len};
ghost use Rattle.exact_field.specs.Rational.{ℚ};
ghost use Rattle.polyhedra.specs.DoubleDescription.{is_zero};
ghost use Rattle.polyhedra.specs.LiveList.{staying};
ghost use Rattle.double_descr.specs.Making.{Addition, AreSetsFor, AreValuesAt, HasRoomForRow, IsMoving};
ghost use Rattle.double_descr.specs.State.{HasTightSet, live_of, tight_sets, with_set, with_tight_set};

use crate::generator::Generator;
use exact_field::{Field, is_negative, is_zero};
use incid_sets::Marks;
use src_sink::Items;
use std::mem::swap;

/// Gives each generator its set of tight rows.
fn give_sets<F: Field>(generators: &mut Vec<Generator<F>>, sets: &mut [Marks])
    requires { length sets.old ≡ vec_len generators.old }
    ensures given { (rows : List (List ℚ)) → sets.old ≡ tight_sets F.value rows generators.old.items
        → generators.new.items ≡ map (with_tight_set F.value rows) generators.old.items }
    ensures many { vec_len generators.new ≡ vec_len generators.old }
    ensures capacity { vec_capacity generators.new ≡ vec_capacity generators.old }
{
    for i in 0..sets.len() {
        let generator = &mut generators[i];
        swap(&mut generator.tight, &mut sets[i]);
    }
}

/// Gives the set of a generator's tight rows, which has room for it, the next row, from its value
/// there.
fn widen_set<F: Field>(generator: &mut Generator<F>, at: F)
    requires { HasRoomForRow generator.old }
    ensures { generator.new
        ≡ with_set generator.old (generator.old.tight ++ is_zero (F.value at) ∷ []) }
{
    match generator.tight.widen(is_zero(at)) {
        Ok(()) => (),
        Err(_) => unreachable!(),
    }
}

/// Gives each set of tight rows, which has room for it, the next row, from its values.
fn widen_sets<F: Field>(generators: &mut Vec<Generator<F>>, vals: &[F])
    requires same { length vals.now ≡ vec_len generators.old }
    requires room { All (λ g. HasRoomForRow g) generators.old.items }
    ensures given { (a : Addition) → AreValuesAt F.value a.row generators.old.items vals.now
        → All (HasTightSet F.value a.rows) generators.old.items
        → generators.new.items
        ≡ map (with_tight_set F.value (a.rows ++ a.row ∷ [])) generators.old.items }
    ensures many { vec_len generators.new ≡ vec_len generators.old }
    ensures capacity { vec_capacity generators.new ≡ vec_capacity generators.old }
{
    for i in 0..vals.len() {
        let generator = &mut generators[i];
        widen_set(generator, vals[i]);
    }
}

/// Gives each generator its set of tight rows with the next row: the one that was made aside, or
/// its own, if none were.
fn renew_sets<F: Field>(generators: &mut Vec<Generator<F>>, vals: &[F], sets: Option<Items<Marks>>)
    requires same { length vals.now ≡ vec_len generators.old }
    requires sets { AreSetsFor generators.old.items sets }
    ensures given { (a : Addition) → IsMoving F.value a generators.old.items vals.now sets
        → generators.new.items
        ≡ map (with_tight_set F.value (a.rows ++ a.row ∷ [])) generators.old.items }
    ensures many { vec_len generators.new ≡ vec_len generators.old }
    ensures capacity { vec_capacity generators.new ≡ vec_capacity generators.old }
{
    match sets {
        None => widen_sets(generators, vals),
        Some(sets) => {
            let mut sets = sets.into_vec();
            give_sets(generators, &mut sets);
        }
    }
}

/// Lets the generators go at which a row is below 0. The others keep their order.
fn drop_below<F: Field>(generators: &mut Vec<Generator<F>>, vals: &[F])
    requires { length vals.now ≡ vec_len generators.old }
    ensures live { (row : List ℚ) → AreValuesAt F.value row generators.old.items vals.now
        → live_of F.value generators.new.items
        ≡ staying row (live_of F.value generators.old.items) }
    ensures tight { (rows : List (List ℚ))
        → All (HasTightSet F.value rows) generators.old.items
        → All (HasTightSet F.value rows) generators.new.items }
    ensures many { vec_len generators.new ≤ vec_len generators.old }
    ensures capacity { vec_capacity generators.new ≡ vec_capacity generators.old }
{
    let mut kept = 0;
    for i in 0..vals.len() {
        if !is_negative(vals[i]) {
            generators.swap(kept, i);
            kept += 1;
        }
    }
    generators.truncate(kept);
}

/// Makes the next live list of the generators: with their next sets of tight rows, without those at
/// which the row is below 0, and with the new ones at the end, for which there is room.
pub fn advance<F: Field>(
    generators: &mut Vec<Generator<F>>,
    vals: &[F],
    sets: Option<Items<Marks>>,
    new: Items<Generator<F>>,
)
    requires same { length vals.now ≡ vec_len generators.old }
    requires sets { AreSetsFor generators.old.items sets }
    requires room { vec_len generators.old + length new ≤ vec_capacity generators.old }
    ensures live { (a : Addition) → IsMoving F.value a generators.old.items vals.now sets
        → live_of F.value generators.new.items
        ≡ staying a.row (live_of F.value generators.old.items) ++ live_of F.value new }
    ensures tight { (a : Addition) → IsMoving F.value a generators.old.items vals.now sets
        → All (HasTightSet F.value (a.rows ++ a.row ∷ [])) new
        → All (HasTightSet F.value (a.rows ++ a.row ∷ [])) generators.new.items }
{
    renew_sets(generators, vals, sets);
    drop_below(generators, vals);
    let mut new = new.into_vec();
    match generators.append(&mut new) {
        Ok(()) => (),
        Err(_) => unreachable!(),
    }
}

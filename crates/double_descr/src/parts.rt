//! The parts of an addition: the values of the row, the places of those below 0, the next sets of
//! tight rows, and the numbers of the generators that stay.
ghost use Rattle.std.specs.Prelude.{◌≡◌, ◌+◌, ◌<◌, ◌++◌, List, All, [], ◌∷◌, IfErr, IfOk, MatchResult, OnOk, length, map};
ghost use Rattle.exact_field.specs.Vector.{dot};
ghost use Rattle.polyhedra.specs.LiveList.{dropped, numbers, staying};
ghost use Rattle.double_descr.specs.Adding.{AreHeld, IsAddFault, IsFault, value_block};
ghost use Rattle.double_descr.specs.Making.{Addition, AreNextSets, AreValuesAt, IsAddition, negative_places};
ghost use Rattle.double_descr.specs.State.{HasTightSet, live_of, numbered_of, tight_sets};
ghost use Rattle.double_descr.specs.Steps.{values};

use crate::fault::DdFault;
use crate::generator::{Generator, next_set};
use crate::steps::{Stop, product};
use exact_field::{Field, is_negative};
use incid_sets::Marks;
use src_sink::{Items, NoMemory};
use std::alloc::Global;

/// The value of a row at a generator.
fn value_at<F: Field>(row: &[F], generator: &Generator<F>) -> Result<F, DdFault<F>>
    requires same { length row.now ≡ length generator.now.vector.items }
    requires narrow { length row.now < 4294967296 }
    ensures { MatchResult result (λ v. AreHeld F.holds
        (value_block (values F.value row.now) (numbered_of F.value generator.now))
        × (F.value v ≡ dot (values F.value row.now) (values F.value generator.now.vector.items)))
        (λ fault. IsFault F.value F.holds
        (value_block (values F.value row.now) (numbered_of F.value generator.now)) fault) }
{
    match product(row, &generator.vector) {
        Err(Stop::NoMemory) => Err(DdFault::NoMemory),
        Err(Stop::Step(step, left)) => Err(DdFault::Left {
            first: generator.number,
            second: 0,
            step,
            left,
        }),
        Ok(value) => Ok(value),
    }
}

/// The values of a row at all generators, in their order.
pub fn values_at<F: Field>(
    alloc: Global,
    row: &[F],
    generators: &[Generator<F>],
) -> Result<Items<F>, DdFault<F>>
    requires same { All (λ g. length row.now ≡ length g.vector.items) generators.now }
    requires narrow { length row.now < 4294967296 }
    ensures values { IfOk result
        (AreValuesAt F.value (values F.value row.now) generators.now) }
    ensures held { OnOk result (All (AreHeld F.holds)
        (map (value_block (values F.value row.now)) (live_of F.value generators.now))) }
    ensures left { IfErr result (λ fault. IsAddFault F.value F.holds
        (map (value_block (values F.value row.now)) (live_of F.value generators.now)) fault) }
{
    let mut out = Items::with_room(alloc, generators.len())?;
    for generator in generators {
        out.push(value_at(row, generator)?)?;
    }
    Ok(out)
}

/// The places of the values below 0, rising.
pub fn places_below<F: Field>(alloc: Global, values: &[F]) -> Result<Items<usize>, NoMemory>
    ensures { IfOk result (λ places. places ≡ negative_places 0 (map F.value values.now)) }
{
    let mut out = Items::new(alloc);
    for (j, value) in values.iter().enumerate() {
        if is_negative(*value) {
            out.push(j)?;
        }
    }
    Ok(out)
}

/// The sets of the rows that are tight at generators, with the next row.
fn next_sets<F: Field>(
    alloc: Global,
    generators: &[Generator<F>],
    vals: &[F],
) -> Result<Items<Marks>, NoMemory>
    ghost addition: { Addition }
    requires values { AreValuesAt F.value addition.row generators.now vals.now }
    requires tight { All (HasTightSet F.value addition.rows) generators.now }
    requires same { length vals.now ≡ length generators.now }
    requires room { All (λ g. length g.tight + 1 < 4294967296) generators.now }
    ensures { IfOk result (λ sets. sets
        ≡ tight_sets F.value (addition.rows ++ addition.row ∷ []) generators.now) }
{
    let mut sets = Items::with_room(alloc, generators.len())?;
    for i in 0..generators.len() {
        sets.push(next_set(alloc, &generators[i], vals[i])?)?;
    }
    Ok(sets)
}

/// Makes these sets aside, of generators of so many rows, where their own have no room for the next
/// row.
pub fn make_sets_aside<F: Field>(
    alloc: Global,
    count: u32,
    generators: &[Generator<F>],
    vals: &[F],
) -> Result<Option<Items<Marks>>, NoMemory>
    ghost addition: { Addition }
    requires addition { IsAddition F.value addition generators.now }
    requires values { AreValuesAt F.value addition.row generators.now vals.now }
    requires count { count ≡ length addition.rows }
    requires room { count + 1 < 4294967296 }
    ensures { IfOk result (AreNextSets F.value addition generators.now) }
{
    if Marks::has_room(count) {
        return Ok(None);
    }
    let sets = next_sets(alloc, generators, vals)?;
    Ok(Some(sets))
}

/// Lists the number of a generator among those that stay, or among the dropped ones.
fn list_number<F: Field>(
    generator: &Generator<F>,
    at: F,
    stays: &mut Items<u32>,
    gone: &mut Items<u32>,
) -> Result<(), NoMemory>
    ghost addition: { Addition }
    requires { F.value at ≡ dot addition.row (values F.value generator.now.vector.items) }
    ensures stays { OnOk result (stays.new ≡ stays.old
        ++ numbers (staying addition.row (numbered_of F.value generator.now ∷ []))) }
    ensures gone { OnOk result (gone.new
        ≡ gone.old ++ dropped addition.row (numbered_of F.value generator.now ∷ [])) }
{
    if is_negative(at) {
        gone.push(generator.number)?;
        return Ok(());
    }
    stays.push(generator.number)?;
    Ok(())
}

/// Lists the numbers of the generators that stay, and those of the dropped ones.
pub fn list_numbers<F: Field>(
    generators: &[Generator<F>],
    vals: &[F],
    stays: &mut Items<u32>,
    gone: &mut Items<u32>,
) -> Result<(), NoMemory>
    ghost addition: { Addition }
    requires values { AreValuesAt F.value addition.row generators.now vals.now }
    requires same { length vals.now ≡ length generators.now }
    requires none { stays.old ≡ [] }
    requires none_gone { gone.old ≡ [] }
    ensures stays { OnOk result
        (stays.new ≡ numbers (staying addition.row (live_of F.value generators.now))) }
    ensures gone { OnOk result
        (gone.new ≡ dropped addition.row (live_of F.value generators.now)) }
{
    for i in 0..generators.len() {
        list_number(&generators[i], vals[i], stays, gone)?;
    }
    Ok(())
}

/// Appends the numbers of generators.
pub fn push_numbers<F: Drop>(
    list: &mut Items<u32>,
    generators: &[Generator<F>],
) -> Result<(), NoMemory>
    ensures { OnOk result (list.new ≡ list.old ++ map (λ g. g.number) generators.now) }
{
    for generator in generators {
        list.push(generator.number)?;
    }
    Ok(())
}

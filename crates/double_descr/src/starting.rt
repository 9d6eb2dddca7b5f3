//! The generators that a double description starts with.
ghost use Rattle.std.specs.Prelude.{◌≡◌, ◌≢◌, ◌+◌, ◌<◌, List, All, IfErr, IfOk, OnOk, length, map};
ghost use Rattle.exact_field.specs.Rational.{ℚ, zero_ℚ};
ghost use Rattle.polyhedra.specs.Dependence.{AreCorners};
ghost use Rattle.polyhedra.specs.DoubleDescription.{norming, normed};
ghost use Rattle.polyhedra.specs.LiveList.{numbered};
ghost use Rattle.lin_rows.specs.Read.{numbers};
ghost use Rattle.incid_sets.specs.Marks.{IsAllBut};
ghost use Rattle.double_descr.specs.Starting.{AreNotNormed, IsNormingFault, norming_steps};
ghost use Rattle.double_descr.specs.State.{HasTightSet, live_of, numbered_of};
ghost use Rattle.double_descr.specs.Steps.{IsHeld, values};

use crate::fault::DdFault;
use crate::generator::Generator;
use crate::points::{norming_entry, without_sign};
use crate::steps::{Stop, quotients};
use exact_field::Field;
use incid_sets::Marks;
use lin_rows::{RowFault, Rows};
use src_sink::{Items, NoMemory};
use std::alloc::Global;

/// A vector, normed, as a generator of so many rows, of which all but the one at its place are
/// tight at it.
fn normed_generator<F: Field>(
    alloc: Global,
    vector: &[F],
    place: u32,
    count: u32,
) -> Result<Generator<F>, DdFault<F>>
    requires not_zero { norming (values F.value vector.now) ≢ zero_ℚ }
    requires narrow { length vector.now < 4294967296 }
    requires place { place < count }
    ensures held { OnOk result (All (IsHeld F.holds) (norming_steps (values F.value vector.now))) }
    ensures is { IfOk result (λ g. numbered_of F.value g
        ≡ record { number = place + 1; vector = normed (values F.value vector.now) }) }
    ensures tight { IfOk result (λ g. IsAllBut count place g.tight) }
    ensures left { IfErr result
        (λ fault. IsNormingFault F.value F.holds (values F.value vector.now) fault) }
{
    let by = without_sign(norming_entry(vector));
    match quotients(alloc, vector, by, 0) {
        Err(Stop::NoMemory) => Err(DdFault::NoMemory),
        Err(Stop::Step(step, left)) => Err(DdFault::Elim(RowFault::Left {
            basis: Items::new(alloc),
            row: 0,
            col: step as u32,
            step: 1,
            left,
        })),
        Ok(vector) => {
            let tight = Marks::all_but(alloc, count, place)?;
            Ok(Generator {
                number: place + 1,
                vector,
                tight,
            })
        }
    }
}

/// Vectors, normed, as generators under the numbers from 1 on: each of the rows is 0 at all of them
/// but its own.
pub fn norm_all<F: Field>(
    alloc: Global,
    vectors: &Rows<F>,
) -> Result<Items<Generator<F>>, DdFault<F>>
    requires corners { (rows : List (List ℚ))
        × AreCorners vectors.now.width rows (numbers F.value vectors.now.list) }
    ensures live { IfOk result (λ gens. live_of F.value gens
        ≡ numbered 1 (map normed (numbers F.value vectors.now.list))) }
    ensures tight { (rows : List (List ℚ))
        → AreCorners vectors.now.width rows (numbers F.value vectors.now.list)
        → IfOk result (λ gens. All (HasTightSet F.value rows) gens) }
    ensures left { IfErr result
        (λ fault. AreNotNormed F.value F.holds (numbers F.value vectors.now.list) fault) }
{
    let count = vectors.count();
    let mut out = Items::new(alloc);
    for j in 0..count {
        out.push(normed_generator(alloc, vectors.row(j + 1), j, count)?)?;
    }
    Ok(out)
}

pub fn copy_rows<F: Copy>(alloc: Global, rows: &Rows<F>) -> Result<Items<Items<F>>, NoMemory>
    ensures { IfOk result (λ list. list ≡ rows.now.list) }
{
    let mut out = Items::new(alloc);
    for k in 0..rows.count() {
        let mut line = Items::new(alloc);
        line.append(rows.row(k + 1))?;
        out.push(line)?;
    }
    Ok(out)
}

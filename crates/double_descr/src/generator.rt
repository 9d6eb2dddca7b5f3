//! Live generators.
ghost use Rattle.std.specs.Prelude.{◌≡◌, ◌≢◌, ◌+◌, ◌<◌, List, Bool, true, [], ◌∷◌, ◌++◌, AllPairs, Contains, IfErr, IfOk, length, slice_index};
ghost use Rattle.exact_field.specs.Rational.{zero_ℚ, ◌<ℚ◌};
ghost use Rattle.polyhedra.specs.DoubleDescription.{is_zero, norming, normed};
ghost use Rattle.incid_sets.specs.Marks.{IsMeet};
ghost use Rattle.double_descr.specs.Adding.{AreHeld, IsFault, block_of};
ghost use Rattle.double_descr.specs.State.{numbered_of};
ghost use Rattle.double_descr.specs.Steps.{between, values};

use crate::fault::DdFault;
use crate::points::meeting_point;
use crate::steps::Stop;
use exact_field::{Field, is_zero};
use incid_sets::Marks;
use src_sink::NoMemory;
use std::alloc::Global;

/// A live generator of a double description.
#[derive(Debug, Drop)]
pub struct Generator<F: Drop> {
    /// Its number, from 1.
    pub number: u32,
    /// Its entries, normed.
    pub vector: Vec<F>,
    /// The rows that are 0 at it.
    pub tight: Marks,
}

/// The place of a generator's number among rising numbers, by a binary search.
pub fn place_of(numbers: &[u32], number: u32) -> usize
    requires rises { AllPairs (λ a b. a < b) numbers.now }
    requires listed { Contains numbers.now number }
    ensures within { result < length numbers.now }
    ensures is { slice_index numbers.now result ≡ number }
{
    match numbers.binary_search(&number) {
        Ok(place) => place,
        Err(_) => unreachable!(),
    }
}

/// The common numbers of two sets of rows, and after them whether the next row is in the set.
fn with_row(alloc: Global, a: &Marks, b: &Marks, tight: bool) -> Result<Marks, NoMemory>
    requires { length a.now + 1 < 4294967296 }
    ensures { IfOk result (λ marks. (common : List Bool) × IsMeet common a.now b.now
        × (marks ≡ common ++ tight ∷ [])) }
{
    let mut marks = Marks::meet(alloc, a, b)?;
    marks.widen(tight)?;
    Ok(marks)
}

/// The set of the rows that are tight at a generator, with the next row, from its value there.
pub fn next_set<F: Field>(alloc: Global, generator: &Generator<F>, at: F) -> Result<Marks, NoMemory>
    requires { length generator.now.tight + 1 < 4294967296 }
    ensures { IfOk result
        (λ marks. marks ≡ generator.now.tight ++ is_zero (F.value at) ∷ []) }
{
    with_row(alloc, &generator.tight, &generator.tight, is_zero(at))
}

/// The new generator between two, from the values of the row there.
pub fn make_between<F: Field>(
    alloc: Global,
    plus: &Generator<F>,
    minus: &Generator<F>,
    at_plus: F,
    at_minus: F,
    number: u32,
) -> Result<Generator<F>, DdFault<F>>
    requires same { length plus.now.vector.items ≡ length minus.now.vector.items }
    requires narrow { length plus.now.vector.items < 4294967296 }
    requires bounds { length plus.now.tight ≡ length minus.now.tight }
    requires room { length plus.now.tight + 1 < 4294967296 }
    requires below { F.value at_minus <ℚ zero_ℚ }
    requires not_zero { norming (between (F.value at_plus) (F.value at_minus)
        (values F.value plus.now.vector.items) (values F.value minus.now.vector.items))
        ≢ zero_ℚ }
    ensures held { IfOk result (λ g. AreHeld F.holds
        (block_of F.value plus.now minus.now (F.value at_plus) (F.value at_minus))) }
    ensures new { IfOk result (λ g. numbered_of F.value g
        ≡ record {
          number = number;
          vector = normed (between (F.value at_plus) (F.value at_minus)
              (values F.value plus.now.vector.items) (values F.value minus.now.vector.items));
        }) }
    ensures tight { IfOk result (λ g. (common : List Bool)
        × IsMeet common plus.now.tight minus.now.tight × (g.tight ≡ common ++ true ∷ [])) }
    ensures left { IfErr result (λ fault. IsFault F.value F.holds
        (block_of F.value plus.now minus.now (F.value at_plus) (F.value at_minus)) fault) }
{
    match meeting_point(alloc, &plus.vector, &minus.vector, at_plus, at_minus) {
        Err(Stop::NoMemory) => Err(DdFault::NoMemory),
        Err(Stop::Step(step, left)) => Err(DdFault::Left {
            first: plus.number,
            second: minus.number,
            step,
            left,
        }),
        Ok(vector) => {
            let tight = with_row(alloc, &plus.tight, &minus.tight, true)?;
            Ok(Generator {
                number,
                vector,
                tight,
            })
        }
    }
}

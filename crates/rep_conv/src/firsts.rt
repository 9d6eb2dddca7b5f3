//! The generators of a `start` entry, and sets of rows in use.
ghost use Rattle.std.specs.Prelude.{◌≡◌, ◌*◌, ◌<◌, ◌≤◌, ℕ, List, suc, All, IfOk, length, map};
ghost use Rattle.log_live.specs.Live.{AreLive};
ghost use Rattle.polyhedra.specs.LiveList.{starting};
ghost use Rattle.rep_conv.specs.Live.{State, rows_in_use};
ghost use Rattle.rep_conv.specs.Meets.{MeetsStart};
ghost use Rattle.rep_conv.specs.Rows.{row_at};
ghost use Rattle.rep_conv.specs.Starting.{IsFirst, IsSetOf};
ghost use Rattle.rep_text.specs.declared.rep.Rep.{Rep};
ghost use Rattle.upper_image.specs.Spots.{pieces};

use frac128::{Frac, Vector};
use incid_sets::Marks;
use log_live::Generator;
use src_sink::{Items, NoMemory};
use std::alloc::Global;

/// The set of these numbers below a bound.
pub fn set_of(alloc: Global, bound: u32, numbers: &[u32]) -> Result<Marks, NoMemory>
    requires { All (λ k. k < bound) numbers.now }
    ensures { IfOk result (IsSetOf bound numbers.now) }
{
    let mut marks = Marks::new(alloc, bound)?;
    for k in numbers {
        marks.insert(*k);
    }
    Ok(marks)
}

pub fn copy_vector(alloc: Global, v: &[Frac]) -> Result<Vector, NoMemory>
    ensures { IfOk result (λ copy. copy ≡ v.now) }
{
    let mut copy = Items::new(alloc);
    copy.append(v)?;
    Ok(copy)
}

/// The first generator of this place, counted from 0: of `count` rows that of its place alone is
/// not tight at it.
fn first_generator(
    alloc: Global,
    count: u32,
    place: u32,
    entries: &[Frac],
) -> Result<Generator, NoMemory>
    requires { place < 4294967295 }
    ensures { IfOk result (IsFirst count place entries.now) }
{
    Ok(Generator {
        number: place + 1,
        vector: copy_vector(alloc, entries)?,
        tight: Marks::all_but(alloc, count, place)?,
        pre: None,
    })
}

/// The generators of a `start` entry that meets its rules, with the sets of its rows. No product is
/// computed.
pub fn first_generators(
    alloc: Global,
    count: u32,
    places: usize,
    gens: &[Frac],
) -> Result<Vec<Generator>, NoMemory>
    requires few { count ≤ 20 }
    requires narrow { places ≤ 20 }
    requires entries { length gens.now ≡ count * places }
    ensures { (rep : Rep) (s : State) (rows : List ℕ) → suc rep.width ≡ places
        → length rows ≡ count → MeetsStart rep s rows gens.now
        → IfOk result (λ list. AreLive (map (row_at rep) rows)
        (starting 1 (pieces count places gens.now)) list.items (suc count)) }
{
    let mut list = Vec::new(alloc);
    for j in 0..count {
        let from = j as usize * places;
        list.push(first_generator(alloc, count, j, &gens[from..from + places])?)?;
    }
    Ok(list)
}

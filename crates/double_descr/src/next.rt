//! What is made aside for the addition of a row.
ghost use Rattle.std.specs.Prelude.{◌≡◌, ◌+◌, ◌<◌, List, All, IfErr, IfOk, OnOk, length};
ghost use Rattle.double_descr.specs.Adding.{AreHeld, IsAddFault, IsChange};
ghost use Rattle.double_descr.specs.Making.{Addition, IsAddition, IsMadeSoFar, IsNext, addition_of, blocks_of_all, candidates_from};
ghost use Rattle.double_descr.specs.State.{list_of};

use crate::fault::{Change, DdFault};
use crate::generator::Generator;
use crate::made::{Made, meet_all};
use crate::parts::{list_numbers, make_sets_aside, places_below, push_numbers, values_at};
use exact_field::Field;
use incid_sets::Marks;
use src_sink::{Items, MOST_ITEMS, NoMemory};
use std::alloc::Global;

/// What an addition brings to a live list.
#[derive(Debug, Drop)]
pub struct Next<F: Drop> {
    /// The values of the row at the live generators.
    pub values: Items<F>,
    /// The rows that are 0 at each of them, with the new one, or none where their own sets have
    /// room for it.
    pub sets: Option<Items<Marks>>,
    /// The new generators.
    pub generators: Items<Generator<F>>,
    /// The numbers of the next live list: of the generators that stay, and of the new ones.
    pub numbers: Items<u32>,
    /// The number that the next new generator gets.
    pub next: u32,
    /// Which generators were dropped, and which pairs gave new ones.
    pub change: Change,
}

/// No pair yet, and no new generator.
fn begin<F: Field>(alloc: Global, count: u32, first_new: u32) -> Result<Made<F>, NoMemory>
    ghost addition: { Addition }
    requires count { count ≡ length addition.rows }
    requires first { first_new ≡ addition.first }
    ensures { IfOk result (λ made. (generators : List (Generator F))
        → IsMadeSoFar F.value F.holds addition generators
        (candidates_from F.value addition generators 0) made) }
{
    let common = Marks::new(alloc, count)?;
    Ok(Made {
        pairs: Items::new(alloc),
        generators: Items::new(alloc),
        common,
        last: 0,
        first_new,
    })
}

/// What the addition of a row to some rows brings to their live list.
pub fn next_list<F: Field>(
    alloc: Global,
    rows: &Items<Items<F>>,
    row: &[F],
    generators: &[Generator<F>],
    first_new: u32,
) -> Result<Next<F>, DdFault<F>>
    ghost addition: { Addition }
    requires is { addition ≡ addition_of F.value rows.now row.now first_new }
    requires addition { IsAddition F.value addition generators.now }
    ensures next { IfOk result (IsNext F.value addition generators.now) }
    ensures change { IfOk result (λ made. IsChange addition.rows
        (list_of F.value generators.now addition.first) addition.row made.change) }
    ensures held { OnOk result
        (All (AreHeld F.holds) (blocks_of_all F.value addition generators.now)) }
    ensures left { IfErr result
        (IsAddFault F.value F.holds (blocks_of_all F.value addition generators.now)) }
{
    let vals = values_at(alloc, row, generators)?;
    let count = rows.len() as u32;
    let mut so_far = begin(alloc, count, first_new)?;
    let below = places_below(alloc, vals.as_slice())?;
    meet_all(
        alloc,
        generators,
        vals.as_slice(),
        below.as_slice(),
        &mut so_far,
    )?;
    let next = first_new as usize + so_far.pairs.len();
    if next > MOST_ITEMS + 1 {
        return Err(DdFault::NoMemory);
    }
    let sets = make_sets_aside(alloc, count, generators, vals.as_slice())?;
    let mut numbers = Items::with_room(alloc, generators.len())?;
    let mut dropped = Items::new(alloc);
    list_numbers(generators, vals.as_slice(), &mut numbers, &mut dropped)?;
    push_numbers(&mut numbers, so_far.generators.as_slice())?;
    let Made {
        pairs,
        generators,
        ..
    } = so_far;
    Ok(Next {
        values: vals,
        sets,
        generators,
        numbers,
        next: next as u32,
        change: Change {
            dropped,
            pairs,
            first_new,
        },
    })
}
